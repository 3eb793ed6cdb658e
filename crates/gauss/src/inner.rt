// The work of the entries, for callers that have made the checks.
pub mod gradient;
pub mod pressure;
