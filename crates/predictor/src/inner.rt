// The work of the entries, for callers that have made the checks.
pub mod boundary;
pub mod coefficients;
pub mod prediction;
