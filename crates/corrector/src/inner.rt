// The work of the entries, for callers that have made the checks.
pub mod correction;
pub mod diagonal;
pub mod metrics;
pub mod velocity;
