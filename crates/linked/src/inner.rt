// The work of a step's links, for a caller that has made the checks.
pub mod prediction;
