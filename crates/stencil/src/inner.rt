// The work of the entry, for callers that have made the checks.
pub mod build;
mod building;
mod cell;
pub mod ring;
