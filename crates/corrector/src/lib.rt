// Momentum response, and what follows from a pressure correction: corrected flux and velocity, metrics.
#![tactic(auto)]

pub mod inner;
