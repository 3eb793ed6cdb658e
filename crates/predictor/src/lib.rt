// From the momentum equation to the flux it predicts: face coefficients and predicted flux.
#![tactic(auto)]

pub mod inner;
