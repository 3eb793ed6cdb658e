// The corrected flux of all faces, written over the predicted flux.
#![tactic(auto)]

pub mod inner;
