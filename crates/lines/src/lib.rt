// The lines that a square root is guessed from, with the formula that they are computed by.
#![tactic(auto)]

pub mod inner;
