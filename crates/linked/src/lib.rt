// The flux that is predicted at linked faces.
#![tactic(auto)]

pub mod inner;
