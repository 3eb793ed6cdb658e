// The scheme of the coupling step has definitions and proofs, and no code; `step` has the call.
#![tactic(auto)]
