// The balance of mass: what the outflows of a mesh are off by, exactly. The definitions are in
// specs/ and the laws in proofs/; there is no code.
#![tactic(auto)]
