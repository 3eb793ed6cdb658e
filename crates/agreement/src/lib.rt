// What two calls that are lent the same have in common. The statements are in specs/ and their proofs in
// proofs/; there is no code.
#![tactic(auto)]
