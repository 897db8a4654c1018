// What a reader answers at a place of a message, step by step, stands in proofs/; there is no code in this crate.
#![tactic(auto)]
