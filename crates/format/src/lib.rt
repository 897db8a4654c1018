// The definitions of the format stand in specs/, and what is proved of them in proofs/; there is no code in this crate.
#![tactic(auto)]
