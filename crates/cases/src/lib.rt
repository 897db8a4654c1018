// Tables of examples worked out, each with one statement, stand in specs/; there is no code in this crate.
#![tactic(auto)]
