// What writers test before they store anything.
#![tactic(auto)]

pub mod keys;
pub mod pairs;
pub mod sealed;
mod seen;
pub mod tables;
