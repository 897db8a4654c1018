// Every operation for a host program in C or Rust. `crossing` has what crosses the boundary: requests in numbers, answers as records.
// C has no generic function and no `Option`: an export for each operation, and a number beside the flag that says whether it counts.
#![tactic(auto)]

mod auth_tag;
mod authenticated;
mod body;
mod finding;
mod listing;
mod mending;
mod policies;
mod reissue;
mod sections;
mod version;
mod writers;
