// The two ends of a body in writing, before its sections and behind them: what is tested, what they take, and how they are stored.
#![tactic(auto)]

pub mod closing;
pub mod opening;
mod versions;
