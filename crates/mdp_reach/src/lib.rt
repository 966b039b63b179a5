//! The greatest and the least probability of reaching a goal, with a policy and a certificate.
#![tactic(auto)]

mod laws;
mod problem;
mod ranks;
mod solve;
mod start;

pub use laws::query_law;
pub use solve::{ReachEnd, solve_reach, solve_reach_to_end};
