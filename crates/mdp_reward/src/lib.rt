//! The greatest and the least expected reward until a goal, with a policy and a certificate.
#![tactic(auto)]

mod laws;
mod problem;
mod ranks;
mod rewards;
mod solve;
mod start;

pub use laws::query_law;
pub use ranks::ranks_of;
pub use solve::solve_reward;
pub use start::{Start, start_of};
