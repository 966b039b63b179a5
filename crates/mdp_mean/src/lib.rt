//! The greatest and the least mean payoff of a whole model, with a policy and a certificate.
#![tactic(auto)]

mod bias;
mod bound;
mod certificate;
mod errors;
mod excess;
mod inners;
mod join;
mod joining;
mod laws;
mod parts;
mod solve;

pub use laws::mean_law;
pub use solve::solve_mean;
