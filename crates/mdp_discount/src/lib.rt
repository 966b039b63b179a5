//! The greatest and the least discounted reward: solved, with a certificate.
#![tactic(auto)]

mod laws;
mod problem;
mod scaled;
mod solve;

pub use laws::discount_law;
pub use solve::solve_discount;
