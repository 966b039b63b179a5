//! Bounds that meet the rules of mdp_bounds, or of mdp_discount_rules, for every model: those that a search proposes, where the rules say yes to
//! them, else wider ones, at last those that say nothing: of rewards until a goal 0 and infinite, with the states where the reward is finite by the
//! graph alone; of mean payoffs the least and the greatest reward.
#![tactic(auto)]

mod discount;
mod extent;
mod few;
mod finite;
mod gap;
mod ladder;
mod mean;
mod mean_trivial;
mod missing;
mod reach;
mod reward;
mod reward_trivial;
mod simplest;
mod trivial;
mod trivial_values;

pub use discount::bounds_discount;
pub use mean::bounds_mean;
pub use mean_trivial::trivial_mean;
pub use missing::missing_discount;
pub use reach::bounds_reach;
pub use reward::bounds_reward;
pub use reward_trivial::trivial_reward;
pub use trivial::trivial_reach;
