//! The rules of certified bounds: a lower and an upper value for each state, a policy, and what shows that they hold. Comparisons are exact and
//! never too wide, and a row whose truth needs no arithmetic makes no written term. Laws say what a no means, and what bounds
//! that are true say of exact values.
#![tactic(auto)]

mod column;
mod compare;
mod finite;
mod laws;
mod mean;
mod reach;
mod reward;
mod spread;
mod sum;

pub use compare::value_stands;
pub use finite::finite_row_sum;
pub use laws::{between_law, exact_law, never_no_law, order_law, refuted_law, says_law};
pub use mdp_claims::{MeanBoundsCert, ReachBoundsCert, RewardBoundsCert};
pub use mdp_rows::Dir;
pub use mean::{holds_bounds_mean, mean_bounds_at_state};
pub use reach::{holds_bounds_reach, reach_bounds_at_state};
pub use reward::{holds_bounds_reward, reward_bounds_at_state};
pub use sum::plain_sum;
