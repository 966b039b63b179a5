//! The rules of certificates: each call goes through the rules in their order and answers yes, the first rule that is false, or the
//! first written term past width.
#![tactic(auto)]

mod bellman;
mod compare;
mod finite;
mod infinite;
mod initial;
mod laws;
mod mean;
mod ranks;
mod reach;
mod reward;
mod spread;
mod targets;
mod transient;
mod upper;
mod verdict;
mod walk;

pub use bellman::value_stands;
pub use compare::{at_least, at_most, equal};
pub use finite::{finite_at, finite_sum, is_infinite_at, stays_finite_at};
pub use infinite::infinite_state;
pub use initial::{init_denied, is_value, state_verdict};
pub use laws::{first_law, never_no_law, refuted_law, says_law};
pub use mdp_claims::{
    Fault, MeanCert, Objection, ReachCert, RewardCert, Rule, UpperCert, Verdict, numbers_law,
};
pub use mdp_rows::Dir;
pub use mean::holds_mean;
pub use ranks::rank_at_state;
pub use reach::{choice_at, holds_reach, reversed};
pub use reward::holds_reward;
pub use spread::spread_of;
pub use targets::{StateTest, all_pass, each_target, some_passes, some_target};
pub use transient::{is_held_against, rank_falls_at_state, stays_at_state};
pub use upper::holds_upper;
pub use verdict::{judged, judged_at, verdict_after};
pub use walk::{Checks, OneCheck, each_below, each_choice};
