//! What the search proposes of each objective: bounds that are not yet held against the rules. Nothing is promised of them but how many there are,
//! once they are laid out for each state.
//!
//! To be read in this order:
//! - `ProposedReach` by `propose_reach` (reach.rt): the graph's part of it (`Decided` in decided.rt; the end components that are one node each in ends.rt), the rows
//!   (`Earning`, `Layout` in layout.rt), both bounds on these (`Sought`, `Columns` in columns.rt, where mdp_refinement solves them), the ranks (ranks.rt).
//! - `ProposedReward` by `propose_reward` (reward.rt), `ProposedDiscount` by `propose_discount` (discounted.rt): shortest path problems as reach is, nodes with rows
//!   that earn something and lead out of their component.
//! - `ProposedMean` by `propose_mean` (mean.rt), which makes a `Search` (mean_search.rt) with one scale after the other. For the least mean payoff the rewards are
//!   negated, so that the greatest is sought alone.
//! - What becomes of it: `fractions`, `numbers`, `listed` (proposed.rt), an item for each state; `simplest_values` and its kin (simplest.rt), the simplest fractions
//!   between a lower and an upper value, which are tried as exact values.
//!
//! Its tests: `tools/try_bounds` holds what comes of it against exact answers, the rows `bounds_*` of mdp_app give the texts, and `bench/near.py`
//! says how near they come.
//!
//! The states whose probability is 0 or 1, and the end components that are one node each: de Alfaro, Formal Verification of Probabilistic Systems
//! (1997); Baier and Katoen, Principles of Model Checking (2008), chapter 10. The equations of rewards: Bertsekas and Tsitsiklis, An Analysis of
//! Stochastic Shortest Path Problems (1991); that states between which one goes for nothing share a value: de Alfaro, Computing Minimum and Maximum
//! Reachability Times in Probabilistic Systems (1999). That a step later counts less as a step to an end: Puterman, Markov Decision Processes (1994),
//! chapter 6.
#![tactic(auto)]

mod columns;
mod decided;
mod discounted;
mod ends;
mod layout;
mod mean;
mod mean_search;
mod proposed;
mod ranks;
mod reach;
mod reward;
mod simplest;

pub use discounted::{ProposedDiscount, propose_discount};
pub use mean::{ProposedMean, propose_mean};
pub use proposed::{MOST_DIGITS, fractions, listed, numbers};
pub use reach::{ProposedReach, propose_reach};
pub use reward::{ProposedReward, propose_reward};
pub use simplest::{all_capped, simplest_near_values, simplest_rewards, simplest_values};
