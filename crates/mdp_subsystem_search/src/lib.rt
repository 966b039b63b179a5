//! The search for a witnessing subsystem by bounds, which any model has: kept states on which the greatest, or the least, probability of reaching a
//! goal from the start is still at least a threshold, by lower values that meet the rules of certified bounds. States leave in the order of what the
//! goals lose by them, by halves; each attempt is judged by the rules before it counts. What the search guesses, in floats and in whole numbers, has
//! no clause.
#![tactic(auto)]

mod attempt;
mod bounds;
mod exact;
mod floats;
mod found;
mod nearest;
mod order;
mod query;
mod removal;
mod room;
mod search;
mod standing;
mod subsystem;
mod trials;
mod trivial;
mod visits;
mod walk;
mod whole;

pub use search::search_subsystem;
pub use subsystem::{Subsystem, Unshown};
