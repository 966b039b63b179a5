//! The best values within a number of steps, with a choice for each state and each step: the greatest and the least probability of coming to a goal
//! by way of given states, and the greatest and the least total reward; and lower and upper values of both, in units of a decimal place, with
//! the best choices or as a curve of one state for each number of steps.
#![tactic(auto)]

mod backup;
mod best;
mod bounded;
mod bounds;
mod bounds_induction;
mod bounds_laws;
mod bounds_push;
mod bounds_write;
mod choice;
mod claim;
mod column;
mod columns;
mod curve;
mod curve_push;
mod curve_write;
mod error;
mod finer;
mod induction;
mod laws;
mod leader;
mod objective;
mod point;
mod push;
mod scaling;
mod short_best;
mod short_sums;
mod short_terms;
mod state_choices;
mod steps;
mod sums;
mod terms;
mod whole;
mod write;

pub use bounded::Bounded;
pub use bounds::HorizonBounds;
pub use bounds_induction::{total_bounds, until_bounds};
pub use bounds_laws::{gap_law, room_law, rounding_law, unit_law};
pub use bounds_write::write_horizon_bounds;
pub use choice::{Arenas, RoundedStart, Scale, ScaledChoice, ShortTerm, Term, Terms};
pub use claim::Claim;
pub use column::Column;
pub use curve::{total_curve, until_curve};
pub use curve_write::write_curve;
pub use error::{HorizonError, HorizonPlace};
pub use induction::{total, until};
pub use laws::{between_law, total_law, until_law};
pub use leader::Leader;
pub use objective::Objective;
pub use point::Point;
pub use push::push_steps;
pub use scaling::scaled;
pub use short_terms::ShortTerms;
pub use write::{write_total, write_until};
