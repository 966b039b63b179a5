//! What the commands `horizon` and `total` make of a model: the best probabilities of reaching a label within a number of steps, or the best total
//! rewards, with a choice for each state and each step; and `bounds` and `curve` of these. Each call gives the text or its refusal.
#![tactic(auto)]

mod answering;
mod bounding;
mod curving;
mod earning;
mod laws;
mod tables;

pub use answering::horizon_query;
pub use bounding::{total_bounds_query, until_bounds_query};
pub use curving::{total_curve_query, until_curve_query};
pub use earning::total_query;
pub use laws::{horizon_bounds_law, horizon_curve_law, horizon_law, total_text_law};
