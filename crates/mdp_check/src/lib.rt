//! The checker: a certificate, or one of bounds, is held against a model, and its yes implies the certificate's claim.
#![tactic(auto)]

mod answer;
mod bounds;
mod bounds_initial;
mod checking;
mod initial;
mod laws;
mod until;

pub use answer::{Answer, answer_of};
pub use bounds::check_bounds;
pub use checking::{check, goals_on_way};
pub use laws::{bounds_checking_law, bounds_start_law, checking_law, start_law};
pub use until::way_by;
