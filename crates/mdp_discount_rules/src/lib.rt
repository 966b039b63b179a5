//! The rules of discounted rewards, and of bounds of them: a certificate is held against the model. No search stands below this crate.
//!
//! To be read in this order:
//! - Best values: `DiscountCert` (cert.rt), `holds_discount` (holds.rt), by what choices earn (earning.rt) and the greatest magnitude of values
//!   (remainder.rt), and `check_discount` (checking.rt), which gives a `DiscountAnswer` (answer.rt).
//! - Bounds, a lower and an upper value for each state, where they are there: `DiscountBounds` (bounds.rt), `DiscountBoundsCert` (bounds_cert.rt),
//!   `holds_bounds_discount` (bounds_holds.rt), by one column at a state (`DiscountHalf` in half.rt), and `check_discount_bounds`
//!   (bounds_checking.rt).
//! - What a yes and a no mean, over the definitions alone: laws.rt, bounds_laws.rt.
//!
//! Its tests: small models that meet each rule and miss it, in proofs/Examples and proofs/BoundsExamples; the rows `discount_*`, `bounds_*` and
//! `forged_*` of mdp_app.
#![tactic(auto)]

mod answer;
mod bounds;
mod bounds_cert;
mod bounds_checking;
mod bounds_holds;
mod bounds_init;
mod bounds_laws;
mod bounds_remainder;
mod cert;
mod checking;
mod earning;
mod half;
mod holds;
mod laws;
mod remainder;

pub use answer::DiscountAnswer;
pub use bounds::DiscountBounds;
pub use bounds_cert::DiscountBoundsCert;
pub use bounds_checking::check_discount_bounds;
pub use bounds_holds::{discount_bounds_at_state, holds_bounds_discount};
pub use bounds_init::InitialBounds;
pub use bounds_laws::{discount_bounds_law, discount_bounds_no_law};
pub use bounds_remainder::greatest_bounds_magnitude;
pub use cert::DiscountCert;
pub use checking::check_discount;
pub use earning::earned;
pub use holds::holds_discount;
pub use laws::{discount_no_law, discount_rules_law};
pub use mdp_farkas::Verdict;
pub use mdp_text::Init;
pub use remainder::greatest_magnitude;
