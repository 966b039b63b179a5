//! The commands that search and certify what they find: `solve`, the best values of a model, with a policy and a certificate; `discount`, the same
//! of discounted rewards; `witness`, a subsystem on which the best probability of reaching a label is still at least a threshold; and `drill`: a
//! generated model, read and solved, and a line of its numbers. Each but `drill` is asked of a model that was read.
//!
//! A query of `solve` is a case of `solve_query`: what it asks for is looked up in the model, its solver answers, and the answer's certificate is
//! written by `certificate_text`. To add one, give its certificate in `certificate`, its steps in a module beside `reaching`, and its cases in
//! specs/Due. Reaching a label by way of some states alone is asked of what is left of the model for that way (`ways`), by `solve` and `witness`.
#![tactic(auto)]

mod averaging;
mod certificate;
mod discount_laws;
mod discounting;
mod drill_laws;
mod drill_line;
mod drilling;
mod laws;
mod reaching;
mod rewarding;
mod solving;
mod ways;
mod witness_certificate;
mod witness_laws;
mod witness_search;

pub use certificate::{certificate_of, mean_certificate_of, reward_certificate_of};
pub use discount_laws::discount_step_law;
pub use discounting::discount_query;
pub use drill_laws::drill_law;
pub use drilling::drill;
pub use laws::solve_law;
pub use solving::solve_query;
pub use witness_laws::witness_step_law;
pub use witness_search::witness_query;
