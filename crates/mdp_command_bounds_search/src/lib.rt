//! The command `bounds`, on a model that was read: certified lower and upper bounds of the best values of a query, with a policy, for every model;
//! and subsystems that are shown to come to a threshold by lower values.
#![tactic(auto)]

mod bounding;
mod certificate;
mod discount_certificate;
mod discounting;
mod laws;
mod searching;
mod witness_certificate;
mod witness_marks;
mod witness_search;

pub use discounting::bounds_discount_query;
pub use laws::{bounds_discount_search_law, bounds_search_law, bounds_witness_law};
pub use searching::bounds_query;
pub use witness_search::bounds_witness_query;
