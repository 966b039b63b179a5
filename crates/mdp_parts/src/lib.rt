//! Strong components and maximal end components of a model.
#![tactic(auto)]

mod allowed;
mod depth;
mod edges;
mod ends;
mod inward;
mod laws;
mod losing;
mod numbering;
mod region;
mod search;
mod strong;

pub use allowed::Allowed;
pub use ends::Ends;
pub use inward::{toward, toward_targets};
pub use laws::ends_law;
pub use search::end_components;
pub use strong::components;
