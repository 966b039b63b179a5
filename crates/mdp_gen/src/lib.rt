//! Generated models for trials: layers of states with two drawn choices each, a goal and a failing state. The text is that which mdp_drn
//! writes of the model.
#![tactic(auto)]

mod draws;
mod laws;
mod push;
mod states;
mod writing;

pub use laws::layered_law;
pub use writing::layered;
