//! Passes over the graph of a model: which states reach a set, with least ranks.
#![tactic(auto)]

mod always;
mod avoid;
mod falling;
mod forest;
mod laws;
mod layers;
mod meet;
mod pass;
mod predecessors;
mod ranking;
mod reach;
mod rounds;
mod sure;
mod waiting;

pub use always::sure_all;
pub use avoid::{AvoidingAndMeeting, avoid_and_meet, may_avoid};
pub use falling::{SureRounds, sure_rounds};
pub use laws::{
    along_law, avoid_law, meet_law, reach_law, rounds_law, sure_all_law, sure_some_law,
};
pub use meet::must_meet;
pub use pass::{Pass, plain_ranks, some_before};
pub use predecessors::{Edges, Predecessors};
pub use ranking::{give_rank, next_layer, no_ranks, ranks_by};
pub use reach::{along, may_reach};
pub use rounds::rounds_outside;
pub use sure::sure_some;
