//! Certificates of witnessing subsystems: a flow shows that some policy of the subsystem reaches a goal with a probability of at least the
//! threshold, a floor that each policy does. The calls go through the rules in their order and answer yes, the first rule that is false, or
//! the first written term past width. Laws say what the rules imply, and which certificates meet them.
#![tactic(auto)]

mod floor;
mod flow;
mod laws;
mod lines;
mod sums;
mod walk;

pub use floor::holds_floor;
pub use flow::holds_flow;
pub use laws::{
    fewer_law, floor_law, flow_law, listed_law, made_law, never_no_law, refuted_law, says_law,
    short_law, stay_law,
};
pub use mdp_claims::{FloorCert, Flow, FlowCert};
