//! The search for a witnessing subsystem: a set of states on which the best probability of reaching a goal from the start is still at least a
//! threshold, with a certificate that shows it, and from which no single state more can go. It begins with a first set and tries to leave out one
//! state after the other. For the greatest probability a set is evaluated by the expected visits of a policy, for the least one by a query of its
//! subsystem.
#![tactic(auto)]

mod first;
mod greatest;
mod laws;
mod least;
mod listing;
mod max_trials;
mod min_trials;
mod solve;
mod subsystem;
mod trial;
mod trial_laws;
mod visited;

pub use first::Query;
pub use laws::witness_law;
pub use max_trials::MaxLeft;
pub use min_trials::{MinLeft, Subsystems};
pub use solve::witness;
pub use subsystem::{Subsystem, WitnessError};
pub use trial::Trial;
pub use trial_laws::{evaluation_law, first_law, kept_law, left_law, needed_law};
pub use visited::{Policy, Visited};
