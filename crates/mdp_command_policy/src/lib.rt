//! The commands of a given policy: `policy`, the probabilities with which it reaches a label, by way of any states or of those of another label
//! alone, and where another choice is better; and `chain`, the model in which each state keeps only the choice that the policy names.
#![tactic(auto)]

mod chain_laws;
mod chaining;
mod choices;
mod laws;
mod marking;
mod valuing;

pub use chain_laws::command_chain_law;
pub use chaining::chain_query;
pub use laws::policy_law;
pub use valuing::policy_query;
