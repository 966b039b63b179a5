//! The value of a given memoryless policy for reaching a goal, or for coming to one by way of some states alone, and where another choice would be
//! better; and the chain of a policy: the model in which each state keeps only the choice that the policy names.
//!
//! In the chain there is one policy, and each tree of it has the values that the policy's tree has in the given model: so what is computed of it,
//! for the greatest and for the least alike, is what the policy does.
#![tactic(auto)]

mod chain;
mod chain_laws;
mod compare;
mod error;
mod evaluate;
mod laws;
mod push;
mod read;
mod value;
mod way;
mod write;

pub use chain::chain_of;
pub use chain_laws::chain_law;
pub use error::ChainError;
pub use laws::{policy_text_law, value_law};
pub use read::read_policy;
pub use value::{Change, PolicyValue};
pub use way::value_of;
pub use write::write_value;
