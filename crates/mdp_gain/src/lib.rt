//! The best gain of one end component, with a bias and a policy that has one closed class, by policy iteration: in the whole model, or in a model of
//! the component alone, where each round takes time in proportion to the component's states and entries.
#![tactic(auto)]

mod access;
mod alone;
mod best_policy;
mod chosen;
mod classes;
mod comparison;
mod component;
mod evaluation;
mod inner;
mod laws;
mod members;
mod next_policy;
mod only;
mod only_path;
mod only_round;
mod only_state;
mod referred;
mod round;
mod solve;
mod solve_parts;
mod start;
mod values;

pub use inner::Inner;
pub use laws::{gain_law, improvement_law};
pub use members::{Members, members_of};
pub use solve::{solve_inner, solve_inner_of};
pub use solve_parts::solve_alone;
