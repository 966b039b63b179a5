//! Policy iteration, once: a stochastic shortest path problem, the path of its policies by written arithmetic, and the best policy at its end.
#![tactic(auto)]

mod affected;
mod best_policy;
mod comparison;
mod dependents;
mod errors;
mod evaluation;
mod laws;
mod leader;
mod loops;
mod outer;
mod placing;
mod policy_chain;
mod round;
mod scope;
mod shortest_path;
mod solution;

pub use best_policy::improve;
pub use errors::{NodePlace, RoundError};
pub use laws::{evaluation_law, path_law, step_law};
pub use leader::{Leader, judged};
pub use outer::outer_sum;
pub use placing::{at_choice, at_node};
pub use shortest_path::ShortestPath;
pub use solution::{PathError, Solution, WideAt, in_part, path_error};
