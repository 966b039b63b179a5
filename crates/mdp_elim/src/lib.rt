//! State elimination: the solution of x = c + Q x over the active states of a chain, in written arithmetic.
#![tactic(auto)]

mod chain;
mod elimination;
mod entries;
mod equation;
mod errors;
mod keeping;
mod laws;
mod predecessors;
mod sums;
mod transposed;

pub use chain::{Chain, solve, solve_leaving};
pub use errors::ElimError;
pub use keeping::Kept;
pub use laws::{solution_law, visits_law};
pub use transposed::visits;
