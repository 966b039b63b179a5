//! The quotient of a model by its maximal end components: its nodes, their exits, and the rows of exits over nodes, in an arena that is lent; and two
//! shortest path problems over it: the greatest expected number of exits from each node, and the best gain that can be come to.
#![tactic(auto)]

mod build;
mod exit_counts;
mod exit_lists;
mod exit_rows;
mod exits_laws;
mod laws;
mod lifting;
mod node;
mod numbering;
mod outer_policy;
mod outer_problem;
mod quotient;
mod steps_problem;
mod sums;

pub use exit_counts::longest;
pub use exit_rows::ExitRows;
pub use exits_laws::exits_law;
pub use laws::{exit_rows_law, selection_law};
/// An exit: a choice that isn't inside an end component, by its state and its number.
pub use mdp_rows::Pred as Exit;
pub use outer_policy::{Outer, best_exits};
pub use quotient::Quotient;
