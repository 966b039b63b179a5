//! The model: rows in flat vectors, lent as slices; one truth value per state.
#![tactic(auto)]

mod assembly;
mod builder;
mod choices;
mod closing;
mod dir;
mod error;
mod given;
mod labels;
mod laws;
mod limits;
mod marks;
mod model;
mod open_row;
mod policy_rows;
mod preds;
mod rewards;
mod row;
mod rows;
mod rows_of;
mod rule;
mod state_labels;
mod subsystem;
mod terms;
mod values_of;

pub use builder::Builder;
pub use dir::Dir;
pub use error::RowsError;
pub use laws::replay_law;
pub use limits::{MAX_CHOICES, MAX_STATES};
pub use marks::Marks;
pub use model::Model;
pub use policy_rows::PolicyRows;
pub use preds::{Pred, Preds, preds_of};
pub use row::Row;
pub use rows_of::RowsOf;
pub use rule::RowRule;
pub use subsystem::{give_choice, give_labels, names_of, zeros_of};
pub use values_of::ValuesOf;
