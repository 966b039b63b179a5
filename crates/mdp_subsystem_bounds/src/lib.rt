//! Bounds of witnessing subsystems: certificates by which the best probability of reaching a goal on kept states alone is at least a threshold, shown
//! by lower values in place of exact ones. Their rules, their checker, and their text, a kind of `mdp-bounds 1`. No search stands below this crate.
#![tactic(auto)]

mod cert;
mod checking;
mod head_lines;
mod holds;
mod laws;
mod lists;
mod mark;
mod read;
mod state_lines;
mod write;

pub use cert::SubsystemBoundsCert;
pub use checking::check_subsystem_bounds;
pub use head_lines::is_subsystem_claim;
pub use holds::holds_subsystem_bounds;
pub use laws::{subsystem_bounds_law, subsystem_bounds_text_law};
pub use lists::SubsystemBounds;
pub use mark::Mark;
pub use read::read_subsystem_bounds;
pub use write::write_subsystem_bounds;
