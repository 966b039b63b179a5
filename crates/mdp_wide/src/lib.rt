//! Where a written term is past width: the part of a computation, the round, the policy, the state and the choice; and why a computation isn't
//! finished.
#![tactic(auto)]

mod too_wide;
mod unfinished;

pub use too_wide::{Kind, Part, SolveError, TooWide};
pub use unfinished::Unfinished;
