//! The words of the command line, the statuses, and the texts of refusals.
#![tactic(auto)]

mod bounds_words;
mod curve_words;
mod digits;
mod drill_words;
mod errors;
mod files;
mod job;
mod model_words;
mod pair_words;
mod query_words;
mod refusal;
mod status;
mod word;
mod words_error;

pub use files::{Files, Paths, files_of, paths_of};
pub use job::{Job, PairTask, Query, Task, job_of};
pub use pair_words::rows_of;
pub use refusal::{MEMORY_TEXT, Refusal, push_refusal};
pub use status::Status;
pub use words_error::WordsError;
