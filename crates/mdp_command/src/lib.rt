//! What every command stands on: what a run says, its words, its sources and its sink, and its files, read to their ends. And certificates of every
//! kind held against a model, from the bytes of two sources: what the commands `check`, `discount-check` and `bounds-check` do, and the program
//! mdp_checker. No search stands below this crate.
#![tactic(auto)]

mod checking;
mod files;
mod kind;
mod laws;
mod printing;
mod saying;
mod words;
mod writing;

pub use checking::{check_files, check_query};
pub use files::{read_model, read_second};
pub use kind::{CertificateKind, kind_of};
pub use laws::{check_law, discount_start_law};
pub use printing::certificate_text;
pub use saying::answer_text;
pub use words::{behind_name, exit_of, words_given};
pub use writing::write_answer;
