//! What the texts of certificates, policies and answers are made of: lines and their words, numbers and names, the lines of the number of states and
//! of the initial state. They are read exactly, with the first line that breaks a rule, and written.
#![tactic(auto)]

mod error;
mod heads;
mod init;
mod initial;
mod lines;
mod names;
mod numbers;
mod part;
mod parts;
mod push;
mod widths;
mod words;

pub use error::{CertError, CertKind, Refusal};
pub use heads::{init_of, init_parse, start_at, states_at, states_from, valued_at};
pub use init::Init;
pub use initial::{init_with, init_with_rewards};
pub use lines::{is_line, next_line, nothing_behind, or_refused, refuse_if};
pub use names::{before_quote, cut_name, is_name, name_and_rest};
pub use numbers::{frac_at, reward_of, whole_at, whole_of};
pub use part::Part;
pub use parts::push_parts;
pub use push::{
    or_cut_back, push_end, push_fraction, push_fraction_end, push_init, push_number, push_start,
    push_values, push_whole, push_word,
};
pub use widths::{all_narrow, all_short};
pub use words::{begins_with, cut_word, only_word, word_count, words_behind};
