//! The text of certificates in two versions, and that of certificates of bounds, `mdp-bounds 1`: written, and read exactly, with the first line that
//! breaks a rule.
//!
//! The lines of states are the same for all claims: in version 1 a line for each state, in version 2 a line for each longest run of states with
//! the same words. They are read in `state_lines` and written in `write`, over any `Entry`: the words behind a state's number. An entry of several
//! words is a `Pair` of the first one's value and what the others say; so to add a claim with a line for each state, name its pairs of `Value`s
//! (specs/Entries), write its lists by `LentPair` and take them from the entries by `First`, `Others` and `Behind`, and give
//! a case in `push_body` and `body_from`; whether its values may be infinite is a case of `may_be_infinite`. A line more before those of the
//! states is read and written in these cases. A body that lists lines of its own up to the line `end`, as that of a subsystem, gives a `Line` and
//! the `Lines` that keep it instead (`Listed` in specs/Listed, `IsListed` in proofs/OneByOne); `listed` reads and writes them.
//! docs/certificates.md has the steps one by one.
//!
//! What the texts of discounted rewards share with these is public: the words of values, and the lines of states.
#![tactic(auto)]

mod body;
mod bounds_body;
mod bounds_cert;
mod bounds_head;
mod bounds_head_lines;
mod bounds_laws;
mod bounds_read;
mod bounds_write;
mod cert;
mod claim;
mod claim_line;
mod claim_words;
mod column;
mod entries;
mod floor_line;
mod floor_lines;
mod flow_line;
mod flow_lines;
mod gains_lines;
mod head;
mod head_lines;
mod init;
mod laws;
mod listed;
mod mark;
mod mean_lines;
mod pair;
mod pairs;
mod policy_lines;
mod push;
mod ranked_lines;
mod read;
mod state_lines;
mod upper_lines;
mod values;
mod version;
mod widths;
mod words;
mod write;

pub use body::Body;
pub use bounds_body::BoundsBody;
pub use bounds_cert::BoundsCert;
pub use bounds_laws::bounds_text_law;
pub use bounds_read::read_bounds;
pub use bounds_write::write_bounds;
pub use cert::Cert;
pub use claim::Claim;
pub use claim_line::claim_at;
pub use column::{Column, column_of};
pub use entries::{Entry, Lists};
pub use head_lines::may_be_infinite;
pub use init::BoundsInit;
pub use laws::{refusal_law, text_law};
pub use mdp_text::{CertError, CertKind, Init, Refusal};
pub use mean_lines::spread_at;
pub use pair::Pair;
pub use pairs::{Behind, First, Lent, LentPair, Others};
pub use push::{push_claim, push_spread};
pub use read::read_cert;
pub use state_lines::entries_to_end;
pub use values::{Value, push_value};
pub use version::Version;
pub use words::{four_words, three_words};
pub use write::{push_to_end, write_cert, write_old};
