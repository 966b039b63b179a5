//! Models in Storm's explicit text format DRN, in the profile that docs/profile.md states: read, read in pieces, and written.
#![tactic(auto)]

mod body;
mod brackets;
mod choice_text;
mod digits;
mod document;
mod error;
mod feed;
mod from_source;
mod header;
mod header_text;
mod kept_values;
mod labels;
mod laws;
mod laws_of_writing;
mod line;
mod line_error;
mod model_line;
mod names;
mod push;
mod reading;
mod state_text;
mod values;
mod writing;

pub use error::{DrnError, DrnKind};
pub use feed::Feed;
pub use from_source::{FromError, read_from};
pub use laws::{model_law, reading_law};
pub use laws_of_writing::written_law;
pub use reading::read;
pub use writing::write;
