//! Where bytes come from and where they go, with counts of faults.
#![tactic(auto)]

mod fault_plan;
mod list_sink;
mod list_source;
mod reading;
mod retrying;
mod sink;
mod source;
mod std_sink;
mod std_source;
mod sure_sink;
mod sure_source;
mod writing;

pub use list_sink::ListSink;
pub use list_source::ListSource;
pub use reading::{InError, MOST_PIECE, read_all};
pub use sink::Sink;
pub use source::{Failed, Source};
pub use std_sink::StdSink;
pub use std_source::StdSource;
pub use sure_sink::SureSink;
pub use sure_source::SureSource;
pub use writing::{WriteFault, write_all};
