//! What certificates hold, and what can be said of one: the bodies of claims, the rules by name, faults and verdicts. Types alone, so that the texts
//! of certificates and the crates of the rules need not wait for one another.
#![tactic(auto)]

mod bounds;
mod exact;
mod laws;
mod rule;
mod subsystem;
mod verdict;

pub use bounds::{MeanBoundsCert, ReachBoundsCert, RewardBoundsCert};
pub use exact::{MeanCert, ReachCert, RewardCert, UpperCert};
pub use laws::numbers_law;
pub use rule::Rule;
pub use subsystem::{FloorCert, Flow, FlowCert};
pub use verdict::{Fault, Objection, Verdict};
