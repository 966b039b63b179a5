//! The text of certificates of the discounted reward, and of certificates of its bounds, a `mdp-bounds 1`: written, and read exactly, with the first
//! line that breaks a rule. The lines of the states are those of mdp_cert.
#![tactic(auto)]

mod bounds_head_lines;
mod bounds_laws;
mod bounds_read;
mod bounds_state_lines;
mod bounds_write;
mod claim_line;
mod entry;
mod head_lines;
mod laws;
mod lower;
mod push;
mod read;
mod write;

pub use bounds_head_lines::is_discount_claim;
pub use bounds_laws::discount_bounds_text_law;
pub use bounds_read::read_discount_bounds;
pub use bounds_write::write_discount_bounds;
pub use claim_line::{ClaimLine, claim_at};
pub use head_lines::remainder_at;
pub use laws::discount_text_law;
pub use mdp_text::CertError;
pub use push::{push_claim, push_remainder};
pub use read::read_discount;
pub use write::write_discount;
