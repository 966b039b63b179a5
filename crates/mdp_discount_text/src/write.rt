ghost use Rattle.std.specs.Prelude.{◌≡◌, ◌++◌, OnOk, OnErr};
ghost use Rattle.mdp_text.specs.Answer.{Keeps};
ghost use Rattle.mdp_discount_rules.specs.Plain.{plain};
ghost use Rattle.mdp_cert.specs.{declared.version.Version.TheVariants.{One}, Spelling.{closed_lines}, Pairs.{pairs}};
ghost use Rattle.mdp_discount_text.specs.{Spelling.{head_text, text_of}, Entries.{priced_columns}};

use crate::push::{push_claim, push_remainder};
use mdp_cert::{Lent, LentPair, Version, push_to_end};
use mdp_discount_rules::DiscountCert;
use mdp_num::Memory;
use mdp_text::Part::Bytes;
use mdp_text::{or_cut_back, push_init, push_number, push_parts};

/// Appends the lines before those of the states.
fn push_head(out: &mut Vec<u8>, cert: &DiscountCert) -> Result<(), Memory>
    ensures text { OnOk result (out.new.items ≡ out.old.items ++ head_text (plain cert.now)) }
    ensures front { Keeps out.old.items out.new.items }
{
    push_parts(out, &[Bytes(b"mdp-discount 1\n")])?;
    push_claim(out, cert.dir, &cert.name, &cert.factor)?;
    push_number(out, cert.values.len() as u64)?;
    push_init(out, &cert.init)?;
    push_remainder(out, &cert.remainder)
}

/// Appends the lines of the states, with the line `end`.
fn push_states(out: &mut Vec<u8>, cert: &DiscountCert) -> Result<(), Memory>
    ensures text { OnOk result (out.new.items ≡ out.old.items ++ closed_lines One priced_columns
        (pairs cert.now.values.items cert.now.choices.items)) }
    ensures front { Keeps out.old.items out.new.items }
{
    let lists = LentPair {
        first: &cert.values,
        others: Lent {
            entries: &cert.choices,
        },
    };
    push_to_end(out, Version::One, cert.values.len() as u32, &lists)
}

/// Appends all lines; after `Memory` the text begins as before.
#[tactic(auto, unfolding(crate::specs::Spelling::text_of))]
fn push_lines(out: &mut Vec<u8>, cert: &DiscountCert) -> Result<(), Memory>
    ensures text { OnOk result (out.new.items ≡ out.old.items ++ text_of (plain cert.now)) }
    ensures front { Keeps out.old.items out.new.items }
{
    push_head(out, cert)?;
    push_states(out, cert)
}

/// Appends the text of a certificate: its claim, the number of states, the initial state, the remainder and a line for each state. After `Memory`
/// the text is as before.
pub fn write_discount(cert: &DiscountCert, out: &mut Vec<u8>) -> Result<(), Memory>
    ensures text { OnOk result (out.new.items ≡ out.old.items ++ text_of (plain cert.now)) }
    ensures unchanged { OnErr result (out.new.items ≡ out.old.items) }
{
    let start = out.len();
    let answer = push_lines(out, cert);
    or_cut_back(out, start, answer)
}
