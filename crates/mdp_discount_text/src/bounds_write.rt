ghost use Rattle.std.specs.Prelude.{◌≡◌, ◌++◌, ◌∷◌, Some, OnOk, OnErr};
ghost use Rattle.mdp_text.specs.{Answer.{Keeps}, Spelling.{line}};
ghost use Rattle.mdp_cert.specs.{declared.version.Version.TheVariants.{Two}, Spelling.{closed_lines}};
ghost use Rattle.mdp_discount_rules.specs.BoundsPlain.{plain};
ghost use Rattle.mdp_discount_text.specs.{Entries.{lower_text, between_columns, entries_of}, BoundsSpelling.{init_text, head_text, text_of}};

use crate::bounds_state_lines::LentBounds;
use crate::lower::lower_part;
use crate::push::{push_claim, push_remainder};
use mdp_cert::{Version, push_to_end, push_value};
use mdp_discount_rules::{DiscountBoundsCert, InitialBounds};
use mdp_num::Memory;
use mdp_text::Part::Bytes;
use mdp_text::{or_cut_back, push_number, push_parts, push_start};

/// Appends the line of a given initial state with its lower and its upper value.
fn push_between(out: &mut Vec<u8>, init: &InitialBounds) -> Result<(), Memory>
    ensures text { OnOk result (out.new.items ≡ out.old.items ++ line (init_text (Some init.now))) }
    ensures front { Keeps out.old.items out.new.items }
{
    push_start(out, init.state)?;
    push_parts(out, &[Bytes(b" "), lower_part(&init.lower)])?;
    push_value(out, &init.upper)?;
    push_parts(out, &[Bytes(b"\n")])
}

/// Appends the line of the initial state.
fn push_init(out: &mut Vec<u8>, init: &Option<InitialBounds>) -> Result<(), Memory>
    ensures text { OnOk result (out.new.items ≡ out.old.items ++ line (init_text init.now)) }
    ensures front { Keeps out.old.items out.new.items }
{
    match init {
        Some(init) => push_between(out, init),
        None => push_parts(out, &[Bytes(b"init -\n")]),
    }
}

/// Appends the lines before those of the states.
fn push_head(out: &mut Vec<u8>, cert: &DiscountBoundsCert) -> Result<(), Memory>
    ensures text { OnOk result (out.new.items ≡ out.old.items ++ head_text (plain cert.now)) }
    ensures front { Keeps out.old.items out.new.items }
{
    push_parts(out, &[Bytes(b"mdp-bounds 1\n")])?;
    push_claim(out, cert.dir, &cert.name, &cert.factor)?;
    push_number(out, cert.bounds.lower.len() as u64)?;
    push_init(out, &cert.init)?;
    push_remainder(out, &cert.bounds.remainder)
}

/// Appends the lines of the states, with the line `end`.
fn push_states(out: &mut Vec<u8>, cert: &DiscountBoundsCert) -> Result<(), Memory>
    ensures text { let b = cert.now.bounds in OnOk result (out.new.items ≡ out.old.items
        ++ closed_lines Two between_columns (entries_of b.lower.items b.upper.items b.choices.items)) }
    ensures front { Keeps out.old.items out.new.items }
{
    let bounds = &cert.bounds;
    let states = cert.bounds.lower.len() as u32;
    push_to_end(out, Version::Two, states, &LentBounds { bounds })
}

/// Appends all lines; after `Memory` the text begins as before.
#[tactic(auto, unfolding(crate::specs::BoundsSpelling::text_of))]
fn push_lines(out: &mut Vec<u8>, cert: &DiscountBoundsCert) -> Result<(), Memory>
    ensures text { OnOk result (out.new.items ≡ out.old.items ++ text_of (plain cert.now)) }
    ensures front { Keeps out.old.items out.new.items }
{
    push_head(out, cert)?;
    push_states(out, cert)
}

/// Appends the text of a certificate of bounds of the discounted reward, with a line for each longest run of states with the same words. After
/// `Memory` the text is as before.
pub fn write_discount_bounds(cert: &DiscountBoundsCert, out: &mut Vec<u8>) -> Result<(), Memory>
    ensures text { OnOk result (out.new.items ≡ out.old.items ++ text_of (plain cert.now)) }
    ensures unchanged { OnErr result (out.new.items ≡ out.old.items) }
{
    let start = out.len();
    let answer = push_lines(out, cert);
    or_cut_back(out, start, answer)
}
