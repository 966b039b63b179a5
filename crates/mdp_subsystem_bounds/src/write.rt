ghost use Rattle.std.specs.Prelude.{◌≡◌, ◌++◌, ◌∷◌, OnOk, OnErr};
ghost use Rattle.mdp_num.specs.Value.{spelling};
ghost use Rattle.mdp_text.specs.{Answer.{Keeps}, Spelling.{line}};
ghost use Rattle.mdp_cert.specs.{Spelling.{claim_text}, Reading.{witness_front, witness_until_front}};
ghost use Rattle.mdp_subsystem_bounds.specs.{Cert.{plain_claim}, Plain.{plain}, Spelling.{start_text, head_text, lists_text, text_of}};

use crate::cert::SubsystemBoundsCert;
use crate::state_lines::push_lists;
use mdp_num::{Frac, Memory};
use mdp_rows::Dir;
use mdp_text::Part::{Bytes, Fraction};
use mdp_text::{or_cut_back, push_number, push_parts, push_start};

/// What stands before the label in the claim, where it names no way.
fn witness_front(dir: Dir) -> &'static [u8]
    ensures { result.now ≡ witness_front dir }
{
    match dir {
        Dir::Max => b"claim max witness \"",
        Dir::Min => b"claim min witness \"",
    }
}

/// What stands before the names in the claim, where it names a way.
fn witness_until_front(dir: Dir) -> &'static [u8]
    ensures { result.now ≡ witness_until_front dir }
{
    match dir {
        Dir::Max => b"claim max witness until \"",
        Dir::Min => b"claim min witness until \"",
    }
}

/// Appends a line of this front, a name in quotes and a fraction; the front ends with the first quote.
fn push_label<'a>(
    out: &mut Vec<u8>,
    front: &'a [u8],
    label: &'a [u8],
    threshold: &Frac,
) -> Result<(), Memory>
    ensures text { OnOk result (out.new.items ≡ out.old.items ++ line (front.now ++ (label.now ++ 34 ∷ 32 ∷ spelling threshold.now))) }
    ensures front { Keeps out.old.items out.new.items }
{
    push_parts(
        out,
        &[
            Bytes(front),
            Bytes(label),
            Bytes(b"\" "),
            Fraction(*threshold),
            Bytes(b"\n"),
        ],
    )
}

/// The same with two names in quotes.
fn push_labels<'a>(
    out: &mut Vec<u8>,
    front: &'a [u8],
    stay: &'a [u8],
    label: &'a [u8],
    threshold: &Frac,
) -> Result<(), Memory>
    ensures text { OnOk result (out.new.items ≡ out.old.items ++ line (front.now
        ++ (stay.now ++ 34 ∷ 32 ∷ 34 ∷ (label.now ++ 34 ∷ 32 ∷ spelling threshold.now)))) }
    ensures front { Keeps out.old.items out.new.items }
{
    push_parts(
        out,
        &[
            Bytes(front),
            Bytes(stay),
            Bytes(b"\" \""),
            Bytes(label),
            Bytes(b"\" "),
            Fraction(*threshold),
            Bytes(b"\n"),
        ],
    )
}

/// Appends the line of the claim.
fn push_claim(out: &mut Vec<u8>, cert: &SubsystemBoundsCert) -> Result<(), Memory>
    ensures text { OnOk result (out.new.items ≡ out.old.items ++ line (claim_text (plain_claim (plain cert.now).claim))) }
    ensures front { Keeps out.old.items out.new.items }
{
    match &cert.stay {
        Some(stay) => push_labels(
            out,
            witness_until_front(cert.dir),
            stay,
            &cert.label,
            &cert.threshold,
        ),
        None => push_label(out, witness_front(cert.dir), &cert.label, &cert.threshold),
    }
}

/// Appends the line of the initial state.
fn push_init(out: &mut Vec<u8>, start: u32) -> Result<(), Memory>
    ensures text { OnOk result (out.new.items ≡ out.old.items ++ line (start_text start)) }
    ensures front { Keeps out.old.items out.new.items }
{
    push_start(out, start)?;
    push_parts(out, &[Bytes(b"\n")])
}

/// Appends the lines before those of the states.
fn push_head(out: &mut Vec<u8>, cert: &SubsystemBoundsCert) -> Result<(), Memory>
    ensures text { OnOk result (out.new.items ≡ out.old.items ++ head_text (plain cert.now)) }
    ensures front { Keeps out.old.items out.new.items }
{
    push_parts(out, &[Bytes(b"mdp-bounds 1\n")])?;
    push_claim(out, cert)?;
    push_number(out, cert.lists.bounds.lower.len() as u64)?;
    push_init(out, cert.start)
}

/// Appends the lines of the states, with the line `end`.
fn push_states(out: &mut Vec<u8>, cert: &SubsystemBoundsCert) -> Result<(), Memory>
    ensures text { OnOk result (out.new.items ≡ out.old.items ++ lists_text cert.now.dir (plain cert.now).lists) }
    ensures front { Keeps out.old.items out.new.items }
{
    let states = cert.lists.bounds.lower.len() as u32;
    push_lists(out, cert.dir, states, &cert.lists)
}

/// Appends all lines; after `Memory` the text begins as before.
#[tactic(auto, unfolding(crate::specs::Spelling::text_of))]
fn push_lines(out: &mut Vec<u8>, cert: &SubsystemBoundsCert) -> Result<(), Memory>
    ensures text { OnOk result (out.new.items ≡ out.old.items ++ text_of (plain cert.now)) }
    ensures front { Keeps out.old.items out.new.items }
{
    push_head(out, cert)?;
    push_states(out, cert)
}

/// Appends the text of a certificate of bounds of a subsystem, with a line for each longest run of states with the same words. After `Memory` the
/// text is as before.
pub fn write_subsystem_bounds(cert: &SubsystemBoundsCert, out: &mut Vec<u8>) -> Result<(), Memory>
    ensures text { OnOk result (out.new.items ≡ out.old.items ++ text_of (plain cert.now)) }
    ensures unchanged { OnErr result (out.new.items ≡ out.old.items) }
{
    let start = out.len();
    let answer = push_lines(out, cert);
    or_cut_back(out, start, answer)
}
