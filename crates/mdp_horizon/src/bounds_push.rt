ghost use Rattle.std.specs.Prelude.{◌≡◌, ◌++◌, ◌∷◌, codes, decimal, length, OnOk, OnErr};
ghost use Rattle.mdp_spec.specs.{Mdp.{states_of}, Labels.{initial_of}};
ghost use Rattle.mdp_text.specs.{Answer.{Keeps}, Parts.{part_text}, Spelling.{line, dir_text}};
ghost use Rattle.mdp_horizon.specs.BoundsSpelling.{version_text, claim_text, plain_claim, lower_text, upper_text, init_text, state_lines};

use crate::claim::Claim;
use mdp_num::{Frac, Memory};
use mdp_rows::{Dir, Model};
use mdp_text::Part::{Bytes, Fraction, Whole};
use mdp_text::{Part, push_parts};

/// The line of the version, and the words before what a claim is about.
fn front_of(dir: Dir) -> &'static [u8]
    ensures { result.now ≡ line version_text ++ (codes "claim " ++ (dir_text dir ++ codes " ")) }
{
    match dir {
        Dir::Max => b"mdp-horizon-bounds 1\nclaim max ",
        Dir::Min => b"mdp-horizon-bounds 1\nclaim min ",
    }
}

/// Appends the lines of the version and of the claim. After `Memory` the text is as before.
pub(crate) fn push_claim(
    out: &mut Vec<u8>,
    dir: Dir,
    claim: Claim<'_>,
    steps: u64,
) -> Result<(), Memory>
    ensures text { OnOk result (out.new.items ≡ out.old.items ++ (line version_text ++ line (claim_text dir (plain_claim claim.entry) steps))) }
    ensures front { Keeps out.old.items out.new.items }
    ensures unchanged { OnErr result (out.new.items ≡ out.old.items) }
{
    let front = Bytes(front_of(dir));
    let steps = Whole(steps);
    match claim {
        Claim::Until(stay, label) => push_parts(
            out,
            &[
                front,
                Bytes(b"until \""),
                Bytes(stay),
                Bytes(b"\" \""),
                Bytes(label),
                Bytes(b"\" "),
                steps,
                Bytes(b"\n"),
            ],
        ),
        Claim::Total(name) => push_parts(
            out,
            &[
                front,
                Bytes(b"total \""),
                Bytes(name),
                Bytes(b"\" "),
                steps,
                Bytes(b"\n"),
            ],
        ),
    }
}

/// A lower value, `-inf` where it is missing.
pub(crate) fn lower_part(value: &Option<Frac>) -> Part<'static>
    ensures { part_text result ≡ lower_text value.now }
{
    match value {
        Some(value) => Fraction(*value),
        None => Bytes(b"-inf"),
    }
}

/// An upper value, `inf` where it is missing.
pub(crate) fn upper_part(value: &Option<Frac>) -> Part<'static>
    ensures { part_text result ≡ upper_text value.now }
{
    match value {
        Some(value) => Fraction(*value),
        None => Bytes(b"inf"),
    }
}

/// Appends a front, a state, its values and the line's end.
fn push_values(
    out: &mut Vec<u8>,
    front: &[u8],
    state: u64,
    lower: &Option<Frac>,
    upper: &Option<Frac>,
) -> Result<(), Memory>
    ensures text { let values = lower_text lower.now ++ 32 ∷ upper_text upper.now in
        OnOk result (out.new.items ≡ out.old.items ++ line (front.now ++ (decimal state ++ 32 ∷ values))) }
    ensures front { Keeps out.old.items out.new.items }
{
    push_parts(
        out,
        &[
            Bytes(front),
            Whole(state),
            Bytes(b" "),
            lower_part(lower),
            Bytes(b" "),
            upper_part(upper),
            Bytes(b"\n"),
        ],
    )
}

/// Appends the line of the initial state.
pub(crate) fn push_init(
    out: &mut Vec<u8>,
    model: &Model,
    lower: &[Option<Frac>],
    upper: &[Option<Frac>],
) -> Result<(), Memory>
    requires lower { length lower.now ≡ states_of model.now }
    requires upper { length upper.now ≡ states_of model.now }
    ensures text { OnOk result (out.new.items ≡ out.old.items ++ line (init_text (initial_of model.now) lower.now upper.now)) }
    ensures front { Keeps out.old.items out.new.items }
{
    match model.initial() {
        Some(state) => {
            let low = lower[state as usize];
            let high = upper[state as usize];
            push_values(out, b"init ", u64::from(state), &low, &high)
        }
        None => push_parts(out, &[Bytes(b"init -\n")]),
    }
}

/// Appends a line for each state.
pub(crate) fn push_states(
    out: &mut Vec<u8>,
    lower: &[Option<Frac>],
    upper: &[Option<Frac>],
) -> Result<(), Memory>
    requires { length upper.now ≡ length lower.now }
    ensures text { OnOk result (out.new.items ≡ out.old.items ++ state_lines 0 lower.now upper.now) }
    ensures front { Keeps out.old.items out.new.items }
{
    for s in 0..lower.len() {
        push_values(out, b"state ", s as u64, &lower[s], &upper[s])?;
    }
    Ok(())
}
