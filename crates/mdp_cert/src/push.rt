ghost use Rattle.std.specs.Prelude.{◌≡◌, ◌<◌, ◌≤◌, ◌-◌, ◌++◌, ◌∷◌, [], OnOk};
ghost use Rattle.mdp_num.specs.Value.{spelling};
ghost use Rattle.mdp_cert.specs.{Cert.{plain_claim}, Runs.{run}, Spelling.{claim_text, states_front, run_text, spread_text}};
ghost use Rattle.mdp_text.specs.{Spelling.{line}, Answer.{Keeps}};

use crate::claim::Claim;
use crate::claim_line::{
    mean_front, reach_front, reward_front, until_front, witness_front, witness_until_front,
};
use crate::entries::Entry;
use mdp_num::{Frac, Memory};
use mdp_text::Part::{Bytes, Fraction, Whole};
use mdp_text::push_parts;

/// Appends what stands before the words of the line of the states from the first to the last.
fn push_states(out: &mut Vec<u8>, first: u32, last: u32) -> Result<(), Memory>
    requires { first ≤ last }
    ensures text { OnOk result (out.new.items ≡ out.old.items ++ states_front first (last - first)) }
    ensures front { Keeps out.old.items out.new.items }
{
    if first == last {
        return push_parts(
            out,
            &[Bytes(b"state "), Whole(u64::from(first)), Bytes(b" ")],
        );
    }
    push_parts(
        out,
        &[
            Bytes(b"run "),
            Whole(u64::from(first)),
            Bytes(b" "),
            Whole(u64::from(last)),
            Bytes(b" "),
        ],
    )
}

/// Appends the line of the states from the first to the last.
#[tactic(auto, unfolding(crate::specs::Spelling::run_text))]
pub(crate) fn push_run<E: Entry>(
    out: &mut Vec<u8>,
    first: u32,
    last: u32,
    entry: &E,
) -> Result<(), Memory>
    requires { first ≤ last }
    ensures text { OnOk result (out.new.items ≡ out.old.items ++ line (run_text E.columns first (run entry.now (last - first)))) }
    ensures front { Keeps out.old.items out.new.items }
{
    push_states(out, first, last)?;
    entry.push_words(out)?;
    push_parts(out, &[Bytes(b"\n")])
}

/// Appends a line of this front and a name in quotes; the front ends with the first quote.
fn push_quoted<'a>(out: &mut Vec<u8>, front: &'a [u8], name: &'a [u8]) -> Result<(), Memory>
    ensures text { OnOk result (out.new.items ≡ out.old.items ++ line (front.now ++ (name.now ++ 34 ∷ []))) }
    ensures front { Keeps out.old.items out.new.items }
{
    push_parts(out, &[Bytes(front), Bytes(name), Bytes(b"\"\n")])
}

/// Appends a line of this front and two names in quotes; the front ends with the first quote.
fn push_two_quoted<'a>(
    out: &mut Vec<u8>,
    front: &'a [u8],
    name: &'a [u8],
    label: &'a [u8],
) -> Result<(), Memory>
    ensures text { OnOk result (out.new.items ≡ out.old.items ++ line (front.now ++ (name.now ++ 34 ∷ 32 ∷ 34 ∷ (label.now ++ 34 ∷ [])))) }
    ensures front { Keeps out.old.items out.new.items }
{
    push_parts(
        out,
        &[
            Bytes(front),
            Bytes(name),
            Bytes(b"\" \""),
            Bytes(label),
            Bytes(b"\"\n"),
        ],
    )
}

/// Appends a line of this front, a name in quotes and a fraction; the front ends with the first quote.
fn push_threshold<'a>(
    out: &mut Vec<u8>,
    front: &'a [u8],
    name: &'a [u8],
    threshold: &Frac,
) -> Result<(), Memory>
    ensures text { OnOk result (out.new.items ≡ out.old.items ++ line (front.now ++ (name.now ++ 34 ∷ 32 ∷ spelling threshold.now))) }
    ensures front { Keeps out.old.items out.new.items }
{
    push_parts(
        out,
        &[
            Bytes(front),
            Bytes(name),
            Bytes(b"\" "),
            Fraction(*threshold),
            Bytes(b"\n"),
        ],
    )
}

/// Appends a line of this front, two names in quotes and a fraction; the front ends with the first quote.
fn push_two_and_threshold<'a>(
    out: &mut Vec<u8>,
    front: &'a [u8],
    stay: &'a [u8],
    label: &'a [u8],
    threshold: &Frac,
) -> Result<(), Memory>
    ensures text { OnOk result (out.new.items ≡ out.old.items ++ line (front.now
        ++ (stay.now ++ 34 ∷ 32 ∷ 34 ∷ (label.now ++ 34 ∷ 32 ∷ spelling threshold.now)))) }
    ensures front { Keeps out.old.items out.new.items }
{
    push_parts(
        out,
        &[
            Bytes(front),
            Bytes(stay),
            Bytes(b"\" \""),
            Bytes(label),
            Bytes(b"\" "),
            Fraction(*threshold),
            Bytes(b"\n"),
        ],
    )
}

/// Appends the line of the claim.
pub fn push_claim(out: &mut Vec<u8>, claim: &Claim) -> Result<(), Memory>
    ensures text { OnOk result (out.new.items ≡ out.old.items ++ line (claim_text (plain_claim claim.now))) }
    ensures front { Keeps out.old.items out.new.items }
{
    match claim {
        Claim::Upper { label } => push_quoted(out, b"claim upper reach \"", label),
        Claim::Reach { dir, label } => push_quoted(out, reach_front(*dir), label),
        Claim::Until { dir, stay, label } => push_two_quoted(out, until_front(*dir), stay, label),
        Claim::Reward { dir, name, label } => {
            push_two_quoted(out, reward_front(*dir), name, label)
        }
        Claim::Mean { dir, name } => push_quoted(out, mean_front(*dir), name),
        Claim::Witness {
            dir,
            stay: None,
            label,
            threshold,
        } => push_threshold(out, witness_front(*dir), label, threshold),
        Claim::Witness {
            dir,
            stay: Some(stay),
            label,
            threshold,
        } => push_two_and_threshold(out, witness_until_front(*dir), stay, label, threshold),
    }
}

/// Appends the line of the spread.
pub fn push_spread(out: &mut Vec<u8>, spread: &Frac) -> Result<(), Memory>
    ensures text { OnOk result (out.new.items ≡ out.old.items ++ line (spread_text spread.now)) }
    ensures front { Keeps out.old.items out.new.items }
{
    push_parts(out, &[Bytes(b"spread "), Fraction(*spread), Bytes(b"\n")])
}
