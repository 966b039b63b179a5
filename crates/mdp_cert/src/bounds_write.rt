ghost use Rattle.std.specs.Prelude.{◌≡◌, ◌++◌, OnOk, OnErr};
ghost use Rattle.mdp_text.specs.{Answer.{Keeps}, Spelling.{line}};
ghost use Rattle.mdp_cert.specs.{declared.init.BoundsInit.TheVariants.{Between}, BoundsCert.{plain_body}, BoundsPlain.{plain}};
ghost use Rattle.mdp_cert.specs.BoundsSpelling.{init_text, head_text, body_text, text_of};

use crate::bounds_body::BoundsBody;
use crate::bounds_cert::BoundsCert;
use crate::gains_lines::push_gains;
use crate::init::BoundsInit;
use crate::push::{push_claim, push_spread};
use crate::ranked_lines::push_ranked;
use crate::values::push_value;
use mdp_num::{Frac, Memory};
use mdp_text::Part::Bytes;
use mdp_text::{or_cut_back, push_number, push_parts, push_start};

/// Appends the line of a given initial state with its lower and its upper value.
fn push_between(
    out: &mut Vec<u8>,
    state: u32,
    lower: &Option<Frac>,
    upper: &Option<Frac>,
) -> Result<(), Memory>
    ensures text { OnOk result (out.new.items ≡ out.old.items ++ line (init_text (Between state lower.now upper.now))) }
    ensures front { Keeps out.old.items out.new.items }
{
    push_start(out, state)?;
    push_value(out, lower)?;
    push_value(out, upper)?;
    push_parts(out, &[Bytes(b"\n")])
}

/// Appends the line of the initial state.
fn push_init(out: &mut Vec<u8>, init: &BoundsInit) -> Result<(), Memory>
    ensures text { OnOk result (out.new.items ≡ out.old.items ++ line (init_text init.now)) }
    ensures front { Keeps out.old.items out.new.items }
{
    match init {
        BoundsInit::Missing => push_parts(out, &[Bytes(b"init -\n")]),
        BoundsInit::Between(state, lower, upper) => push_between(out, *state, lower, upper),
    }
}

/// Appends the lines of version, claim, states and init.
fn push_head(out: &mut Vec<u8>, cert: &BoundsCert) -> Result<(), Memory>
    ensures text { OnOk result (out.new.items ≡ out.old.items ++ head_text (plain cert.now)) }
    ensures front { Keeps out.old.items out.new.items }
{
    push_parts(out, &[Bytes(b"mdp-bounds 1\n")])?;
    push_claim(out, &cert.claim)?;
    push_number(out, u64::from(cert.states))?;
    push_init(out, &cert.init)
}

/// Appends the lines behind the head, by the claim, with the line `end`.
fn push_body(out: &mut Vec<u8>, cert: &BoundsCert) -> Result<(), Memory>
    ensures text { OnOk result (out.new.items ≡ out.old.items ++ body_text (plain_body cert.now.body)) }
    ensures front { Keeps out.old.items out.new.items }
{
    let states = cert.states;
    match &cert.body {
        BoundsBody::Reach(cert) => push_ranked(
            out,
            states,
            &cert.lower,
            &cert.upper,
            &cert.choices,
            &cert.ranks,
        ),
        BoundsBody::Reward(cert) => push_ranked(
            out,
            states,
            &cert.lower,
            &cert.upper,
            &cert.choices,
            &cert.ranks,
        ),
        BoundsBody::Mean(cert) => {
            push_spread(out, &cert.spread)?;
            push_gains(out, states, cert)
        }
    }
}

/// Appends all lines; after `Memory` the text begins as before.
#[tactic(auto, unfolding(crate::specs::BoundsSpelling::text_of))]
fn push_lines(out: &mut Vec<u8>, cert: &BoundsCert) -> Result<(), Memory>
    ensures text { OnOk result (out.new.items ≡ out.old.items ++ text_of (plain cert.now)) }
    ensures front { Keeps out.old.items out.new.items }
{
    push_head(out, cert)?;
    push_body(out, cert)
}

/// Appends the text of a certificate of bounds, with a line for each longest run of states with the same words. After `Memory` the text is as
/// before.
pub fn write_bounds(cert: &BoundsCert, out: &mut Vec<u8>) -> Result<(), Memory>
    ensures text { OnOk result (out.new.items ≡ out.old.items ++ text_of (plain cert.now)) }
    ensures unchanged { OnErr result (out.new.items ≡ out.old.items) }
{
    let start = out.len();
    let answer = push_lines(out, cert);
    or_cut_back(out, start, answer)
}
