ghost use Rattle.std.specs.{Prelude.{◌≡◌, ◌<◌, ◌==◌, map, length, slice_index, IfOk, OnOk}, List.{All, list_all, range_with_len}};
ghost use Rattle.mdp_spec.specs.Mdp.{states_of, choices_at};
ghost use Rattle.mdp_ends.specs.Rounds.{keeps_part};
ghost use Rattle.mdp_parts.specs.{Allowed.{AreChoices}, FoundEnds.{AreEndsOf}, Round.{AreLastParts, some_allowed, key_of, IsRound, IsForbidden}};

use crate::allowed::Allowed;
use crate::ends::Ends;
use crate::losing::forbid_closed;
use crate::numbering::numbered;
use crate::strong::components;
use mdp_num::Memory;
use mdp_rows::{Model, preds_of};
use std::alloc::{AllocError, Global};

/// Whether all targets are in the part.
fn all_in(targets: &[u32], parts: &[u32], part: u32) -> bool
    requires { All (λ t. t < length parts.now) targets.now }
    ensures { result ≡ list_all (λ t. slice_index parts.now t == part) targets.now }
{
    targets.iter().all(|t| parts[*t as usize] == part)
}

/// Whether choice `c` of state `s` doesn't leave the part of the state.
fn stays(model: &Model, parts: &[u32], s: u32, c: u32) -> bool
    requires state { s < states_of model.now }
    requires choice { c < length (choices_at model.now s) }
    requires parts { length parts.now ≡ states_of model.now }
    ensures { result ≡ keeps_part model.now parts.now s c }
{
    all_in(model.row(s, c).targets, parts, parts[s as usize])
}

/// Forbids the allowed choices of state `s` that leave its part. Whether there were any.
fn forbid_at(allowed: &mut Allowed, model: &Model, parts: &[u32], s: u32) -> bool
    requires state { s < states_of model.now }
    requires parts { length parts.now ≡ states_of model.now }
    requires allowed { AreChoices model.now allowed.old }
    ensures { IsForbidden model.now parts.now s allowed.old allowed.new result }
{
    let mut any = false;
    for c in 0..model.choices(s) {
        if allowed.at(s, c) && !stays(model, parts, s, c) {
            allowed.set(s, c, false);
            any = true;
        }
    }
    any
}

/// Forbids the allowed choices that leave the part of their state. Whether there were any; `changed` are then the states that lost one.
fn forbid_leaving(
    allowed: &mut Allowed,
    model: &Model,
    parts: &[u32],
    changed: &mut Vec<u32>,
) -> Result<bool, AllocError>
    requires parts { length parts.now ≡ states_of model.now }
    requires allowed { AreChoices model.now allowed.old }
    ensures round { IfOk result (λ any. IsRound model.now parts.now allowed.old allowed.new any) }
    ensures changed { OnOk result (All (λ s. s < states_of model.now) changed.new.items) }
{
    changed.clear();
    let mut any = false;
    for s in 0..model.states() {
        if forbid_at(allowed, model, parts, s) {
            changed.push(s)?;
            any = true;
        }
    }
    Ok(any)
}

/// Whether some choice of state `s` is allowed.
fn has_allowed(model: &Model, allowed: &Allowed, s: u32) -> bool
    requires state { s < states_of model.now }
    requires allowed { AreChoices model.now allowed.now }
    ensures { result ≡ some_allowed model.now allowed.now s }
{
    (0..model.choices(s)).any(|c| allowed.at(s, c))
}

/// The part of state `s` where it has an allowed choice.
fn left_part(model: &Model, allowed: &Allowed, parts: &[u32], s: u32) -> Option<u32>
    requires state { s < states_of model.now }
    requires parts { length parts.now ≡ states_of model.now }
    requires allowed { AreChoices model.now allowed.now }
    ensures { result ≡ key_of model.now allowed.now parts.now s }
{
    if has_allowed(model, allowed, s) {
        Some(parts[s as usize])
    } else {
        None
    }
}

/// The part of each state that has an allowed choice.
fn left_parts(
    alloc: Global,
    model: &Model,
    allowed: &Allowed,
    parts: &[u32],
) -> Result<Vec<Option<u32>>, AllocError>
    requires parts { length parts.now ≡ states_of model.now }
    requires allowed { AreChoices model.now allowed.now }
    ensures { IfOk result (λ keys. keys.items ≡ map (key_of model.now allowed.now parts.now) (range_with_len 0 (states_of model.now))) }
{
    let mut keys = Vec::with_capacity(alloc, model.states() as usize)?;
    for s in 0..model.states() {
        keys.push(left_part(model, allowed, parts, s))?;
    }
    Ok(keys)
}

/// The end components, by their parts and the choices that are allowed.
fn ends_of(
    alloc: Global,
    model: &Model,
    allowed: Allowed,
    parts: &[u32],
) -> Result<Ends, AllocError>
    requires { AreLastParts model.now allowed parts.now }
    ensures { IfOk result (λ ends. AreEndsOf model.now ends) }
{
    model.known();
    let keys = left_parts(alloc, model, &allowed, parts)?;
    let numbering = numbered(alloc, &keys, model.states())?;
    Ok(Ends::from_parts(numbering.numbers, allowed, numbering.count))
}

/// All maximal end components of a model, numbered by their least states.
///
/// Each round takes the strong components of the allowed choices and forbids each choice that leaves its own, until none does (de Alfaro 1997; Baier
/// and Katoen 2008, section 10.6.3). Between rounds it forbids the choices that lead into what fell off, a state without an allowed choice or a small
/// set that no allowed choice leaves (`forbid_closed`). A round takes time in proportion to the entries. There are as many rounds as there are states
/// in the worst case: where each parts a component into pieces too large to be found between rounds.
pub fn end_components(alloc: Global, model: &Model) -> Result<Ends, Memory>
    ensures { IfOk result (λ ends. AreEndsOf model.now ends) }
{
    model.known();
    let preds = preds_of(alloc, model)?;
    let mut allowed = Allowed::all(alloc, model)?;
    let mut parts = components(alloc, model, &allowed)?;
    let mut changed = Vec::new(alloc);
    while forbid_leaving(&mut allowed, model, &parts, &mut changed)? {
        forbid_closed(alloc, model, &preds, &mut allowed, &changed)?;
        parts = components(alloc, model, &allowed)?;
    }
    Ok(ends_of(alloc, model, allowed, &parts)?)
}
