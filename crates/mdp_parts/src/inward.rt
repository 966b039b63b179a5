ghost use Rattle.std.specs.{Prelude.{◌≡◌, ◌<◌, ◌↔◌, ◌&&◌, ℕ, true, length, map, IfOk}, List.{range_with_len}};
ghost use Rattle.mdp_spec.specs.Mdp.{states_of, choices_at};
ghost use Rattle.mdp_graph.specs.{Sets.{marked}, Layers.{AreRanks}, Choices.{first_below, first_passing}};
ghost use Rattle.mdp_ends.specs.{Ends.{in_part, count_of}, Toward.{target_in, inner_step, IsToward}};
ghost use Rattle.mdp_parts.specs.{FoundEnds.{AreEndsOf}, Inner.{may_fall_inside}, TowardTargets.{IsTowardTargets, HasTarget}};

use crate::edges::{edges_of, reversed};
use crate::ends::Ends;
use mdp_graph::{Pass, ranks_by, some_before};
use mdp_num::Memory;
use mdp_rows::{Marks, Model};
use std::alloc::{AllocError, Global};

/// Whether state `s` is a target in end component `i`.
fn is_target(ends: &Ends, i: u32, target: &Marks, s: u32) -> bool
    requires ends { s < length ends.now.parts }
    requires target { s < length target.now }
    ensures { result ≡ target_in ends.now.parts i target.now s }
{
    match ends.of(s) {
        Some(j) => j == i && target.at(s),
        None => false,
    }
}

/// The targets in end component `i`.
fn targets_in(
    alloc: Global,
    ends: &Ends,
    i: u32,
    target: &Marks,
    states: u32,
) -> Result<Marks, AllocError>
    requires ends { length ends.now.parts ≡ states }
    requires target { length target.now ≡ states }
    ensures { IfOk result (λ marks. marks ≡ map (target_in ends.now.parts i target.now) (range_with_len 0 states)) }
{
    let mut values = Vec::with_capacity(alloc, states as usize)?;
    for s in 0..states {
        values.push(is_target(ends, i, target, s))?;
    }
    Ok(Marks::from_values(values))
}

/// Whether choice `c` of state `s` is inside and has a successor of a rank below that of `s`.
fn can_fall(model: &Model, ends: &Ends, ranks: &[Option<u32>], s: u32, c: u32) -> bool
    requires state { s < states_of model.now }
    requires choice { c < length (choices_at model.now s) }
    requires ends { AreEndsOf model.now ends.now }
    requires ranks { length ranks.now ≡ states_of model.now }
    ensures { result ≡ may_fall_inside model.now ends.now.parts ranks.now s c }
{
    let rank = ranks[s as usize].unwrap_or(0);
    ends.inside(s, c) && some_before(model.row(s, c).targets, ranks, rank)
}

/// The least such choice of state `s`; 0 if there is none.
fn least_choice(model: &Model, ends: &Ends, ranks: &[Option<u32>], s: u32) -> u32
    requires state { s < states_of model.now }
    requires ends { AreEndsOf model.now ends.now }
    requires ranks { length ranks.now ≡ states_of model.now }
    ensures { result ≡ first_below (may_fall_inside model.now ends.now.parts ranks.now s) (length (choices_at model.now s)) }
{
    for c in 0..model.choices(s) {
        if can_fall(model, ends, ranks, s, c) {
            return c;
        }
    }
    0
}

/// The least such choice of each state; 0 where there is none.
fn least_choices(
    alloc: Global,
    model: &Model,
    ends: &Ends,
    ranks: &[Option<u32>],
) -> Result<Vec<u32>, AllocError>
    requires ends { AreEndsOf model.now ends.now }
    requires ranks { length ranks.now ≡ states_of model.now }
    ensures { IfOk result (λ choices. choices.items ≡ first_passing model.now (may_fall_inside model.now ends.now.parts ranks.now)) }
{
    let mut choices = Vec::with_capacity(alloc, model.states() as usize)?;
    for s in 0..model.states() {
        choices.push(least_choice(model, ends, ranks, s))?;
    }
    Ok(choices)
}

/// The least ranks by which states reach a target by inner choices; none where they don't.
fn inner_ranks(
    alloc: Global,
    model: &Model,
    ends: &Ends,
    target: &Marks,
) -> Result<Vec<Option<u32>>, AllocError>
    requires ends { AreEndsOf model.now ends.now }
    requires target { length target.now ≡ states_of model.now }
    ensures { IfOk result (λ ranks. AreRanks (inner_step model.now ends.now.parts) (marked target.now) (states_of model.now) ranks.items) }
{
    model.known();
    let edges = edges_of(alloc, model, ends.choices())?;
    let back = reversed(alloc, &edges, model.states())?;
    ranks_by(alloc, &back, target, model.states())
}

/// A pass toward the targets by inner choices, over all end components at once. It marks exactly the targets and the states of the end components
/// that hold one. Targets have rank 0. The choice of any other marked state is the least inner one that has a successor of smaller rank. The time
/// grows with the entries.
pub fn toward_targets(
    alloc: Global,
    model: &Model,
    ends: &Ends,
    target: &Marks,
) -> Result<Pass, Memory>
    requires ends { AreEndsOf model.now ends.now }
    requires target { length target.now ≡ states_of model.now }
    ensures toward { IfOk result (λ pass. IsTowardTargets model.now ends.now.parts target.now pass.marks pass.ranks.items pass.choices.items) }
    ensures marks { IfOk result (λ pass. (s : ℕ) → s < states_of model.now →
        (marked pass.marks s ≡ true) ↔ HasTarget model.now ends.now.parts target.now s) }
{
    model.known();
    let ranks = inner_ranks(alloc, model, ends, target)?;
    let choices = least_choices(alloc, model, ends, &ranks)?;
    Ok(Pass::by_ranks(alloc, &ranks, choices)?)
}

/// A pass over end component `i` toward the targets in it, by inner choices. It marks exactly the states of the component. Targets of the
/// component have rank 0. The choice of any other state of it is the least inner one that has a successor of smaller rank.
pub fn toward(
    alloc: Global,
    model: &Model,
    ends: &Ends,
    i: u32,
    target: &Marks,
) -> Result<Pass, Memory>
    requires ends { AreEndsOf model.now ends.now }
    requires part { i < count_of ends.now.parts }
    requires target { length target.now ≡ states_of model.now }
    requires some { (s : ℕ) × (s < states_of model.now) × (in_part ends.now.parts i s ≡ true) × (marked target.now s ≡ true) }
    ensures toward { IfOk result (λ pass. IsToward model.now ends.now.parts i target.now pass.marks pass.ranks.items pass.choices.items) }
    ensures marks { IfOk result (λ pass. (s : ℕ) → s < states_of model.now → marked pass.marks s ≡ in_part ends.now.parts i s) }
{
    model.known();
    let first = targets_in(alloc, ends, i, target, model.states())?;
    toward_targets(alloc, model, ends, &first)
}
