ghost use Rattle.std.specs.Prelude.{◌≡◌, ◌<◌, ◌||◌, ◌&&◌, ℕ, List, true, false, not, None, Some, [], length, replicate, slice_index, slice_index_or};
ghost use Rattle.std.specs.Prelude.{IfOk, OnOk};
ghost use Rattle.std.specs.List.{All};
ghost use Rattle.mdp_spec.specs.Mdp.{states_of};
ghost use Rattle.mdp_rows.specs.Preds.{is_among};
ghost use Rattle.mdp_graph.specs.Waiting.{leading_to, AreWithin};
ghost use Rattle.mdp_graph.specs.Forest.{uses, attached, IsCut, AreFrom, AreKnown, IsPruned, IsForest, IsClosed, IsFound, IsGrown, IsTaken};
ghost use Rattle.mdp_graph.specs.Forest.{IsFoundWay, HasFound};
ghost use Rattle.mdp_graph.specs.Forest.{IsWayTo, HasWayTo, IsWayInto, HasWayInto, AreWide, all_preds, way_at};

use crate::waiting::Waiting;
use mdp_rows::{Marks, Model, Pred, Preds};
use std::alloc::{AllocError, Global};

/// The way of a state towards a goal: a choice, and one of its targets.
#[derive(Clone, Copy)]
pub(crate) struct Way {
    target: u32,
    choice: u32,
}

/// Whether the way takes this choice and, where a target is given, goes there.
fn uses(way: Option<Way>, choice: u32, only: Option<u32>) -> bool
    ensures { result ≡ uses way choice only }
{
    match way {
        None => false,
        Some(way) => match only {
            None => choice == way.choice,
            Some(target) => choice == way.choice && way.target == target,
        },
    }
}

/// Takes the ways away that use one of these choices and, where a target is given, go there. Appends their states to `list`.
fn cut(
    ways: &mut Vec<Option<Way>>,
    list: &mut Vec<u32>,
    preds: &[Pred],
    only: Option<u32>,
) -> Result<(), AllocError>
    requires { AreFrom (length ways.old.items) preds.now }
    ensures { OnOk result (IsCut ways.old.items list.old.items ways.new.items list.new.items preds.now only) }
{
    for pred in preds {
        if uses(ways[pred.state as usize], pred.choice, only) {
            ways[pred.state as usize] = None;
            list.push(pred.state)?;
        }
    }
    Ok(())
}

/// Takes the ways away that use a choice with an entry to one of the states that fell. Answers their states.
pub(crate) fn cut_choices(
    alloc: Global,
    ways: &mut Vec<Option<Way>>,
    preds: &Preds,
    fell: &[u32],
) -> Result<Vec<u32>, AllocError>
    requires from { AreFrom (length ways.old.items) (leading_to preds.now fell.now) }
    requires below { All (λ t. t < length preds.now) fell.now }
    ensures { IfOk result (λ list. IsCut ways.old.items [] ways.new.items list.items (leading_to preds.now fell.now) None) }
{
    let mut list = Vec::new(alloc);
    for t in fell {
        cut(ways, &mut list, preds.of(*t), None)?;
    }
    Ok(list)
}

/// Takes the ways away that lead over states without one, from these on. Answers all states whose way is gone.
pub(crate) fn cut_below(
    alloc: Global,
    ways: &mut Vec<Option<Way>>,
    preds: &Preds,
    first: Vec<u32>,
) -> Result<Vec<u32>, AllocError>
    requires count { length preds.now ≡ length ways.old.items }
    requires from { (t : ℕ) → t < length preds.now → AreFrom (length ways.old.items) (slice_index_or preds.now t []) }
    requires below { All (λ t. t < length preds.now) first.items }
    requires known { AreKnown preds.now ways.old.items }
    ensures { IfOk result (λ broken. IsPruned ways.old.items ways.new.items first.items broken.items) }
{
    let mut pending = first;
    let mut broken = Vec::new(alloc);
    while let Some(b) = pending.pop() {
        broken.push(b)?;
        cut(ways, &mut pending, preds.of(b), Some(b))?;
    }
    Ok(broken)
}

/// Whether state `s` is a goal or has a way to one.
pub(crate) fn is_attached(goals: &Marks, ways: &[Option<Way>], s: u32) -> bool
    requires goals { s < length goals.now }
    requires ways { s < length ways.now }
    ensures { result ≡ attached goals.now ways.now s }
{
    goals.at(s) || ways[s as usize].is_some()
}

/// The first of the targets that is a goal or has a way to one.
fn attached_target(goals: &Marks, ways: &[Option<Way>], targets: &[u32]) -> Option<u32>
    requires goals { All (λ t. t < length goals.now) targets.now }
    requires ways { length ways.now ≡ length goals.now }
    ensures some { (t : ℕ) → result ≡ Some t → (is_among t targets.now && attached goals.now ways.now t) ≡ true }
    ensures none { result ≡ None → (t : ℕ) → is_among t targets.now ≡ true → attached goals.now ways.now t ≡ false }
{
    for t in targets {
        if is_attached(goals, ways, *t) {
            return Some(*t);
        }
    }
    None
}

/// A way of state `s` by an allowed choice.
fn new_way(
    model: &Model,
    goals: &Marks,
    allowed: &Waiting,
    ways: &[Option<Way>],
    s: u32,
) -> Option<Way>
    requires state { s < states_of model.now }
    requires goals { length goals.now ≡ states_of model.now }
    requires ways { length ways.now ≡ states_of model.now }
    requires wide { AreWide model.now allowed.now }
    ensures { IsFound model.now goals.now allowed.now ways.now s result }
{
    for c in 0..model.choices(s) {
        if allowed.at(s, c) {
            if let Some(target) = attached_target(goals, ways, model.row(s, c).targets) {
                return Some(Way { target, choice: c });
            }
        }
    }
    None
}

/// For each of the states a way by an allowed choice over a state that has one already, if there is one.
pub(crate) fn found_ways(
    alloc: Global,
    model: &Model,
    goals: &Marks,
    allowed: &Waiting,
    ways: &[Option<Way>],
    states: &[u32],
) -> Result<Vec<Option<Way>>, AllocError>
    requires below { All (λ s. s < states_of model.now) states.now }
    requires goals { length goals.now ≡ states_of model.now }
    requires ways { length ways.now ≡ states_of model.now }
    requires wide { AreWide model.now allowed.now }
    ensures count { IfOk result (λ found. length found.items ≡ length states.now) }
    ensures each { IfOk result (λ found. (i : ℕ) → i < length states.now →
        IsFound model.now goals.now allowed.now ways.now (slice_index states.now i) (way_at found.items i)) }
{
    let mut found = Vec::new(alloc);
    for s in states {
        found.push(new_way(model, goals, allowed, ways, *s))?;
    }
    Ok(found)
}

/// Gives each of the states that has none the way that was found for it. Answers the states that took one.
pub(crate) fn take_found(
    alloc: Global,
    goals: &Marks,
    ways: &mut Vec<Option<Way>>,
    states: &[u32],
    found: &[Option<Way>],
) -> Result<Vec<u32>, AllocError>
    requires below { All (λ s. s < length ways.old.items) states.now }
    requires goals { length goals.now ≡ length ways.old.items }
    requires found { length found.now ≡ length states.now }
    ensures grown { IfOk result (λ layer. IsGrown goals.now ways.old.items ways.new.items (IsFoundWay states.now found.now)
        (HasFound states.now found.now)) }
    ensures taken { IfOk result (λ layer. IsTaken ways.old.items [] ways.new.items layer.items) }
{
    let mut layer = Vec::new(alloc);
    for i in 0..states.len() {
        let s = states[i];
        if let Some(way) = found[i] {
            if !is_attached(goals, ways, s) {
                ways[s as usize] = Some(way);
                layer.push(s)?;
            }
        }
    }
    Ok(layer)
}

/// Gives a way over state `t` to the states without one, by those of the choices that are allowed. Appends these states to `next`.
fn attach_to(
    goals: &Marks,
    allowed: &Waiting,
    ways: &mut Vec<Option<Way>>,
    next: &mut Vec<u32>,
    preds: &[Pred],
    t: u32,
) -> Result<(), AllocError>
    requires within { AreWithin allowed.now preds.now }
    requires ways { length ways.old.items ≡ length allowed.now }
    requires goals { length goals.now ≡ length allowed.now }
    ensures grown { OnOk result (IsGrown goals.now ways.old.items ways.new.items (IsWayTo allowed.now preds.now t) (HasWayTo allowed.now preds.now)) }
    ensures taken { OnOk result (IsTaken ways.old.items next.old.items ways.new.items next.new.items) }
{
    for pred in preds {
        if allowed.at(pred.state, pred.choice) && !is_attached(goals, ways, pred.state) {
            ways[pred.state as usize] = Some(Way {
                target: t,
                choice: pred.choice,
            });
            next.push(pred.state)?;
        }
    }
    Ok(())
}

/// Gives a way over a state of the layer to the states without one. Answers these states.
fn attach_layer(
    alloc: Global,
    goals: &Marks,
    allowed: &Waiting,
    ways: &mut Vec<Option<Way>>,
    preds: &Preds,
    layer: &[u32],
) -> Result<Vec<u32>, AllocError>
    requires within { (t : ℕ) → t < length preds.now → AreWithin allowed.now (slice_index_or preds.now t []) }
    requires below { All (λ t. t < length preds.now) layer.now }
    requires ways { length ways.old.items ≡ length allowed.now }
    requires goals { length goals.now ≡ length allowed.now }
    ensures grown { IfOk result (λ next. IsGrown goals.now ways.old.items ways.new.items (IsWayInto allowed.now preds.now layer.now)
        (HasWayInto allowed.now preds.now layer.now)) }
    ensures taken { IfOk result (λ next. IsTaken ways.old.items [] ways.new.items next.items) }
{
    let mut next = Vec::new(alloc);
    for t in layer {
        attach_to(goals, allowed, ways, &mut next, preds.of(*t), *t)?;
    }
    Ok(next)
}

/// Gives a way to all states that reach one of the first layer by allowed choices.
pub(crate) fn attach_all(
    alloc: Global,
    model: &Model,
    goals: &Marks,
    allowed: &Waiting,
    ways: &mut Vec<Option<Way>>,
    preds: &Preds,
    first: Vec<u32>,
) -> Result<(), AllocError>
    requires preds { preds.now ≡ all_preds model.now }
    requires below { All (λ t. t < states_of model.now) first.items }
    requires goals { length goals.now ≡ states_of model.now }
    requires wide { AreWide model.now allowed.now }
    requires forest { IsForest model.now goals.now allowed.now ways.old.items (λ _. false) }
    requires attached { (t : ℕ) → is_among t first.items ≡ true → attached goals.now ways.old.items t ≡ true }
    ensures forest { OnOk result (IsForest model.now goals.now allowed.now ways.new.items (λ _. false)) }
    ensures kept { OnOk result ((s : ℕ) → attached goals.now ways.old.items s ≡ true → attached goals.now ways.new.items s ≡ true) }
    ensures closed { OnOk result ((states : List ℕ) → IsClosed model.now goals.now allowed.now ways.old.items states
        (λ t. is_among t first.items) → IsClosed model.now goals.now allowed.now ways.new.items states (λ _. false)) }
{
    model.known();
    let mut layer = first;
    while !layer.is_empty() {
        layer = attach_layer(alloc, goals, allowed, ways, preds, &layer)?;
    }
    Ok(())
}

/// Those of the states that are no goals and have no way.
pub(crate) fn unattached(
    alloc: Global,
    goals: &Marks,
    ways: &[Option<Way>],
    states: &[u32],
) -> Result<Vec<u32>, AllocError>
    requires goals { All (λ s. s < length goals.now) states.now }
    requires ways { length ways.now ≡ length goals.now }
    ensures { IfOk result (λ list. (s : ℕ) → is_among s list.items ≡ (is_among s states.now && not (attached goals.now ways.now s))) }
{
    let mut list = Vec::new(alloc);
    for s in states {
        if !is_attached(goals, ways, *s) {
            list.push(*s)?;
        }
    }
    Ok(list)
}
