ghost use Rattle.std.specs.Prelude.{◌≡◌, ◌<◌, ◌++◌, ◌∷◌, ℕ, [], length, map, slice_index, slice_index_or, take, false, cond, replicate, IfOk, OnOk};
ghost use Rattle.std.specs.List.{All, range_with_len};
ghost use Rattle.mdp_spec.specs.Mdp.{states_of};
ghost use Rattle.mdp_rows.specs.Preds.{is_among, choices_of, leading, preds_to};

use crate::model::Model;
use mdp_num::Memory;
use std::alloc::{AllocError, Global};

/// A choice of a state: both are numbered from 0.
#[derive(Clone, Copy)]
pub struct Pred {
    pub state: u32,
    pub choice: u32,
}

/// Choices, in the order in which they were added.
#[derive(Drop)]
struct PredList {
    items: Vec<Pred>,
}

impl std::marker::Model for PredList {
    ghost use Rattle.std.specs.Prelude.{List};
    ghost use Rattle.mdp_rows.specs.{declared.preds.Pred.{Pred}, PredCode.{pred_list_code}};

    ghost Value = { List Pred };

    ghost coded = { pred_list_code };

    ghost view = { λ p. p.items.items };
}

impl PredList {
    fn new(alloc: Global) -> PredList
        ensures { result ≡ [] }
    {
        PredList {
            items: Vec::new(alloc),
        }
    }

    fn push(&mut self, pred: Pred) -> Result<(), AllocError>
        ensures { OnOk result (self.new ≡ self.old ++ pred ∷ []) }
    {
        self.items.push(pred)?;
        Ok(())
    }

    fn as_slice(&self) -> &[Pred]
        ensures { result.now ≡ self.now }
    {
        self.items.as_slice()
    }
}

/// For each state the choices that have an entry to it.
#[derive(Drop)]
pub struct Preds {
    lists: Vec<PredList>,
}

impl std::marker::Model for Preds {
    ghost use Rattle.std.specs.Prelude.{List};
    ghost use Rattle.mdp_rows.specs.declared.preds.Pred.{Pred};

    ghost Value = { List (List Pred) };

    ghost view = { λ p. p.lists.items };
}

impl Preds {
    /// The choices with an entry to state `t`, ascending by state and then by choice.
    pub fn of(&self, t: u32) -> &[Pred]
        requires { t < length self.now }
        ensures { result.now ≡ slice_index_or self.now t [] }
    {
        self.lists[t as usize].as_slice()
    }
}

/// Appends `pred` to the list of each target. No target comes twice.
fn push_row(lists: &mut Vec<PredList>, targets: &[u32], pred: Pred) -> Result<(), AllocError>
    requires in_range { All (λ t. t < length lists.old.items) targets.now }
    requires different { (i : ℕ) → i < length targets.now → is_among (slice_index targets.now i) (take i targets.now) ≡ false }
    ensures length { OnOk result (length lists.new.items ≡ length lists.old.items) }
    ensures appended { OnOk result ((t : ℕ) → t < length lists.old.items →
        slice_index_or lists.new.items t [] ≡ slice_index_or lists.old.items t [] ++ cond (is_among t targets.now) (pred ∷ []) []) }
{
    for t in targets {
        lists[*t as usize].push(pred)?;
    }
    Ok(())
}

/// Appends the choices of state `s`, each to the lists of its targets.
fn push_state(lists: &mut Vec<PredList>, model: &Model, s: u32) -> Result<(), AllocError>
    requires state { s < states_of model.now }
    requires lists { length lists.old.items ≡ states_of model.now }
    ensures length { OnOk result (length lists.new.items ≡ length lists.old.items) }
    ensures appended { OnOk result ((t : ℕ) → t < length lists.old.items →
        slice_index_or lists.new.items t [] ≡ slice_index_or lists.old.items t [] ++ leading model.now t (choices_of model.now s)) }
{
    for c in 0..model.choices(s) {
        let pred = Pred {
            state: s,
            choice: c,
        };
        push_row(lists, model.row(s, c).targets, pred)?;
    }
    Ok(())
}

/// So many empty lists.
fn empty_lists(alloc: Global, count: u32) -> Result<Vec<PredList>, AllocError>
    ensures { IfOk result (λ lists. lists.items ≡ replicate count []) }
{
    let mut lists = Vec::with_capacity(alloc, count as usize)?;
    for _ in 0..count {
        lists.push(PredList::new(alloc))?;
    }
    Ok(lists)
}

/// For each state of the model the choices that have an entry to it.
pub fn preds_of(alloc: Global, model: &Model) -> Result<Preds, Memory>
    ensures { IfOk result (λ preds. preds ≡ map (preds_to model.now) (range_with_len 0 (states_of model.now))) }
{
    let mut lists = empty_lists(alloc, model.states())?;
    for s in 0..model.states() {
        push_state(&mut lists, model, s)?;
    }
    Ok(Preds { lists })
}
