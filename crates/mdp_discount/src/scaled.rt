ghost use Rattle.std.specs.{Prelude.{◌≡◌, ◌<◌, ◌++◌, ◌∷◌, [], length, IfOk, OnOk, IfSome}, List.{All, filter}, Option.{option_map}};
ghost use Rattle.mdp_spec.specs.{Mdp.{states_of}, Row.{entries}};
ghost use Rattle.mdp_discount_rules.specs.Rules.{IsFactor};
ghost use Rattle.mdp_discount.specs.{Problem.{has_value}, ScaledView.{row_in, rows_in, entries_in, products, scaled_row, scaled_rows, AreScaled}};

use bumpalo::Bump;
use mdp_num::Frac;
use mdp_rows::{Model, Row};
use std::alloc::{AllocError, Global};

/// The discounted rows of a state's choices, in an arena; none for a choice where a term is past width.
#[derive(Clone, Copy)]
pub(crate) struct StateRows<'b> {
    pub(crate) rows: &'b [Option<Row<'b>>],
}

/// Targets and probabilities of a row.
#[derive(Drop)]
struct Entries {
    targets: Vec<u32>,
    probs: Vec<Frac>,
}

impl Entries {
    /// Appends an entry, where its value isn't 0.
    fn push(&mut self, target: u32, prob: Frac) -> Result<(), AllocError>
        requires { length self.old.targets.items ≡ length self.old.probs.items }
        ensures entries { OnOk result (entries_in self.new ≡ entries_in self.old ++ filter has_value (record { target = target; prob = prob } ∷ [])) }
        ensures same_length { OnOk result (length self.new.targets.items ≡ length self.new.probs.items) }
    {
        if prob != Frac::whole(0) {
            self.targets.push(target)?;
            self.probs.push(prob)?;
        }
        Ok(())
    }
}

/// The entries of a row with their probabilities taken `factor` times, without those of value 0; none where a term is past width.
fn products(alloc: Global, factor: &Frac, row: Row<'_>) -> Result<Option<Entries>, AllocError>
    ensures entries { IfOk result (λ made. option_map entries_in made ≡ products factor.now (entries row.entry.targets.now row.entry.probs.now)) }
    ensures same_length { IfOk result (λ made. IfSome made (λ made. length made.targets.items ≡ length made.probs.items)) }
{
    let mut made = Entries {
        targets: Vec::with_capacity(alloc, row.targets.len())?,
        probs: Vec::with_capacity(alloc, row.targets.len())?,
    };
    for i in 0..row.targets.len() {
        let Ok(prob) = factor.mul(&row.probs[i]) else {
            return Ok(None);
        };
        let target = row.targets[i];
        made.push(target, prob)?;
    }
    Ok(Some(made))
}

/// A row taken `factor` times, and what is left of 1 to node `end`, in the arena; none where a term is past width.
fn scaled_row<'b>(
    alloc: Global,
    arena: &'b Bump,
    factor: &Frac,
    end: u32,
    row: Row<'_>,
) -> Result<Option<Row<'b>>, AllocError>
    requires factor { IsFactor factor.now }
    requires targets { All (λ t. t < end) row.targets.now }
    ensures { IfOk result (λ made. option_map row_in made ≡ scaled_row end factor.now (entries row.entry.targets.now row.entry.probs.now)) }
{
    let Some(mut made) = products(alloc, factor, row)? else {
        return Ok(None);
    };
    let Ok(left) = Frac::whole(1).sub(factor) else {
        return Ok(None);
    };
    made.targets.push(end)?;
    made.probs.push(left)?;
    let targets = arena.try_alloc_slice_copy(&made.targets)?;
    let probs = arena.try_alloc_slice_copy(&made.probs)?;
    Ok(Some(Row { targets, probs }))
}

/// The discounted rows of state `s`, in the arena.
fn state_rows<'b>(
    alloc: Global,
    arena: &'b Bump,
    model: &Model,
    factor: &Frac,
    s: u32,
) -> Result<StateRows<'b>, AllocError>
    requires factor { IsFactor factor.now }
    requires state { s < states_of model.now }
    ensures { IfOk result (λ x. rows_in x ≡ scaled_rows model.now factor.now s) }
{
    let end = model.states();
    let choices = model.choices(s);
    let mut rows = Vec::with_capacity(alloc, choices as usize)?;
    for c in 0..choices {
        rows.push(scaled_row(alloc, arena, factor, end, model.row(s, c))?)?;
    }
    let rows = arena.try_alloc_slice_copy(&rows)?;
    Ok(StateRows { rows })
}

/// The discounted rows of all states, in the arena.
pub(crate) fn scaled_states<'b>(
    alloc: Global,
    arena: &'b Bump,
    model: &Model,
    factor: &Frac,
) -> Result<Vec<StateRows<'b>>, AllocError>
    requires { IsFactor factor.now }
    ensures { IfOk result (λ states. AreScaled model.now factor.now states.items) }
{
    let mut states = Vec::with_capacity(alloc, model.states() as usize)?;
    for s in 0..model.states() {
        states.push(state_rows(alloc, arena, model, factor, s)?)?;
    }
    Ok(states)
}
