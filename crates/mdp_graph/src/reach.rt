ghost use Rattle.std.specs.Prelude.{◌≡◌, length, true, replicate, IfOk};
ghost use Rattle.mdp_spec.specs.Mdp.{states_of};
ghost use Rattle.mdp_graph.specs.{Sets.{marked}, Layers.{AreRanks, AreReached, AreLeastRanks}, Choices.{AreLeast}, Reach.{may_step, row_step, falls}};
ghost use Rattle.mdp_graph.specs.Ranking.{AreRanksAlong};

use crate::pass::Pass;
use crate::predecessors::Predecessors;
use crate::ranking::ranks_by;
use mdp_num::Memory;
use mdp_rows::{Marks, Model, RowsOf};
use std::alloc::{AllocError, Global};

/// One `true` for each of so many.
pub(crate) fn all_true(alloc: Global, count: u32) -> Result<Marks, AllocError>
    ensures { IfOk result (λ marks. marks ≡ replicate count true) }
{
    Ok(Marks::from_values(vec![in alloc; true; count as usize]?))
}

/// The least ranks by which states reach a target by choices that stay inside, without taking a choice of a blocked state.
pub(crate) fn ranks_along(
    alloc: Global,
    model: &Model,
    inside: &Marks,
    blocked: &Marks,
    target: &Marks,
) -> Result<Vec<Option<u32>>, AllocError>
    requires inside { length inside.now ≡ states_of model.now }
    requires blocked { length blocked.now ≡ states_of model.now }
    requires target { length target.now ≡ states_of model.now }
    ensures { IfOk result (λ ranks. AreRanksAlong model.now inside.now blocked.now target.now ranks.items) }
{
    model.known();
    let preds = Predecessors::of_model(alloc, model, inside, blocked)?;
    ranks_by(alloc, &preds, target, model.states())
}

/// The states from which a target can be reached without taking a choice of a blocked state. Targets have rank 0, also where they are blocked.
/// The choice of any other marked state is the least one with a marked successor of smaller rank.
pub fn may_reach(
    alloc: Global,
    model: &Model,
    target: &Marks,
    blocked: &Marks,
) -> Result<Pass, Memory>
    requires target { length target.now ≡ states_of model.now }
    requires blocked { length blocked.now ≡ states_of model.now }
    ensures marks { IfOk result (λ pass. AreReached (may_step model.now blocked.now) (marked target.now) (states_of model.now) pass.marks) }
    ensures ranks { IfOk result (λ pass. AreLeastRanks (may_step model.now blocked.now) (marked target.now)
        (states_of model.now) pass.marks pass.ranks.items) }
    ensures choices { IfOk result (λ pass. AreLeast model.now target.now pass.marks
        (falls model.now pass.marks pass.ranks.items) pass.choices.items) }
{
    model.known();
    let all = all_true(alloc, model.states())?;
    let ranks = ranks_along(alloc, model, &all, blocked, target)?;
    Ok(Pass::with_least_choices(alloc, model, &all, &ranks)?)
}

/// The least ranks by which states reach a target by the rows.
fn row_ranks<R: RowsOf>(
    alloc: Global,
    rows: &R,
    target: &Marks,
) -> Result<Vec<Option<u32>>, AllocError>
    requires target { length target.now ≡ length (R.rows rows.now) }
    ensures { IfOk result (λ ranks. AreRanks (row_step (R.rows rows.now)) (marked target.now) (length (R.rows rows.now)) ranks.items) }
{
    rows.known();
    let preds = Predecessors::of_rows(alloc, rows)?;
    ranks_by(alloc, &preds, target, rows.count())
}

/// The states from which a target can be reached by the rows, one per state. Targets have rank 0. Choices are 0.
pub fn along<R: RowsOf>(alloc: Global, rows: &R, target: &Marks) -> Result<Pass, Memory>
    requires target { length target.now ≡ length (R.rows rows.now) }
    ensures marks { IfOk result (λ pass. AreReached (row_step (R.rows rows.now)) (marked target.now) (length (R.rows rows.now)) pass.marks) }
    ensures ranks { IfOk result (λ pass. AreLeastRanks (row_step (R.rows rows.now)) (marked target.now)
        (length (R.rows rows.now)) pass.marks pass.ranks.items) }
    ensures choices { IfOk result (λ pass. pass.choices.items ≡ replicate (length (R.rows rows.now)) 0) }
{
    let ranks = row_ranks(alloc, rows, target)?;
    Ok(Pass::without_choices(alloc, &ranks)?)
}
