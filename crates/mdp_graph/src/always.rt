ghost use Rattle.std.specs.Prelude.{◌≡◌, ◌<◌, ℕ, None, length, cond, replicate, IfOk};
ghost use Rattle.mdp_spec.specs.Mdp.{states_of};
ghost use Rattle.mdp_graph.specs.{Sets.{marked}, Layers.{rank_at, AreLeastRanks}, Meet.{must_step}, SureAll.{IsSureAll, AreSureRanks}};

use crate::avoid::marks_without;
use crate::meet::meeting_ranks;
use crate::pass::Pass;
use crate::reach::may_reach;
use mdp_num::Memory;
use mdp_rows::{Marks, Model};
use std::alloc::Global;

/// Takes the ranks of the marked states away.
fn drop_ranks(ranks: &mut Vec<Option<u32>>, marks: &Marks, states: u32)
    requires ranks { length ranks.old.items ≡ states }
    requires marks { length marks.now ≡ states }
    ensures count { length ranks.new.items ≡ states }
    ensures left { (s : ℕ) → s < states → rank_at ranks.new.items s ≡ cond (marked marks.now s) None (rank_at ranks.old.items s) }
{
    for s in 0..states {
        if marks.at(s) {
            ranks[s as usize] = None;
        }
    }
}

/// The ranks of `must_meet`, of the states that can't reach a state of `may_avoid` without passing a goal.
fn sure_ranks(alloc: Global, model: &Model, goals: &Marks) -> Result<Vec<Option<u32>>, Memory>
    requires goals { length goals.now ≡ states_of model.now }
    ensures { IfOk result (λ ranks. AreSureRanks model.now goals.now ranks.items) }
{
    model.known();
    let mut ranks = meeting_ranks(alloc, model, goals)?;
    let avoiding = marks_without(alloc, &ranks)?;
    let reaching = may_reach(alloc, model, &avoiding, goals)?;
    drop_ranks(&mut ranks, &reaching.marks, model.states());
    Ok(ranks)
}

/// The states from which every policy reaches a goal with certainty: those that can't reach a state of `may_avoid` without passing a goal.
/// The ranks are those of `must_meet`. Choices are 0.
///
/// Model checkers call this set Prob1A: each policy comes to a goal with probability 1 (de Alfaro 1997; Baier and Katoen 2008, section 10.6.1).
pub fn sure_all(alloc: Global, model: &Model, goals: &Marks) -> Result<Pass, Memory>
    requires goals { length goals.now ≡ states_of model.now }
    ensures marks { IfOk result (λ pass. IsSureAll model.now goals.now pass.marks) }
    ensures ranks { IfOk result (λ pass. AreLeastRanks (must_step model.now) (marked goals.now) (states_of model.now) pass.marks pass.ranks.items) }
    ensures choices { IfOk result (λ pass. pass.choices.items ≡ replicate (states_of model.now) 0) }
{
    let ranks = sure_ranks(alloc, model, goals)?;
    Ok(Pass::without_choices(alloc, &ranks)?)
}
