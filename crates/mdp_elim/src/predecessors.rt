//! For each state the smaller states with an entry to it.
ghost use Rattle.std.specs.{Prelude.{ℕ, ◌≡◌, ◌<◌, ◌⊎◌, ◌^◌, length, OnOk, IfOk}, List.{All}};
ghost use Rattle.mdp_elim.specs.Predecessors.{IsListed, HoldSmaller, ListsMore, LeadsTo, ListsTargets, LeadBelow, IsLinked, at};

use crate::entries::{Term, find};
use crate::equation::Equation;
use smallvec::SmallVec;
use std::alloc::{AllocError, Global};

/// A list that is short for most states.
pub(crate) type States = SmallVec<u32, 8>;

/// Lists `t` at `v`.
fn list(lists: &mut [States], v: u32, t: u32) -> Result<(), AllocError>
    requires state { v < length lists.old }
    requires smaller { t < v }
    ensures listed { OnOk result (IsListed lists.new v t) }
    ensures more { OnOk result (ListsMore lists.old lists.new) }
{
    lists[v as usize].push(t)?;
    Ok(())
}

/// Lists `t` at each greater state to which a row leads.
fn list_targets(lists: &mut [States], t: u32, row: &[Term]) -> Result<(), AllocError>
    requires { All (λ x. x.target < length lists.old) row.now }
    ensures listed { OnOk result (ListsTargets lists.new t row.now) }
    ensures more { OnOk result (ListsMore lists.old lists.new) }
{
    for x in row {
        if t < x.target() {
            list(lists, x.target(), t)?;
        }
    }
    Ok(())
}

/// So many empty lists.
fn empty_lists(alloc: Global, states: usize) -> Result<Vec<States>, AllocError>
    ensures count { IfOk result (λ lists. length lists.items ≡ states) }
    ensures smaller { IfOk result (λ lists. HoldSmaller lists.items) }
{
    let mut lists = Vec::with_capacity(alloc, states)?;
    for _ in 0..states {
        lists.push(SmallVec::new(alloc))?;
    }
    Ok(lists)
}

/// For each state the smaller states whose equations have an entry to it.
pub(crate) fn predecessors(alloc: Global, equations: &[Equation]) -> Result<Vec<States>, AllocError>
    requires few { length equations.now < 2 ^ 32 }
    requires down { LeadBelow (length equations.now) (length equations.now) equations.now }
    ensures { IfOk result (λ lists. IsLinked (length equations.now) (length equations.now) lists.items equations.now) }
{
    let mut lists = empty_lists(alloc, equations.len())?;
    for t in 0..equations.len() {
        list_targets(&mut lists, t as u32, equations[t].entries())?;
    }
    Ok(lists)
}

/// Lists `t`, the state of the row, at each greater state to which `source` leads and the row doesn't.
pub(crate) fn list_new(
    lists: &mut [States],
    t: u32,
    row: &[Term],
    source: &[Term],
) -> Result<(), AllocError>
    requires { All (λ x. x.target < length lists.old) source.now }
    ensures listed { OnOk result (All (λ x. t < x.target → LeadsTo row.now x.target ⊎ IsListed lists.new x.target t) source.now) }
    ensures more { OnOk result (ListsMore lists.old lists.new) }
{
    for x in source {
        if t < x.target() && find(row, x.target()).is_none() {
            list(lists, x.target(), t)?;
        }
    }
    Ok(())
}
