ghost use Rattle.std.specs.{Prelude.{ℕ, ◌≡◌, ◌≢◌, ◌<◌, ◌^◌, ◌+◌, length, Some, None, Ok, Err, OnOk, IfOk, pos}, List.{All, Contains, remove}};
ghost use Rattle.mdp_math.specs.Rational.{of_int};
ghost use Rattle.mdp_elim.specs.Entries.{Between, entry_to, each};
ghost use Rattle.mdp_elim.specs.Elimination.{CanEliminate, divided, substituted, eliminated, solution, no_values};
ghost use Rattle.mdp_elim.specs.{Finish.{finish, LeadDown, placed}, Predecessors.{IsLinked, IsPutAt, LeadsTo, LeadBelow, at}};

use crate::equation::{Equation, Solved, evaluate};
use crate::errors::{ElimError, StepError};
use crate::predecessors::{States, list_new, predecessors};
use bumpalo::Bump;
use mdp_num::Frac;
use mdp_wide::Unfinished;
use std::alloc::Global;

/// Takes the equation of state `s`, the last one, out of the others, and solves it for its value.
fn take_pivot<'a>(
    equations: &mut Vec<Equation>,
    arena: &'a Bump,
    s: u32,
) -> Result<Solved<'a>, StepError>
    requires last { length equations.old.items ≡ s + 1 }
    requires below { Between 0 (s + 1) (at equations.old.items s).entries }
    requires other { entry_to s (at equations.old.items s).entries ≢ Some (of_int (pos 1)) }
    ensures pivot { IfOk result (λ pivot. divided s (at equations.old.items s) ≡ Some pivot) }
    ensures rest { OnOk result (equations.new.items ≡ remove equations.old.items s) }
    ensures wide { result ≡ Err (Unfinished.TooWide tt) → divided s (at equations.old.items s) ≡ None }
{
    let mut equation = equations.remove(s as usize);
    equation.divide(s)?;
    let pivot = equation.settle(arena)?;
    Ok(pivot)
}

/// The equations of the states that aren't eliminated, and for each of these the smaller states with an entry to it.
#[derive(Drop)]
struct System {
    equations: Vec<Equation>,
    lists: Vec<States>,
}

impl System {
    /// Puts the equation of state `s` into that of state `t`, which is then listed at the targets that are new to it.
    fn substitute_at(
        &mut self,
        alloc: Global,
        pivot: &Solved<'_>,
        s: u32,
        t: u32,
    ) -> Result<(), StepError>
        requires linked { IsLinked s (s + 1) self.old.lists.items self.old.equations.items }
        requires pivot { Between 0 s pivot.now.entries }
        requires state { t < s }
        ensures ok { OnOk result (IsPutAt s pivot.now t self.old.equations.items self.new.equations.items) }
        ensures linked { OnOk result (IsLinked s (s + 1) self.new.lists.items self.new.equations.items) }
        ensures wide { result ≡ Err (Unfinished.TooWide tt) → substituted s pivot.now (at self.old.equations.items t) ≡ None }
    {
        let equation = &mut self.equations[t as usize];
        list_new(&mut self.lists, t, equation.entries(), pivot.entries())?;
        equation.substitute(alloc, pivot, s)
    }

    /// Puts the equation of state `s` into those of the states with an entry to `s`.
    fn substitute_in_each(
        &mut self,
        alloc: Global,
        pivot: &Solved<'_>,
        s: u32,
        states: &[u32],
    ) -> Result<(), StepError>
        requires linked { IsLinked s (s + 1) self.old.lists.items self.old.equations.items }
        requires pivot { Between 0 s pivot.now.entries }
        requires smaller { All (λ t. t < s) states.now }
        requires complete { (t : ℕ) → t < s → LeadsTo (at self.old.equations.items t).entries s → Contains states.now t }
        ensures ok { OnOk result (each (substituted s pivot.now) self.old.equations.items ≡ Some self.new.equations.items) }
        ensures linked { OnOk result (IsLinked s (s + 1) self.new.lists.items self.new.equations.items) }
        ensures wide { result ≡ Err (Unfinished.TooWide tt) → each (substituted s pivot.now) self.old.equations.items ≡ None }
    {
        for t in states {
            self.substitute_at(alloc, pivot, s, *t)?;
        }
        Ok(())
    }

    /// Eliminates state `s`, the last one: its equation is taken out, solved for its value, and put into the others.
    fn eliminate<'a>(
        &mut self,
        alloc: Global,
        arena: &'a Bump,
        s: u32,
    ) -> Result<Solved<'a>, StepError>
        requires linked { IsLinked (s + 1) (s + 1) self.old.lists.items self.old.equations.items }
        requires pivot { entry_to s (at self.old.equations.items s).entries ≢ Some (of_int (pos 1)) }
        ensures ok { IfOk result (λ pivot. eliminated s self.old.equations.items ≡ Some (record { pivot = pivot; rest = self.new.equations.items })) }
        ensures linked { OnOk result (IsLinked s s self.new.lists.items self.new.equations.items) }
        ensures wide { result ≡ Err (Unfinished.TooWide tt) → eliminated s self.old.equations.items ≡ None }
    {
        let pivot = take_pivot(&mut self.equations, arena, s)?;
        let states = self.lists.remove(s as usize);
        self.substitute_in_each(alloc, &pivot, s, &states)?;
        Ok(pivot)
    }
}

/// Names the state of a step.
pub(crate) fn placed<T>(step: Result<T, StepError>, state: u32) -> Result<T, ElimError>
    ensures { result ≡ placed state step }
{
    match step {
        Ok(value) => Ok(value),
        Err(StepError::TooWide(())) => Err(ElimError::TooWide(state)),
        Err(StepError::Memory) => Err(ElimError::Memory),
    }
}

/// Eliminates all states from the greatest on. Gives their solved equations in this order.
fn eliminate_all<'a>(
    alloc: Global,
    arena: &'a Bump,
    equations: Vec<Equation>,
) -> Result<Vec<Solved<'a>>, ElimError>
    requires few { length equations.items < 2 ^ 32 }
    requires down { LeadBelow (length equations.items) (length equations.items) equations.items }
    requires can { CanEliminate (length equations.items) equations.items }
    ensures ok { IfOk result (λ done. solution (length equations.items) equations.items ≡ finish 0 done.items (Ok no_values)) }
    ensures down { IfOk result (λ done. LeadDown 0 done.items) }
    ensures count { IfOk result (λ done. length done.items ≡ length equations.items) }
    ensures wide { (s : ℕ) → result ≡ Err (Unfinished.TooWide s) → solution (length equations.items) equations.items ≡ Err s }
{
    let lists = predecessors(alloc, &equations)?;
    let mut s = equations.len() as u32;
    let mut left = System { equations, lists };
    let mut done = Vec::new(alloc);
    while s > 0 {
        s -= 1;
        let pivot = placed(left.eliminate(alloc, arena, s), s)?;
        done.push(pivot)?;
    }
    Ok(done)
}

/// The values of the states, in both systems.
#[derive(Drop)]
pub(crate) struct Values {
    pub(crate) first: Vec<Frac>,
    pub(crate) second: Vec<Frac>,
}

/// Evaluates solved equations, from the last one on, which is that of state 0.
fn evaluate_all(alloc: Global, solved: Vec<Solved<'_>>) -> Result<Values, ElimError>
    requires few { length solved.items < 2 ^ 32 }
    requires down { LeadDown 0 solved.items }
    ensures ok { IfOk result (λ v. finish 0 solved.entry.items (Ok no_values) ≡ Ok (record { first = v.first.items; second = v.second.items })) }
    ensures count { IfOk result (λ v. (length v.first.items ≡ length solved.entry.items) × (length v.second.items ≡ length solved.entry.items)) }
    ensures wide { (s : ℕ) → result ≡ Err (Unfinished.TooWide s) → finish 0 solved.entry.items (Ok no_values) ≡ Err s }
{
    let mut waiting = solved;
    let mut first = Vec::new(alloc);
    let mut second = Vec::new(alloc);
    let mut s = 0;
    while let Some(equation) = waiting.pop() {
        placed(evaluate(&equation, &mut first, &mut second), s)?;
        s += 1;
    }
    Ok(Values { first, second })
}

/// Solves a system: the values of the states from 0 on, or the first state at which a term is past width. The solved rows stand in an arena of this
/// call.
pub(crate) fn solve_system(alloc: Global, equations: Vec<Equation>) -> Result<Values, ElimError>
    requires few { length equations.items < 2 ^ 32 }
    requires down { LeadBelow (length equations.items) (length equations.items) equations.items }
    requires can { CanEliminate (length equations.items) equations.items }
    ensures ok { IfOk result (λ v. solution (length equations.items) equations.items
        ≡ Ok (record { first = v.first.items; second = v.second.items })) }
    ensures count { IfOk result (λ v. (length v.first.items ≡ length equations.items) × (length v.second.items ≡ length equations.items)) }
    ensures wide { (s : ℕ) → result ≡ Err (Unfinished.TooWide s) → solution (length equations.items) equations.items ≡ Err s }
{
    let arena = Bump::new(alloc);
    let solved = eliminate_all(alloc, &arena, equations)?;
    evaluate_all(alloc, solved)
}
