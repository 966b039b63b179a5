ghost use Rattle.std.specs.{Prelude.{ℕ, ◌≡◌, ◌<◌, ◌∷◌, [], true, ◌^◌, length, map, Ok, Err, IfOk, OnOk}, List.{All, range_with_len}};
ghost use Rattle.mdp_spec.specs.Row.{entries};
ghost use Rattle.mdp_elim.specs.{System.{is_active, system, Leaves}, Predecessors.{at}};
ghost use Rattle.mdp_elim.specs.Visits.{transposed, unit_column, one_at, start_equation, with_row, written_visits, AreVisits};

use crate::chain::Chain;
use crate::elimination::{Values, solve_system};
use crate::entries::Term;
use crate::equation::Equation;
use crate::errors::ElimError;
use mdp_num::Frac;
use mdp_rows::{Marks, Row, RowsOf};
use mdp_wide::Unfinished;
use std::alloc::{AllocError, Global};

/// 1 at the start, 0 at any other state.
fn one_at(start: u32, s: u32) -> Frac
    ensures { result ≡ one_at start s }
{
    if s == start {
        Frac::whole(1)
    } else {
        Frac::whole(0)
    }
}

/// The equations of all states, without their entries: the visits at the start.
fn visits_start(alloc: Global, states: u32, start: u32) -> Result<Vec<Equation>, AllocError>
    ensures { IfOk result (λ es. es.items ≡ map (start_equation start) (range_with_len 0 states)) }
{
    let mut equations = Vec::with_capacity(alloc, states as usize)?;
    for s in 0..states {
        let equation = Equation::new(Vec::new(alloc), one_at(start, s), Frac::whole(0));
        equations.push(equation)?;
    }
    Ok(equations)
}

/// Puts each entry of state t's row to an active state into the equation of its target, as an entry to `t`.
fn push_row(
    equations: &mut [Equation],
    active: &Marks,
    row: Row<'_>,
    t: u32,
) -> Result<(), AllocError>
    requires targets { All (λ v. v < length active.now) row.targets.now }
    requires states { length equations.old ≡ length active.now }
    ensures row { OnOk result ((s : ℕ) → at equations.new s ≡ with_row active.now t (entries row.entry.targets.now row.entry.probs.now) s
        (at equations.old s)) }
    ensures count { OnOk result (length equations.new ≡ length equations.old) }
{
    for i in 0..row.targets.len() {
        let target = row.targets[i];
        if active.at(target) {
            equations[target as usize].push(Term::new(t, row.probs[i]))?;
        }
    }
    Ok(())
}

/// The equations of all states: the visits of a state are those at the start, and those by the states that lead to it.
fn visits_system<R: RowsOf>(
    alloc: Global,
    chain: &Chain<'_, R>,
    start: u32,
) -> Result<Vec<Equation>, AllocError>
    requires active { length chain.now.active.now ≡ length (R.rows chain.now.rows.now) }
    requires start { is_active chain.now.active.now start ≡ true }
    ensures value { IfOk result (λ es. es.items ≡ system (transposed (R.rows chain.now.rows.now)) chain.now.active.now
        (unit_column (length (R.rows chain.now.rows.now)) start ∷ [])) }
    ensures few { IfOk result (λ es. length es.items < 2 ^ 32) }
{
    let mut equations = visits_start(alloc, chain.rows.count(), start)?;
    for t in 0..chain.rows.count() {
        if chain.active.at(t) {
            push_row(&mut equations, chain.active, chain.rows.row(t), t)?;
        }
    }
    Ok(equations)
}

/// The expected visits of each active state from the active state `start`, and 0 at states that aren't active: one value per state. `Wide` names the
/// state at whose step the written elimination of the transposed rows first has a term past width.
pub fn visits<R: RowsOf>(
    alloc: Global,
    chain: &Chain<'_, R>,
    start: u32,
) -> Result<Vec<Frac>, ElimError>
    requires active { length chain.now.active.now ≡ length (R.rows chain.now.rows.now) }
    requires ranks { length chain.now.ranks.now ≡ length (R.rows chain.now.rows.now) }
    requires leaves { Leaves (R.rows chain.now.rows.now) chain.now.active.now chain.now.ranks.now }
    requires start { is_active chain.now.active.now start ≡ true }
    ensures value { IfOk result (λ y. written_visits (R.rows chain.now.rows.now) chain.now.active.now start ≡ Ok y.items) }
    ensures wide { (s : ℕ) → result ≡ Err (Unfinished.TooWide s) → written_visits (R.rows chain.now.rows.now) chain.now.active.now start ≡ Err s }
    ensures place { (s : ℕ) → result ≡ Err (Unfinished.TooWide s) → (s < length (R.rows chain.now.rows.now)) ×
        (is_active chain.now.active.now s ≡ true) }
    ensures solves { IfOk result (λ y. AreVisits (R.rows chain.now.rows.now) chain.now.active.now start y.items) }
{
    chain.rows.known();
    let system = visits_system(alloc, chain, start)?;
    let Values { first, second: _ } = solve_system(alloc, system)?;
    Ok(first)
}
