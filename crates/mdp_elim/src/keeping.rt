ghost use Rattle.std.specs.Prelude.{ℕ, List, ◌≡◌, ◌≢◌, ◌<◌, ◌+◌, ◌-◌, suc, length, map, false, Some, None, Ok, Err, OnOk, IfOk, IfSome, pos};
ghost use Rattle.std.specs.List.{All};
ghost use Rattle.mdp_math.specs.Rational.{of_int};
ghost use Rattle.mdp_spec.specs.Mdp.{value_at};
ghost use Rattle.mdp_rows.specs.Preds.{is_among};
ghost use Rattle.mdp_elim.specs.{Entries.{Between, entry_to}, Elimination.{solution}, Predecessors.{at}, System.{system, Leaves}};
ghost use Rattle.mdp_elim.specs.Kept.{put_in, values_by, LeadToSmaller, AreSolved, AreValues, HasRoom, IsKept, CanServe, Ascend};
ghost use Rattle.mdp_elim.specs.Kept.{StopsAbove, IsTried, StaySolved, StayOutside, OthersHaveValues};
ghost use Rattle.mdp_elim.specs.Equation as spec;

use crate::chain::equation_at;
use crate::elimination::placed;
use crate::entries::greatest_above;
use crate::equation::{Equation, KeptEquation};
use crate::errors::ElimError;
use bumpalo::Bump;
use mdp_num::Frac;
use mdp_rows::{Marks, RowsOf};
use mdp_wide::Unfinished;
use std::alloc::{AllocError, Global};
use std::marker::Model;

/// The equations of a chain's states, each solved for its value by those of smaller states, and the values. They are kept, so that a chain that
/// differs in some rows is solved again at those states alone from which one comes to a row that differs. Their entries stand in an arena.
#[derive(Drop)]
pub struct Kept<'a> {
    solved: Vec<KeptEquation<'a>>,
    first: Vec<Frac>,
    second: Vec<Frac>,
}

impl<'a> Model for Kept<'a> {
    ghost use Rattle.mdp_elim.specs.Kept as spec;

    ghost Value = { spec.Kept };

    ghost view = { λ k. record { solved = k.solved.items; first = k.first.items; second = k.second.items } };
}

/// Puts into an equation those of the states above `low` that it comes to, the greatest first.
fn put_in(
    alloc: Global,
    solved: &[KeptEquation<'_>],
    equation: &mut Equation,
    low: u32,
) -> Result<(), ElimError>
    requires low { low < length solved.now }
    requires down { LeadToSmaller solved.now }
    requires below { Between 0 (length solved.now) equation.old.entries }
    ensures ok { OnOk result (put_in solved.now (suc low) (length solved.now - suc low) equation.old ≡ Some equation.new) }
    ensures below { OnOk result (Between 0 (low + 1) equation.new.entries) }
    ensures wide { (s : ℕ) → result ≡ Err (Unfinished.TooWide s) → StopsAbove solved.now low equation.old s }
{
    while let Some(s) = greatest_above(equation.entries(), low) {
        placed(equation.substitute(alloc, &solved[s as usize].lent(), s), s)?;
    }
    Ok(())
}

/// Solves the equation of state `t`.
fn solve_row(
    alloc: Global,
    solved: &mut [KeptEquation<'_>],
    equation: Equation,
    t: u32,
) -> Result<(), ElimError>
    requires state { t < length solved.old }
    requires down { LeadToSmaller solved.old }
    requires below { Between 0 (length solved.old) equation.entries }
    requires can { (sum : spec.Equation) → put_in solved.old (suc t) (length solved.old - suc t) equation ≡ Some sum →
        entry_to t sum.entries ≢ Some (of_int (pos 1)) }
    ensures ok { OnOk result (IsTried solved.old solved.new t equation None None) }
    ensures wide { (s : ℕ) → result ≡ Err (Unfinished.TooWide s) → IsTried solved.old solved.new t equation None (Some s) }
{
    let mut equation = equation;
    put_in(alloc, solved, &mut equation, t)?;
    if equation.divide(t).is_err() {
        return Err(ElimError::TooWide(t));
    }
    solved[t as usize].put(&equation)?;
    Ok(())
}

/// Solves the equation of state `t`, or where a term is past width already at the step of a greater state, makes the steps before that one. Gives the
/// greatest state at whose step a term is past width.
fn solve_state(
    alloc: Global,
    solved: &mut [KeptEquation<'_>],
    equation: Equation,
    t: u32,
    wide: Option<u32>,
) -> Result<Option<u32>, AllocError>
    requires state { t < length solved.old }
    requires down { LeadToSmaller solved.old }
    requires below { Between 0 (length solved.old) equation.entries }
    requires can { wide ≡ None → (sum : spec.Equation) → put_in solved.old (suc t) (length solved.old - suc t) equation ≡ Some sum →
        entry_to t sum.entries ≢ Some (of_int (pos 1)) }
    requires wide { IfSome wide (λ low. low < length solved.old) }
    ensures { IfOk result (λ now. IsTried solved.old solved.new t equation wide now) }
{
    let mut equation = equation;
    let step = match wide {
        Some(low) => put_in(alloc, solved, &mut equation, low),
        None => solve_row(alloc, solved, equation, t),
    };
    match step {
        Ok(()) => Ok(wide),
        Err(ElimError::TooWide(state)) => Ok(Some(state)),
        Err(ElimError::Memory) => Err(AllocError),
    }
}

/// Solves the equations of these states, the greatest first. An error names the greatest state at whose step a term is past width.
fn solve_states<R: RowsOf>(
    alloc: Global,
    rows: &R,
    active: &Marks,
    columns: &[Vec<Frac>],
    states: &[u32],
    solved: &mut [KeptEquation<'_>],
) -> Result<(), ElimError>
    requires active { length active.now ≡ length (R.rows rows.now) }
    requires leaves { (ranks : List ℕ) × Leaves (R.rows rows.now) active.now ranks }
    requires columns { All (λ c. length c.items ≡ length (R.rows rows.now)) columns.now }
    requires in_range { All (λ t. t < length (R.rows rows.now)) states.now }
    requires ascend { Ascend states.now }
    requires count { length solved.old ≡ length (R.rows rows.now) }
    requires down { LeadToSmaller solved.old }
    requires others { StaySolved states.now (system (R.rows rows.now) active.now (map (λ c. c.items) columns.now)) solved.old }
    ensures ok { OnOk result (AreSolved (system (R.rows rows.now) active.now (map (λ c. c.items) columns.now)) solved.new) }
    ensures others { OnOk result ((u : ℕ) → is_among u states.now ≡ false → at solved.new u ≡ at solved.old u) }
    ensures wide { (s : ℕ) → result ≡ Err (Unfinished.TooWide s) → solution (length (R.rows rows.now))
        (system (R.rows rows.now) active.now (map (λ c. c.items) columns.now)) ≡ Err s }
{
    rows.known();
    let mut wide = None;
    let mut i = states.len();
    while i > 0 {
        i -= 1;
        let equation = equation_at(alloc, rows, active, columns, states[i])?;
        wide = solve_state(alloc, solved, equation, states[i], wide)?;
    }
    match wide {
        Some(state) => Err(ElimError::TooWide(state)),
        None => Ok(()),
    }
}

/// Evaluates the solved equations of these states, the least first. The values of the others stand already.
fn evaluate_states(
    solved: &[KeptEquation<'_>],
    states: &[u32],
    first: &mut [Frac],
    second: &mut [Frac],
) -> Result<(), ElimError>
    requires first { length first.old ≡ length solved.now }
    requires second { length second.old ≡ length solved.now }
    requires down { LeadToSmaller solved.now }
    requires outside { StayOutside states.now solved.now }
    requires in_range { All (λ t. t < length solved.now) states.now }
    requires ascend { Ascend states.now }
    requires first_others { OthersHaveValues (λ e. e.first) states.now solved.now first.old }
    requires second_others { OthersHaveValues (λ e. e.second) states.now solved.now second.old }
    ensures first { OnOk result (AreValues (λ e. e.first) solved.now first.new) }
    ensures second { OnOk result (AreValues (λ e. e.second) solved.now second.new) }
    ensures others { OnOk result ((s : ℕ) → is_among s states.now ≡ false → value_at first.new s ≡ value_at first.old s) }
    ensures ok { OnOk result (values_by solved.now (length solved.now) ≡ Ok (record { first = first.new; second = second.new })) }
    ensures wide { (s : ℕ) → result ≡ Err (Unfinished.TooWide s) → values_by solved.now (length solved.now) ≡ Err s }
{
    for t in states {
        let (x, y) = placed(solved[*t as usize].lent().sums(first, second), *t)?;
        first[*t as usize] = x;
        second[*t as usize] = y;
    }
    Ok(())
}

/// So many equations without entries.
fn no_equations<'a>(
    alloc: Global,
    arena: &'a Bump,
    states: u32,
) -> Result<Vec<KeptEquation<'a>>, AllocError>
    ensures count { IfOk result (λ equations. length equations.items ≡ states) }
    ensures down { IfOk result (λ equations. LeadToSmaller equations.items) }
{
    let mut equations = Vec::with_capacity(alloc, states as usize)?;
    for _ in 0..states {
        equations.push(KeptEquation::none(arena))?;
    }
    Ok(equations)
}

impl<'a> Kept<'a> {
    /// Room for so many states, with entries in this arena; no equation is solved.
    pub fn new(alloc: Global, arena: &'a Bump, states: u32) -> Result<Kept<'a>, AllocError>
        ensures { IfOk result (λ k. HasRoom states k) }
    {
        let solved = no_equations(alloc, arena, states)?;
        let first = vec![in alloc; Frac::whole(0); states as usize]?;
        let second = vec![in alloc; Frac::whole(0); states as usize]?;
        Ok(Kept {
            solved,
            first,
            second,
        })
    }

    /// The values of the states, in the first system.
    pub fn values(&self) -> &[Frac]
        ensures { result.now ≡ self.now.first }
    {
        &self.first
    }

    /// Solves x = c + Q x over the active states, for each column c, at these states, which ascend. All others have the equations for which `self`
    /// was solved, and lead to none of these. `Wide` names the state at whose step the written elimination of the whole chain first has a term past
    /// width. After an error nothing is known of what is kept.
    pub fn solve_again<R: RowsOf>(
        &mut self,
        alloc: Global,
        rows: &R,
        active: &Marks,
        columns: &[Vec<Frac>],
        states: &[u32],
    ) -> Result<(), ElimError>
        requires active { length active.now ≡ length (R.rows rows.now) }
        requires leaves { (ranks : List ℕ) × Leaves (R.rows rows.now) active.now ranks }
        requires columns { All (λ c. length c.items ≡ length (R.rows rows.now)) columns.now }
        requires in_range { All (λ t. t < length (R.rows rows.now)) states.now }
        requires ascend { Ascend states.now }
        requires others { CanServe states.now (system (R.rows rows.now) active.now (map (λ c. c.items) columns.now)) self.old }
        ensures kept { OnOk result (IsKept (system (R.rows rows.now) active.now (map (λ c. c.items) columns.now)) self.new) }
        ensures value { OnOk result (solution (length (R.rows rows.now)) (system (R.rows rows.now) active.now (map (λ c. c.items) columns.now))
            ≡ Ok (record { first = self.new.first; second = self.new.second })) }
        ensures others { OnOk result ((s : ℕ) → is_among s states.now ≡ false → value_at self.new.first s ≡ value_at self.old.first s) }
        ensures wide { (s : ℕ) → result ≡ Err (Unfinished.TooWide s) → solution (length (R.rows rows.now))
            (system (R.rows rows.now) active.now (map (λ c. c.items) columns.now)) ≡ Err s }
    {
        rows.known();
        solve_states(alloc, rows, active, columns, states, &mut self.solved)?;
        evaluate_states(&self.solved, states, &mut self.first, &mut self.second)
    }
}
