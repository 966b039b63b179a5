ghost use Rattle.std.specs.{Prelude.{ℕ, List, ◌≡◌, ◌<◌, ◌≤◌, ◌⊎◌, ◌^◌, length, map, true, Ok, Err, IfOk, slice_index_or}, List.{All}};
ghost use Rattle.mdp_spec.specs.Row.{entries};
ghost use Rattle.mdp_elim.specs.{System.{is_active, inner, column_at, equation_of, system, Leaves, SolveEach}, Solve.{columns_of, written_solution}};

use crate::elimination::{Values, solve_system};
use crate::entries::Term;
use crate::equation::Equation;
use crate::errors::ElimError;
use mdp_num::Frac;
use mdp_rows::{Marks, Row, RowsOf};
use mdp_wide::Unfinished;
use std::alloc::{AllocError, Global};

/// A chain: one row per state. The value of a state that isn't active is 0. The ranks say how each active state leaves: by an entry to a state
/// that isn't active, or to an active state of smaller rank.
#[derive(Drop)]
pub struct Chain<'a, R: RowsOf> {
    pub rows: &'a R,
    pub active: &'a Marks,
    pub ranks: &'a [u32],
}

/// The entries of a row to active states.
fn inner_terms(alloc: Global, row: Row<'_>, active: &Marks) -> Result<Vec<Term>, AllocError>
    requires { All (λ t. t < length active.now) row.targets.now }
    ensures { IfOk result (λ terms. terms.items ≡ inner active.now (entries row.entry.targets.now row.entry.probs.now)) }
{
    let mut terms = Vec::new(alloc);
    for i in 0..row.targets.len() {
        let target = row.targets[i];
        if active.at(target) {
            terms.push(Term::new(target, row.probs[i]))?;
        }
    }
    Ok(terms)
}

/// The value of column `k` at a state; 0 where there is no such column.
fn constant(columns: &[Vec<Frac>], k: usize, s: u32) -> Frac
    requires { All (λ c. s < length c.items) columns.now }
    ensures { result ≡ column_at (map (λ c. c.items) columns.now) k s }
{
    if k < columns.len() {
        columns[k][s as usize]
    } else {
        Frac::whole(0)
    }
}

/// The equation of a state.
pub(crate) fn equation_at<R: RowsOf>(
    alloc: Global,
    rows: &R,
    active: &Marks,
    columns: &[Vec<Frac>],
    s: u32,
) -> Result<Equation, AllocError>
    requires state { s < length (R.rows rows.now) }
    requires active { length active.now ≡ length (R.rows rows.now) }
    requires columns { All (λ c. s < length c.items) columns.now }
    ensures { IfOk result (λ e. e ≡ equation_of (R.rows rows.now) active.now (map (λ c. c.items) columns.now) s) }
{
    if !active.at(s) {
        return Ok(Equation::none(alloc));
    }
    let terms = inner_terms(alloc, rows.row(s), active)?;
    Ok(Equation::new(terms, constant(columns, 0, s), constant(columns, 1, s)))
}

/// The equations of all states.
fn system_of<R: RowsOf>(
    alloc: Global,
    rows: &R,
    active: &Marks,
    columns: &[Vec<Frac>],
) -> Result<Vec<Equation>, AllocError>
    requires active { length active.now ≡ length (R.rows rows.now) }
    requires columns { All (λ c. length c.items ≡ length (R.rows rows.now)) columns.now }
    ensures value { IfOk result (λ es. es.items ≡ system (R.rows rows.now) active.now (map (λ c. c.items) columns.now)) }
    ensures few { IfOk result (λ es. length es.items < 2 ^ 32) }
{
    let mut equations = Vec::new(alloc);
    for s in 0..rows.count() {
        equations.push(equation_at(alloc, rows, active, columns, s)?)?;
    }
    Ok(equations)
}

/// The vectors of values: the first one, and the second one where there are two columns.
fn answers(alloc: Global, values: Values, columns: usize) -> Result<Vec<Vec<Frac>>, AllocError>
    requires { (columns ≡ 1) ⊎ (columns ≡ 2) }
    ensures { IfOk result (λ xs. map (λ x. x.items) xs.items ≡ columns_of columns
        (record { first = values.first.items; second = values.second.items })) }
{
    let Values { first, second } = values;
    let mut answers = Vec::new(alloc);
    answers.push(first)?;
    if columns == 2 {
        answers.push(second)?;
    }
    Ok(answers)
}

/// Solves x = c + Q x over the active states, for each column c: one value per state, 0 at states that aren't active. Some ranks show that each
/// active state leaves; what they are doesn't matter to the solution. `Wide` names the state at whose step the written elimination first has a term
/// past width.
pub fn solve_leaving<R: RowsOf>(
    alloc: Global,
    rows: &R,
    active: &Marks,
    columns: &[Vec<Frac>],
) -> Result<Vec<Vec<Frac>>, ElimError>
    requires active { length active.now ≡ length (R.rows rows.now) }
    requires leaves { (ranks : List ℕ) × Leaves (R.rows rows.now) active.now ranks }
    requires some_columns { (length columns.now ≡ 1) ⊎ (length columns.now ≡ 2) }
    requires columns { All (λ c. length c.items ≡ length (R.rows rows.now)) columns.now }
    ensures value { IfOk result (λ xs. written_solution (R.rows rows.now) active.now (map (λ c. c.items) columns.now)
        ≡ Ok (map (λ x. x.items) xs.items)) }
    ensures wide { (s : ℕ) → result ≡ Err (Unfinished.TooWide s) → written_solution (R.rows rows.now) active.now (map (λ c. c.items) columns.now)
        ≡ Err s }
    ensures place { (s : ℕ) → result ≡ Err (Unfinished.TooWide s) → (s < length (R.rows rows.now)) × (is_active active.now s ≡ true) }
    ensures solves { IfOk result (λ xs. SolveEach (R.rows rows.now) active.now (map (λ c. c.items) columns.now) (map (λ x. x.items) xs.items)) }
{
    rows.known();
    let system = system_of(alloc, rows, active, columns)?;
    let values = solve_system(alloc, system)?;
    Ok(answers(alloc, values, columns.len())?)
}

/// The same of a chain with its ranks.
pub fn solve<R: RowsOf>(
    alloc: Global,
    chain: &Chain<'_, R>,
    columns: &[Vec<Frac>],
) -> Result<Vec<Vec<Frac>>, ElimError>
    requires active { length chain.now.active.now ≡ length (R.rows chain.now.rows.now) }
    requires ranks { length chain.now.ranks.now ≡ length (R.rows chain.now.rows.now) }
    requires leaves { Leaves (R.rows chain.now.rows.now) chain.now.active.now chain.now.ranks.now }
    requires some_columns { (length columns.now ≡ 1) ⊎ (length columns.now ≡ 2) }
    requires columns { All (λ c. length c.items ≡ length (R.rows chain.now.rows.now)) columns.now }
    ensures value { IfOk result (λ xs. written_solution (R.rows chain.now.rows.now) chain.now.active.now (map (λ c. c.items) columns.now)
        ≡ Ok (map (λ x. x.items) xs.items)) }
    ensures wide { (s : ℕ) → result ≡ Err (Unfinished.TooWide s) → written_solution (R.rows chain.now.rows.now) chain.now.active.now
        (map (λ c. c.items) columns.now) ≡ Err s }
    ensures place { (s : ℕ) → result ≡ Err (Unfinished.TooWide s) → (s < length (R.rows chain.now.rows.now)) ×
        (is_active chain.now.active.now s ≡ true) }
    ensures solves { IfOk result (λ xs. SolveEach (R.rows chain.now.rows.now) chain.now.active.now (map (λ c. c.items) columns.now)
        (map (λ x. x.items) xs.items)) }
{
    solve_leaving(alloc, chain.rows, chain.active, columns)
}
