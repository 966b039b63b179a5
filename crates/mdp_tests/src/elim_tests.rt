//! State elimination along the first choices of two models of three states, with values by hand.

ghost use Rattle.std.specs.Prelude.{◌≡◌, ◌<◌, length, true, false, replicate, slice_set, IfOk};
ghost use Rattle.mdp_spec.specs.Mdp.{states_of};
ghost use Rattle.mdp_elim.specs.System.{Leaves};

use crate::graph_tests::gives;
use crate::models::model_of;
use mdp_elim::{Chain, ElimError, solve, solve_leaving, visits};
use mdp_graph::{Pass, along, along_law};
use mdp_num::{Frac, Memory};
use mdp_rows::{Marks, Model, PolicyRows, RowsOf};
use std::alloc::{AllocError, Global};

/// States 0 and 1 come back, and end in 2.
const ROUND: &str = "3#0| 0:1/2 1:1/4 2:1/4;1| 0:1/3 2:2/3;2| 2:1";

/// State 0 leads to 1 by a chance of 10^-36; else both end in 2.
const RARE: &str = "3#0| 1:1e-36 2:0.999999999999999999999999999999999999;1| 2:1;2| 2:1";

/// The fraction num/den.
fn part(num: u32, den: u32) -> Frac
    requires { 0 < den }
{
    Frac::of_terms(i128::from(num), i128::from(den))
}

/// A column of three constants.
fn column(alloc: Global, constants: &[Frac; 3]) -> Result<Vec<Frac>, AllocError>
    ensures { IfOk result (λ column. length column.items ≡ 3) }
{
    constants.as_slice().to_vec(alloc)
}

/// Whether these are the values of three states.
fn are(values: &[Frac], due: &[Frac; 3]) -> bool {
    values == due.as_slice()
}

/// The values of a chain of three states for each of two columns, by one call.
fn both<R: RowsOf>(
    alloc: Global,
    chain: &Chain<'_, R>,
    first: &[Frac; 3],
    second: &[Frac; 3],
) -> Result<Vec<Vec<Frac>>, ElimError>
    requires states { length (R.rows chain.now.rows.now) ≡ 3 }
    requires active { length chain.now.active.now ≡ 3 }
    requires ranks { length chain.now.ranks.now ≡ 3 }
    requires leaves { Leaves (R.rows chain.now.rows.now) chain.now.active.now chain.now.ranks.now }
{
    let columns = [column(alloc, first)?, column(alloc, second)?];
    solve(alloc, chain, &columns)
}

/// The values for one column.
fn alone<R: RowsOf>(
    alloc: Global,
    chain: &Chain<'_, R>,
    constants: &[Frac; 3],
) -> Result<Vec<Vec<Frac>>, ElimError>
    requires states { length (R.rows chain.now.rows.now) ≡ 3 }
    requires active { length chain.now.active.now ≡ 3 }
    requires leaves { Leaves (R.rows chain.now.rows.now) chain.now.active.now chain.now.ranks.now }
{
    let columns = [column(alloc, constants)?];
    solve_leaving(alloc, chain.rows, chain.active, &columns)
}

/// Whether `solve` gives these for two columns of `ROUND`: x = 1/2 x + 1/4 y and y = 1 + 1/3 x; and 1 where the constants are the chances of ending.
fn values_are<R: RowsOf>(alloc: Global, chain: &Chain<'_, R>) -> bool
    requires states { length (R.rows chain.now.rows.now) ≡ 3 }
    requires active { length chain.now.active.now ≡ 3 }
    requires ranks { length chain.now.ranks.now ≡ 3 }
    requires leaves { Leaves (R.rows chain.now.rows.now) chain.now.active.now chain.now.ranks.now }
{
    let (none, one) = (Frac::whole(0), Frac::whole(1));
    let ending = [part(1, 4), part(2, 3), none];
    let Ok(values) = both(alloc, chain, &[none, one, none], &ending) else {
        return false;
    };
    let [x, y] = values.as_slice() else {
        return false;
    };
    are(x, &[part(3, 5), part(6, 5), none]) && are(y, &[one, one, none])
}

/// Whether `visits` gives these from state 0 of `ROUND`: it is visited 1 + 1/2 u + 1/3 v times, state 1 1/4 u times.
fn visits_are<R: RowsOf>(alloc: Global, chain: &Chain<'_, R>) -> bool
    requires states { length (R.rows chain.now.rows.now) ≡ 3 }
    requires active { length chain.now.active.now ≡ 3 }
    requires ranks { length chain.now.ranks.now ≡ 3 }
    requires leaves { Leaves (R.rows chain.now.rows.now) chain.now.active.now chain.now.ranks.now }
{
    if !chain.active.at(0) {
        return false;
    }
    let Ok(found) = visits(alloc, chain, 0) else {
        return false;
    };
    are(&found, &[part(12, 5), part(3, 5), Frac::whole(0)])
}

/// Whether `solve_leaving` gives this value at state 0 of `RARE`, in width, and names state 1 where the product of its value and the chance has 39
/// digits.
fn rare_is_solved<R: RowsOf>(alloc: Global, chain: &Chain<'_, R>) -> bool
    requires states { length (R.rows chain.now.rows.now) ≡ 3 }
    requires active { length chain.now.active.now ≡ 3 }
    requires leaves { Leaves (R.rows chain.now.rows.now) chain.now.active.now chain.now.ranks.now }
{
    let none = Frac::whole(0);
    let rare = Frac::of_terms(1, 10_000_000_000_000_000_000_000_000_000_000_000_000);
    let Ok(values) = alone(alloc, chain, &[none, part(1, 10), none]) else {
        return false;
    };
    let [x] = values.as_slice() else {
        return false;
    };
    are(x, &[rare, part(1, 10), none])
        && matches!(
            alone(alloc, chain, &[none, part(1, 1000), none]),
            Err(ElimError::TooWide(1))
        )
}

/// What is tried of a chain.
#[derive(Clone, Copy)]
enum Example {
    Round,
    Rare,
}

/// Whether an example holds of a chain.
fn holds_on<R: RowsOf>(alloc: Global, chain: &Chain<'_, R>, example: Example) -> bool
    requires states { length (R.rows chain.now.rows.now) ≡ 3 }
    requires active { length chain.now.active.now ≡ 3 }
    requires ranks { length chain.now.ranks.now ≡ 3 }
    requires leaves { Leaves (R.rows chain.now.rows.now) chain.now.active.now chain.now.ranks.now }
{
    match example {
        Example::Round => values_are(alloc, chain) && visits_are(alloc, chain),
        Example::Rare => rare_is_solved(alloc, chain),
    }
}

/// The marks of three states, of which state 2 alone is a target.
fn last_of_three(alloc: Global) -> Result<Marks, Memory>
    ensures { IfOk result (λ marks. marks ≡ slice_set (replicate 3 false) 2 true) }
{
    let mut marks = Marks::empty(alloc, 3)?;
    marks.set(2, true);
    Ok(marks)
}

/// Whether an example holds of the first choices of a model of three states, along which states 0 and 1 come to 2 at their first step.
fn holds_along(alloc: Global, model: &Model, example: Example) -> bool
    requires { states_of model.now ≡ 3 }
{
    model.known();
    along_law();
    let policy = [0; 3];
    let rows = PolicyRows {
        model,
        policy: &policy,
    };
    let Ok(target) = last_of_three(alloc) else {
        return false;
    };
    let Ok(pass) = along(alloc, &rows, &target) else {
        return false;
    };
    if !gives(&pass, 3, "1/0 1/0 0/0") {
        return false;
    }
    let Pass {
        marks,
        ranks,
        choices: _,
    } = pass;
    let mut active = marks;
    active.set(2, false);
    let chain = Chain {
        rows: &rows,
        active: &active,
        ranks: &ranks,
    };
    holds_on(alloc, &chain, example)
}

/// Whether an example holds of the model of a short text.
fn holds(alloc: Global, signs: &str, example: Example) -> bool {
    let Some(model) = model_of(alloc, signs) else {
        return false;
    };
    model.states() == 3 && holds_along(alloc, &model, example)
}

/// Two chains that are solved by hand.
#[test]
fn solves_chains(rt: HostRuntime) {
    assert!(rt; holds(rt.alloc(), ROUND, Example::Round));
    assert!(rt; holds(rt.alloc(), RARE, Example::Rare));
}
