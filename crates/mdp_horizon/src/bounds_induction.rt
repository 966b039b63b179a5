ghost use Rattle.std.specs.Prelude.{◌≡◌, ◌*◌, ◌<◌, ◌≤◌, ◌^◌, ◌<ℤ◌, length, map, pos, IfOk};
ghost use Rattle.mdp_spec.specs.Mdp.{states_of};
ghost use Rattle.mdp_rows.specs.declared.dir.Dir.TheVariants.{Max, Min};
ghost use Rattle.mdp_horizon.specs.{Objective.Objective.{until, total}, Columns.{shown, cover, follow, table, bounds_of}, Gap.{AreNearBounds}};
ghost use Rattle.mdp_horizon.specs.{Answer.{lists}, BoundsAnswer.{plain, AreMaxBounds, AreMinBounds, AreFinite}, Finer.{finer_bounds, WhereFine}};
ghost use Rattle.mdp_horizon.specs.{Code.{plain_objective, IsObjectiveOf}, BoundsCode.{values_of}, Queries.{for_query}};

use crate::bounds::HorizonBounds;
use crate::choice::Arenas;
use crate::column::Column;
use crate::columns::{Columns, Query};
use crate::objective::Objective;
use bumpalo::Bump;
use mdp_num::{Frac, Memory};
use mdp_rows::{Dir, Marks, Model};
use std::alloc::{AllocError, Global};

/// A value in units as a fraction; none where it is missing, or too wide as a fraction.
pub(crate) fn shown(value: Option<i128>, one: i128) -> Option<Frac>
    requires { pos 0 <ℤ one }
    ensures { result ≡ shown one value }
{
    Frac::try_new(value?, one).ok()
}

/// A column of values as fractions.
fn shown_column(
    alloc: Global,
    column: &Column,
    states: u32,
    one: i128,
) -> Result<Vec<Option<Frac>>, AllocError>
    requires one { pos 0 <ℤ one }
    requires states { states ≡ length (values_of column.now) }
    ensures { IfOk result (λ values. values.items ≡ map (shown one) (values_of column.now)) }
{
    let mut values = Vec::with_capacity(alloc, states as usize)?;
    for s in 0..states {
        values.push(shown(column.at(s), one))?;
    }
    Ok(values)
}

/// The columns with `steps` steps left, and the choices of each step, those of the last step first.
#[derive(Drop)]
struct Induction {
    cover: Column,
    follow: Column,
    table: Vec<Vec<u32>>,
}

/// The columns and the table, from no step left on.
fn backward(alloc: Global, query: Query<'_>, steps: u32) -> Result<Induction, AllocError>
    ensures cover { IfOk result (λ found. values_of found.cover ≡ for_query query.entry cover steps) }
    ensures follow { IfOk result (λ found. values_of found.follow ≡ for_query query.entry follow steps) }
    ensures table { IfOk result (λ found. lists found.table.items ≡ for_query query.entry table steps) }
{
    let terms = Bump::new(alloc);
    let starts = Bump::new(alloc);
    let arenas = Arenas {
        terms: &terms,
        starts: &starts,
    };
    let rows = query.scaled_states(alloc, arenas)?;
    let mut cover = query.end_column(alloc)?;
    let mut follow = query.end_column(alloc)?;
    let mut table = Vec::new(alloc);
    for done in 0..steps {
        let next = query.next(alloc, &rows, &cover, &follow)?;
        let Columns {
            cover: covering,
            follow: following,
            choices,
        } = next;
        cover = covering;
        follow = following;
        table.push(choices)?;
    }
    table.reverse();
    Ok(Induction {
        cover,
        follow,
        table,
    })
}

/// Lower and upper values, and the table.
#[tactic(auto, unfolding(crate::specs::Columns::bounds_of))]
fn bounded(alloc: Global, query: Query<'_>, steps: u32) -> Result<HorizonBounds, Memory>
    ensures { IfOk result (λ found. plain found ≡ for_query query.entry bounds_of steps) }
{
    let found = backward(alloc, query, steps)?;
    let states = query.model.states();
    let cover = shown_column(alloc, &found.cover, states, query.one)?;
    let follow = shown_column(alloc, &found.follow, states, query.one)?;
    let steps = found.table;
    match query.dir {
        Dir::Max => Ok(HorizonBounds {
            lower: follow,
            upper: cover,
            steps,
        }),
        Dir::Min => Ok(HorizonBounds {
            lower: cover,
            upper: follow,
            steps,
        }),
    }
}

/// The same in a unit that is as fine as so many steps need.
fn finer_bounds(
    alloc: Global,
    query: Query<'_>,
    steps: u32,
    digits: u32,
) -> Result<HorizonBounds, Memory>
    requires digits { digits ≤ 30 }
    ensures { let o = plain_objective query.entry.objective in
        IfOk result (λ found. plain found ≡ finer_bounds query.entry.dir query.entry.model.now o digits steps) }
{
    let finer = Query {
        dir: query.dir,
        model: query.model,
        objective: query.objective,
        one: query.unit_of(digits, steps),
    };
    bounded(alloc, finer, steps)
}

/// The bounds of an objective, with all that holds of both.
fn bounds_within(
    alloc: Global,
    dir: Dir,
    model: &Model,
    objective: Objective<'_>,
    steps: u32,
    digits: u32,
) -> Result<HorizonBounds, Memory>
    requires fits { IsObjectiveOf model.now (plain_objective objective) }
    requires digits { digits ≤ 30 }
    ensures written { IfOk result (λ found. plain found ≡ finer_bounds dir model.now (plain_objective objective.entry) digits steps) }
    ensures lower { IfOk result (λ found. length found.lower.items ≡ states_of model.now) }
    ensures upper { IfOk result (λ found. length found.upper.items ≡ states_of model.now) }
    ensures max { dir ≡ Max → IfOk result (λ found. AreMaxBounds model.now (plain_objective objective.entry) steps (plain found)) }
    ensures min { dir ≡ Min → IfOk result (λ found. AreMinBounds model.now (plain_objective objective.entry) steps (plain found)) }
    ensures gap { let o = plain_objective objective.entry in
        IfOk result (λ found. WhereFine dir model.now o digits steps (AreNearBounds (10 ^ digits) model.now (plain found))) }
{
    model.known();
    let query = Query {
        dir,
        model,
        objective,
        one: 1,
    };
    finer_bounds(alloc, query, steps, digits)
}

/// Lower and upper values of the greatest or the least probability of coming to a goal within so many steps by way of states that stay, by backward
/// induction in whole numbers that are rounded outward, and a choice of each state for each step, whose policy does no worse than the lower values
/// (`Max`), or than the upper ones (`Min`). The unit is finer than 10^-digits by the least power of ten that isn't below `steps`, or by less where a
/// row has no room for that: so where no row is wide, the two values of each state are at most 10^-digits apart. Each value is there, from 0 to 1.
pub fn until_bounds(
    alloc: Global,
    model: &Model,
    dir: Dir,
    stay: &Marks,
    goals: &Marks,
    steps: u32,
    digits: u32,
) -> Result<HorizonBounds, Memory>
    requires stay_each { length stay.now ≡ states_of model.now }
    requires goals_each { length goals.now ≡ states_of model.now }
    requires digits { digits ≤ 30 }
    requires table { steps * states_of model.now ≤ 2 ^ 22 }
    ensures written { IfOk result (λ found. plain found ≡ finer_bounds dir model.now (until stay.now goals.now) digits steps) }
    ensures lower { IfOk result (λ found. length found.lower.items ≡ states_of model.now) }
    ensures upper { IfOk result (λ found. length found.upper.items ≡ states_of model.now) }
    ensures max { dir ≡ Max → IfOk result (λ found. AreMaxBounds model.now (until stay.now goals.now) steps (plain found)) }
    ensures min { dir ≡ Min → IfOk result (λ found. AreMinBounds model.now (until stay.now goals.now) steps (plain found)) }
    ensures finite { IfOk result (λ found. AreFinite model.now (plain found)) }
    ensures gap { let o = until stay.now goals.now in
        IfOk result (λ found. WhereFine dir model.now o digits steps (AreNearBounds (10 ^ digits) model.now (plain found))) }
{
    model.known();
    let until = Objective::Until(stay, goals);
    bounds_within(alloc, dir, model, until, steps, digits)
}

/// The same of the greatest or the least total reward of the name of place `name` within so many steps. A value that is too wide is missing.
pub fn total_bounds(
    alloc: Global,
    model: &Model,
    dir: Dir,
    name: u32,
    steps: u32,
    digits: u32,
) -> Result<HorizonBounds, Memory>
    requires name { name < length model.now.names }
    requires digits { digits ≤ 30 }
    requires table { steps * states_of model.now ≤ 2 ^ 22 }
    ensures written { IfOk result (λ found. plain found ≡ finer_bounds dir model.now (total name) digits steps) }
    ensures lower { IfOk result (λ found. length found.lower.items ≡ states_of model.now) }
    ensures upper { IfOk result (λ found. length found.upper.items ≡ states_of model.now) }
    ensures max { dir ≡ Max → IfOk result (λ found. AreMaxBounds model.now (total name) steps (plain found)) }
    ensures min { dir ≡ Min → IfOk result (λ found. AreMinBounds model.now (total name) steps (plain found)) }
    ensures gap { let o = total name in
        IfOk result (λ found. WhereFine dir model.now o digits steps (AreNearBounds (10 ^ digits) model.now (plain found))) }
{
    let total = Objective::Total(name);
    bounds_within(alloc, dir, model, total, steps, digits)
}
