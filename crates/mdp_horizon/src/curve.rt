ghost use Rattle.std.specs.Prelude.{◌≡◌, ◌+◌, ◌<◌, ◌≤◌, ◌^◌, length, pos, IfOk};
ghost use Rattle.mdp_spec.specs.Mdp.{states_of};
ghost use Rattle.mdp_rows.specs.declared.dir.Dir.TheVariants.{Max, Min};
ghost use Rattle.mdp_horizon.specs.{Objective.Objective.{until, total}, Whole.{whole_at}, Finer.{unit_of, finer_curve, WhereFine}};
ghost use Rattle.mdp_horizon.specs.Curve.{point_by, curve_of, IsMaxCurve, IsMinCurve, IsFiniteCurve, IsNearCurve, IsCurveOfBounds};
ghost use Rattle.mdp_horizon.specs.{Code.{plain_objective, IsObjectiveOf}, BoundsCode.{values_of}, Queries.{for_query}};

use crate::bounds_induction::shown;
use crate::choice::Arenas;
use crate::column::Column;
use crate::columns::Query;
use crate::objective::Objective;
use crate::point::Point;
use bumpalo::Bump;
use mdp_num::{Frac, Memory};
use mdp_rows::{Dir, Marks, Model};
use std::alloc::{AllocError, Global};

impl Query<'_> {
    /// The lower and the upper value of state `s` in the two columns.
    fn values_at(self, cover: &Column, follow: &Column, s: u32) -> (Option<Frac>, Option<Frac>)
        requires cover { s < length (values_of cover.now) }
        requires follow { s < length (values_of follow.now) }
        ensures { record { lower = result.0; upper = result.1 }
            ≡ point_by self.entry.dir self.entry.one (whole_at (values_of cover.now) s) (whole_at (values_of follow.now) s) }
    {
        let covering = shown(cover.at(s), self.one);
        let following = shown(follow.at(s), self.one);
        match self.dir {
            Dir::Max => (following, covering),
            Dir::Min => (covering, following),
        }
    }

    /// The values of state `s` with each number of steps up to `steps`. It keeps two columns, and no choices.
    fn curve(self, alloc: Global, s: u32, steps: u32) -> Result<Vec<Point>, AllocError>
        requires state { s < states_of self.model.now }
        ensures { IfOk result (λ curve. curve.items ≡ for_query self.entry curve_of s steps) }
    {
        let terms = Bump::new(alloc);
        let starts = Bump::new(alloc);
        let arenas = Arenas {
            terms: &terms,
            starts: &starts,
        };
        let rows = self.scaled_states(alloc, arenas)?;
        let mut cover = self.end_column(alloc)?;
        let mut follow = self.end_column(alloc)?;
        let mut curve = Vec::new(alloc);
        let (lower, upper) = self.values_at(&cover, &follow, s);
        curve.push(Point { lower, upper })?;
        for done in 0..steps {
            let next = self.next(alloc, &rows, &cover, &follow)?;
            cover = next.cover;
            follow = next.follow;
            let (lower, upper) = self.values_at(&cover, &follow, s);
            curve.push(Point { lower, upper })?;
        }
        Ok(curve)
    }
}

/// The same with a unit that is as fine as so many steps need.
fn finer_curve(
    alloc: Global,
    query: Query<'_>,
    start: u32,
    steps: u32,
    digits: u32,
) -> Result<Vec<Point>, Memory>
    requires start { start < states_of query.model.now }
    requires digits { digits ≤ 30 }
    ensures { let o = plain_objective query.entry.objective in
        IfOk result (λ curve. curve.items ≡ finer_curve query.entry.dir query.entry.model.now o digits start steps) }
{
    let finer = Query {
        dir: query.dir,
        model: query.model,
        objective: query.objective,
        one: query.unit_of(digits, steps),
    };
    Ok(finer.curve(alloc, start, steps)?)
}

/// The curve of an objective, with all that holds of both.
fn curve_within(
    alloc: Global,
    dir: Dir,
    model: &Model,
    objective: Objective<'_>,
    start: u32,
    steps: u32,
    digits: u32,
) -> Result<Vec<Point>, Memory>
    requires fits { IsObjectiveOf model.now (plain_objective objective) }
    requires start { start < states_of model.now }
    requires digits { digits ≤ 30 }
    ensures written { IfOk result (λ curve. curve.items ≡ finer_curve dir model.now (plain_objective objective.entry) digits start steps) }
    ensures length { IfOk result (λ curve. length curve.items ≡ steps + 1) }
    ensures bounds { let o = plain_objective objective.entry in
        IfOk result (λ curve. IsCurveOfBounds dir (pos (unit_of model.now o digits steps)) model.now o start steps curve.items) }
    ensures max { dir ≡ Max → IfOk result (λ curve. IsMaxCurve model.now (plain_objective objective.entry) start steps curve.items) }
    ensures min { dir ≡ Min → IfOk result (λ curve. IsMinCurve model.now (plain_objective objective.entry) start steps curve.items) }
    ensures near { let o = plain_objective objective.entry in
        IfOk result (λ curve. WhereFine dir model.now o digits steps (IsNearCurve (10 ^ digits) steps curve.items)) }
{
    model.known();
    let query = Query {
        dir,
        model,
        objective,
        one: 1,
    };
    finer_curve(alloc, query, start, steps, digits)
}

/// For each number of steps from 0 to `steps` a lower and an upper value of the greatest or the least probability of coming from state `start` to a
/// goal by way of states that stay, by backward induction in whole numbers that are rounded outward. No choices are kept. The unit is finer than
/// 10^-digits by the least power of ten that isn't below `steps`, or by less where a row has no room for that: so where no row is wide, the two
/// values of each number of steps are at most 10^-digits apart. Each value is there, from 0 to 1.
pub fn until_curve(
    alloc: Global,
    model: &Model,
    dir: Dir,
    stay: &Marks,
    goals: &Marks,
    start: u32,
    steps: u32,
    digits: u32,
) -> Result<Vec<Point>, Memory>
    requires stay_each { length stay.now ≡ states_of model.now }
    requires goals_each { length goals.now ≡ states_of model.now }
    requires start { start < states_of model.now }
    requires digits { digits ≤ 30 }
    ensures written { IfOk result (λ curve. curve.items ≡ finer_curve dir model.now (until stay.now goals.now) digits start steps) }
    ensures length { IfOk result (λ curve. length curve.items ≡ steps + 1) }
    ensures bounds { let o = until stay.now goals.now in
        IfOk result (λ curve. IsCurveOfBounds dir (pos (unit_of model.now o digits steps)) model.now o start steps curve.items) }
    ensures max { dir ≡ Max → IfOk result (λ curve. IsMaxCurve model.now (until stay.now goals.now) start steps curve.items) }
    ensures min { dir ≡ Min → IfOk result (λ curve. IsMinCurve model.now (until stay.now goals.now) start steps curve.items) }
    ensures finite { IfOk result (λ curve. IsFiniteCurve steps curve.items) }
    ensures near { let o = until stay.now goals.now in
        IfOk result (λ curve. WhereFine dir model.now o digits steps (IsNearCurve (10 ^ digits) steps curve.items)) }
{
    model.known();
    let until = Objective::Until(stay, goals);
    curve_within(alloc, dir, model, until, start, steps, digits)
}

/// The same of the greatest or the least total reward of the name of place `name`. A value that is too wide is missing.
pub fn total_curve(
    alloc: Global,
    model: &Model,
    dir: Dir,
    name: u32,
    start: u32,
    steps: u32,
    digits: u32,
) -> Result<Vec<Point>, Memory>
    requires name { name < length model.now.names }
    requires start { start < states_of model.now }
    requires digits { digits ≤ 30 }
    ensures written { IfOk result (λ curve. curve.items ≡ finer_curve dir model.now (total name) digits start steps) }
    ensures length { IfOk result (λ curve. length curve.items ≡ steps + 1) }
    ensures bounds { let o = total name in
        IfOk result (λ curve. IsCurveOfBounds dir (pos (unit_of model.now o digits steps)) model.now o start steps curve.items) }
    ensures max { dir ≡ Max → IfOk result (λ curve. IsMaxCurve model.now (total name) start steps curve.items) }
    ensures min { dir ≡ Min → IfOk result (λ curve. IsMinCurve model.now (total name) start steps curve.items) }
    ensures near { let o = total name in
        IfOk result (λ curve. WhereFine dir model.now o digits steps (IsNearCurve (10 ^ digits) steps curve.items)) }
{
    let total = Objective::Total(name);
    curve_within(alloc, dir, model, total, start, steps, digits)
}
