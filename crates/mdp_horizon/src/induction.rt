ghost use Rattle.std.specs.Prelude.{◌≡◌, ◌<◌, ◌*◌, ◌≤◌, ◌^◌, length, IfOk};
ghost use Rattle.mdp_spec.specs.Mdp.{states_of};
ghost use Rattle.mdp_rows.specs.declared.dir.Dir.TheVariants.{Max, Min};
ghost use Rattle.mdp_horizon.specs.{Bounds.{BoundedMax, BoundedMin, TotalMax, TotalMin}, Answer.{Answers, plain}};
ghost use Rattle.mdp_horizon.specs.Written.{written_until, written_total};

use crate::backup::Query;
use crate::bounded::Bounded;
use crate::error::HorizonError;
use crate::objective::Objective;
use crate::steps::values_within;
use mdp_rows::{Dir, Marks, Model};
use std::alloc::Global;

/// The greatest or the least probabilities of coming to a goal within so many steps by way of states that stay, by backward induction (Puterman
/// 1994, section 4.5), and a choice of each state for each step. `Wide` is the first written term past width. Two rows of values are kept, and the
/// table of choices.
pub fn until(
    alloc: Global,
    model: &Model,
    dir: Dir,
    stay: &Marks,
    goals: &Marks,
    steps: u32,
) -> Result<Bounded, HorizonError>
    requires stay_each { length stay.now ≡ states_of model.now }
    requires goals_each { length goals.now ≡ states_of model.now }
    requires table { steps * states_of model.now ≤ 2 ^ 22 }
    ensures written { Answers plain result (written_until dir model.now stay.now goals.now steps) }
    ensures one_each { IfOk result (λ found. length found.values.items ≡ states_of model.now) }
    ensures max { dir ≡ Max → IfOk result (λ found. BoundedMax model.now stay.now goals.now steps (plain found).values (plain found).steps) }
    ensures min { dir ≡ Min → IfOk result (λ found. BoundedMin model.now stay.now goals.now steps (plain found).values (plain found).steps) }
{
    model.known();
    let query = Query {
        dir,
        model,
        objective: Objective::Until(stay, goals),
    };
    values_within(alloc, query, steps)
}

/// The greatest or the least total rewards of the name of place `name` within so many steps, which may be below 0 too, by backward induction, and a
/// choice of each state for each step. `Wide` is the first written term past width. Two rows of values are kept, and the table of choices.
pub fn total(
    alloc: Global,
    model: &Model,
    dir: Dir,
    name: u32,
    steps: u32,
) -> Result<Bounded, HorizonError>
    requires named { name < length model.now.names }
    requires table { steps * states_of model.now ≤ 2 ^ 22 }
    ensures written { Answers plain result (written_total dir model.now name steps) }
    ensures one_each { IfOk result (λ found. length found.values.items ≡ states_of model.now) }
    ensures max { dir ≡ Max → IfOk result (λ found. TotalMax model.now name steps (plain found).values (plain found).steps) }
    ensures min { dir ≡ Min → IfOk result (λ found. TotalMin model.now name steps (plain found).values (plain found).steps) }
{
    model.known();
    let rewards = Query {
        dir,
        model,
        objective: Objective::Total(name),
    };
    values_within(alloc, rewards, steps)
}
