ghost use Rattle.std.specs.Prelude.{◌≡◌, ◌<◌, ◌||◌, not, length, IfOk, pos};
ghost use Rattle.mdp_math.specs.Rational.{of_int, lt_ℚ};
ghost use Rattle.mdp_spec.specs.{Mdp.{states_of, value_at}, Tree.{IsPolicy, is_marked}};
ghost use Rattle.mdp_reach.specs.Query.{ending, AreMaxRanks, AreMinRanks, AreRanks};

use mdp_graph::{along, must_meet};
use mdp_num::{Frac, Memory};
use mdp_rows::{Dir, Marks, Model, PolicyRows};
use std::alloc::{AllocError, Global};

/// Whether state `s` is a goal or has value 0.
fn is_end(goals: &Marks, values: &[Frac], s: u32) -> bool
    requires goals { s < length goals.now }
    requires values { s < length values.now }
    ensures { result ≡ (is_marked goals.now s || not (lt_ℚ (of_int (pos 0)) (value_at values.now s))) }
{
    goals.at(s) || values[s as usize].sign() <= 0
}

/// The goals and the states of value 0.
fn ending(alloc: Global, model: &Model, goals: &Marks, values: &[Frac]) -> Result<Marks, AllocError>
    requires goals { length goals.now ≡ states_of model.now }
    requires values { length values.now ≡ states_of model.now }
    ensures { IfOk result (λ marks. marks ≡ ending model.now goals.now values.now) }
{
    let mut marks = Vec::new(alloc);
    for s in 0..model.states() {
        marks.push(is_end(goals, values, s))?;
    }
    Ok(Marks::from_values(marks))
}

/// The ranks along the policy to the goals.
fn max_ranks(
    alloc: Global,
    model: &Model,
    goals: &Marks,
    policy: &[u32],
) -> Result<Vec<u32>, Memory>
    requires goals { length goals.now ≡ states_of model.now }
    requires policy { IsPolicy model.now policy.now }
    ensures { IfOk result (λ ranks. AreMaxRanks model.now goals.now policy.now ranks.items) }
{
    let rows = PolicyRows { model, policy };
    let pass = along(alloc, &rows, goals)?;
    Ok(pass.ranks)
}

/// The ranks whatever is chosen to the goals and the states of value 0.
fn min_ranks(
    alloc: Global,
    model: &Model,
    goals: &Marks,
    values: &[Frac],
) -> Result<Vec<u32>, Memory>
    requires goals { length goals.now ≡ states_of model.now }
    requires values { length values.now ≡ states_of model.now }
    ensures { IfOk result (λ ranks. AreMinRanks model.now goals.now values.now ranks.items) }
{
    let targets = ending(alloc, model, goals, values)?;
    let pass = must_meet(alloc, model, &targets)?;
    Ok(pass.ranks)
}

/// The ranks of a certificate.
pub(crate) fn ranks_of(
    alloc: Global,
    model: &Model,
    goals: &Marks,
    dir: Dir,
    policy: &[u32],
    values: &[Frac],
) -> Result<Vec<u32>, Memory>
    requires goals { length goals.now ≡ states_of model.now }
    requires policy { IsPolicy model.now policy.now }
    requires values { length values.now ≡ states_of model.now }
    ensures { IfOk result (λ ranks. AreRanks dir model.now goals.now values.now policy.now ranks.items) }
{
    match dir {
        Dir::Max => max_ranks(alloc, model, goals, policy),
        Dir::Min => min_ranks(alloc, model, goals, values),
    }
}
