ghost use Rattle.std.specs.{Prelude.{◌≡◌, ◌<◌, length, map, if◌then◌else◌, IfOk}, List.{range_with_len}};
ghost use Rattle.mdp_spec.specs.{Mdp.{states_of}, Tree.{is_marked}};
ghost use Rattle.mdp_farkas.specs.Compare.{0ℚ, 1ℚ};
ghost use Rattle.mdp_bounds.specs.Reach.{IsTrivialReach};

use mdp_bounds::ReachBoundsCert;
use mdp_num::{Frac, Memory};
use mdp_rows::{Marks, Model};
use std::alloc::{AllocError, Global};

/// 1 at a goal, 0 elsewhere.
fn least_at(goals: &Marks, s: u32) -> Frac
    requires { s < length goals.now }
    ensures { result ≡ (if is_marked goals.now s then 1ℚ else 0ℚ) }
{
    if goals.at(s) {
        Frac::whole(1)
    } else {
        Frac::whole(0)
    }
}

/// 1 at each goal, 0 elsewhere.
fn least_values(alloc: Global, states: u32, goals: &Marks) -> Result<Vec<Frac>, AllocError>
    requires { length goals.now ≡ states }
    ensures { IfOk result (λ values. values.items ≡ map (λ s. if is_marked goals.now s then 1ℚ else 0ℚ) (range_with_len 0 states)) }
{
    let mut values = Vec::new(alloc);
    for s in 0..states {
        values.push(least_at(goals, s))?;
    }
    Ok(values)
}

/// The bounds 0 and 1 of the probability to reach a goal, and 1 and 1 at a goal, with the first choice of each state. They hold for every model, and
/// say nothing.
pub fn trivial_reach(alloc: Global, model: &Model, goals: &Marks) -> Result<ReachBoundsCert, Memory>
    requires { length goals.now ≡ states_of model.now }
    ensures trivial { IfOk result (λ cert. IsTrivialReach model.now goals.now cert.lower.items cert.upper.items cert.choices.items cert.ranks.items) }
    ensures lower { IfOk result (λ cert. length cert.lower.items ≡ states_of model.now) }
    ensures upper { IfOk result (λ cert. length cert.upper.items ≡ states_of model.now) }
    ensures choices { IfOk result (λ cert. length cert.choices.items ≡ states_of model.now) }
    ensures ranks { IfOk result (λ cert. length cert.ranks.items ≡ states_of model.now) }
{
    model.known();
    let states = model.states();
    let lower = least_values(alloc, states, goals)?;
    let upper = vec![in alloc; Frac::whole(1); states as usize]?;
    let choices = vec![in alloc; 0; states as usize]?;
    let ranks = vec![in alloc; 0; states as usize]?;
    Ok(ReachBoundsCert {
        lower,
        upper,
        choices,
        ranks,
    })
}
