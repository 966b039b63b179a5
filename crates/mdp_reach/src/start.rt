ghost use Rattle.std.specs.Prelude.{◌≡◌, length, IfOk};
ghost use Rattle.mdp_spec.specs.Mdp.{states_of};
ghost use Rattle.mdp_reach.specs.Query.{IsMaxStart, IsMinStart, IsStart};

use mdp_graph::{Pass, may_avoid, may_reach};
use mdp_num::Memory;
use mdp_rows::{Dir, Marks, Model};
use std::alloc::Global;

/// From which states a goal can be reached, and the choices of shortest ways.
fn max_start(alloc: Global, model: &Model, goals: &Marks) -> Result<Pass, Memory>
    requires { length goals.now ≡ states_of model.now }
    ensures { IfOk result (λ pass. IsMaxStart model.now goals.now pass.marks pass.choices.items) }
{
    let none = Marks::empty(alloc, model.states())?;
    let pass = may_reach(alloc, model, goals, &none)?;
    Ok(pass)
}

/// At which states goals can be avoided, and the choices that do so.
fn min_start(alloc: Global, model: &Model, goals: &Marks) -> Result<Pass, Memory>
    requires { length goals.now ≡ states_of model.now }
    ensures { IfOk result (λ pass. IsMinStart model.now goals.now pass.marks pass.choices.items) }
{
    let pass = may_avoid(alloc, model, goals)?;
    Ok(pass)
}

/// The marks and the start policy of a query.
pub(crate) fn start_of(
    alloc: Global,
    model: &Model,
    goals: &Marks,
    dir: Dir,
) -> Result<Pass, Memory>
    requires { length goals.now ≡ states_of model.now }
    ensures { IfOk result (λ pass. IsStart dir model.now goals.now pass.marks pass.choices.items) }
{
    match dir {
        Dir::Max => max_start(alloc, model, goals),
        Dir::Min => min_start(alloc, model, goals),
    }
}
