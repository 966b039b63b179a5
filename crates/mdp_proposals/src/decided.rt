//! What the graph alone says of a probability.

ghost use Rattle.std.specs.Prelude.{◌≡◌, length, IfOk};
ghost use Rattle.mdp_spec.specs.Mdp.{states_of};

use mdp_graph::{Pass, may_avoid, may_reach, sure_some};
use mdp_num::Memory;
use mdp_refinement::{Value, put};
use mdp_rows::{Dir, Marks, Model};
use std::alloc::Global;

/// What the graph alone decides: the values that are 0 or 1 by it, whether these are all, and choices that bring them about where that takes a
/// policy.
#[derive(Drop)]
pub(crate) struct Decided {
    pub(crate) known: Vec<Value>,
    pub(crate) is_all: bool,
    pub(crate) choices: Vec<u32>,
}

/// For the greatest probability the states from which some policy surely reaches a goal, whose value is 1; for the least one those from which some
/// policy avoids the goals, whose value is 0.
fn first_of(alloc: Global, model: &Model, goals: &Marks, dir: Dir) -> Result<Pass, Memory>
    requires { length goals.now ≡ states_of model.now }
    ensures { IfOk result (λ pass. length pass.marks ≡ states_of model.now) }
{
    match dir {
        Dir::Max => sure_some(alloc, model, goals),
        Dir::Min => may_avoid(alloc, model, goals),
    }
}

/// What passes over the graph decide of reaching a goal. States that come to none of the first ones, without passing a goal, have the other value.
pub(crate) fn decide(
    alloc: Global,
    model: &Model,
    goals: &Marks,
    dir: Dir,
) -> Result<Decided, Memory>
    requires { length goals.now ≡ states_of model.now }
{
    model.known();
    let first = first_of(alloc, model, goals, dir)?;
    let reaching = may_reach(alloc, model, &first.marks, goals)?;
    let value = if dir == Dir::Max { 1 } else { 0 };
    let mut known = vec![in alloc; Value::none(); model.states() as usize]?;
    let mut is_all = true;
    for s in 0..model.states() {
        if first.marks.at(s) {
            put(&mut known, s, Value::known(value));
        } else if reaching.marks.at(s) {
            is_all = false;
        } else {
            put(&mut known, s, Value::known(1 - value));
        }
    }
    Ok(Decided {
        known,
        is_all,
        choices: first.choices,
    })
}
