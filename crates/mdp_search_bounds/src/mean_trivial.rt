ghost use Rattle.std.specs.Prelude.{◌≡◌, ◌<◌, length, IfOk};
ghost use Rattle.mdp_spec.specs.Mdp.{states_of};
ghost use Rattle.mdp_bounds.specs.Mean.{IsTrivialMean, IsMeanBounds};
ghost use Rattle.mdp_rows.specs.{declared.dir.Dir.{Dir}, declared.dir.Dir.TheVariants.{Max, Min}};
ghost use Rattle.mdp_search_bounds.specs.Extent.{AreAllExtreme};

use crate::extent::extreme;
use mdp_bounds::MeanBoundsCert;
use mdp_num::{Frac, Memory};
use mdp_rows::{Dir, Model};
use std::alloc::Global;

/// The bounds of the greatest and the least mean payoffs of the reward name of place `name` that hold for every model: the least reward of a choice
/// as lower gain of each state and the greatest as upper gain, in units of that reward; bound, bias and spread 0; the first choice of each state. An
/// `Err` is want of memory.
pub fn trivial_mean(alloc: Global, model: &Model, name: u32) -> Result<MeanBoundsCert, Memory>
    requires { name < length model.now.names }
    ensures trivial { IfOk result (λ cert. IsTrivialMean model.now name cert.lower.items cert.upper.items cert.bound.items cert.bias.items
        cert.spread cert.choices.items) }
    ensures accepted { IfOk result (λ cert. (dir : Dir) → IsMeanBounds dir model.now name cert.lower.items cert.upper.items cert.bound.items
        cert.bias.items cert.spread cert.choices.items) }
    ensures least { IfOk result (λ cert. AreAllExtreme Min model.now name cert.lower.items) }
    ensures greatest { IfOk result (λ cert. AreAllExtreme Max model.now name cert.upper.items) }
    ensures lower { IfOk result (λ cert. length cert.lower.items ≡ states_of model.now) }
    ensures upper { IfOk result (λ cert. length cert.upper.items ≡ states_of model.now) }
    ensures bound { IfOk result (λ cert. length cert.bound.items ≡ states_of model.now) }
    ensures bias { IfOk result (λ cert. length cert.bias.items ≡ states_of model.now) }
    ensures choices { IfOk result (λ cert. length cert.choices.items ≡ states_of model.now) }
{
    model.known();
    let states = model.states() as usize;
    let lower = vec![in alloc; extreme(model, name, Dir::Min); states]?;
    let upper = vec![in alloc; extreme(model, name, Dir::Max); states]?;
    let bound = vec![in alloc; Frac::whole(0); states]?;
    let bias = vec![in alloc; Frac::whole(0); states]?;
    let choices = vec![in alloc; 0; states]?;
    Ok(MeanBoundsCert {
        lower,
        upper,
        bound,
        bias,
        choices,
        spread: Frac::whole(0),
    })
}
