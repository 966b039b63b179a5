ghost use Rattle.std.specs.Prelude.{◌≡◌, ◌<◌, length, IfOk};
ghost use Rattle.mdp_spec.specs.{Bounds.{MeanMax, MeanMin}, Mdp.{states_of}};
ghost use Rattle.mdp_rows.specs.declared.dir.Dir.TheVariants.{Max, Min};
ghost use Rattle.mdp_farkas.specs.Mean.{IsMean};
ghost use Rattle.mdp_policy_iteration.specs.Queries.{Solves};
ghost use Rattle.mdp_mean.specs.Query.{plain, EndsSo};

use crate::inners::all_inners;
use crate::parts::{Parts, join_parts};
use bumpalo::Bump;
use mdp_farkas::MeanCert;
use mdp_parts::end_components;
use mdp_quot::{Quotient, best_exits, longest};
use mdp_rows::{Dir, Model};
use mdp_wide::SolveError;
use std::alloc::Global;

/// The greatest or the least mean payoff from each state, under the reward name of place `m`, by policy iteration in each end component and over the
/// quotient by these: for each state a gain, a bound, a bias and a choice, and the spread, held against the rules of certificates. `TooWide` is the
/// first written term past width of these parts, of their join, or of that check.
pub fn solve_mean(alloc: Global, model: &Model, m: u32, dir: Dir) -> Result<MeanCert, SolveError>
    requires name { m < length model.now.names }
    ensures path { Solves plain (EndsSo dir model.now m) result }
    ensures each { IfOk result (λ cert. length cert.gains.items ≡ states_of model.now) }
    ensures rules { IfOk result (λ cert. IsMean dir model.now m cert.gains.items cert.bound.items cert.bias.items cert.spread cert.choices.items) }
    ensures max { dir ≡ Max → IfOk result (λ cert. MeanMax model.now m cert.gains.items cert.spread cert.choices.items) }
    ensures min { dir ≡ Min → IfOk result (λ cert. MeanMin model.now m cert.gains.items cert.spread cert.choices.items) }
{
    model.known();
    let ends = end_components(alloc, model)?;
    let inner = all_inners(alloc, model, &ends, m, dir)?;
    let arena = Bump::new(alloc);
    let quotient = Quotient::build(alloc, &arena, model, &ends)?;
    let outer = best_exits(alloc, &quotient, &inner.gains, dir)?;
    let steps = longest(alloc, &quotient)?;
    let parts = Parts {
        ends: &ends,
        quotient: &quotient,
        inner: &inner,
        outer: &outer,
        steps: &steps,
    };
    join_parts(alloc, model, m, dir, &parts)
}
