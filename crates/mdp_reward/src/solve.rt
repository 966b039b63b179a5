ghost use Rattle.std.specs.Prelude.{◌≡◌, ◌<◌, false, length, IfOk};
ghost use Rattle.mdp_spec.specs.{Mdp.{states_of}, Bounds.{RewardMax, RewardMin}};
ghost use Rattle.mdp_rows.specs.{Negative.{has_negative}, declared.dir.Dir.TheVariants.{Max, Min}};
ghost use Rattle.mdp_farkas.specs.Reward.{IsReward};
ghost use Rattle.mdp_policy_iteration.specs.Queries.{Solves};
ghost use Rattle.mdp_reward.specs.Query.{plain, HasOneEach, EndsSo};

use crate::problem::Reward;
use crate::ranks::ranks_of;
use crate::rewards::rewards_of;
use crate::start::start_of;
use mdp_farkas::{RewardCert, Verdict, holds_reward};
use mdp_graph::{along_law, meet_law, rounds_law, sure_all_law};
use mdp_policy_iteration::{improve, in_part};
use mdp_rows::{Dir, Marks, Model};
use mdp_wide::{Kind, Part, SolveError, TooWide};
use std::alloc::Global;

/// The greatest or the least expected rewards until a goal, under the reward name of place `m`, by policy iteration: values (`None` is infinite), a
/// policy and ranks, held against the rules of certificates. `TooWide` is the first written term past width, of the path or of that check.
pub fn solve_reward(
    alloc: Global,
    model: &Model,
    m: u32,
    goals: &Marks,
    dir: Dir,
) -> Result<RewardCert, SolveError>
    requires name { m < length model.now.names }
    requires goals { length goals.now ≡ states_of model.now }
    requires none_negative { has_negative model.now m ≡ false }
    ensures path { Solves plain (EndsSo dir model.now m goals.now) result }
    ensures each { IfOk result (λ cert. HasOneEach model.now (plain cert)) }
    ensures rules { IfOk result (λ cert. IsReward dir model.now m goals.now cert.values.items cert.choices.items cert.ranks.items) }
    ensures max { dir ≡ Max → IfOk result (λ cert. RewardMax model.now m goals.now cert.choices.items cert.values.items) }
    ensures min { dir ≡ Min → IfOk result (λ cert. RewardMin model.now m goals.now cert.choices.items cert.values.items) }
{
    model.known();
    along_law();
    meet_law();
    rounds_law();
    sure_all_law();
    let start = start_of(alloc, model, goals, dir)?;
    let first = start.policy;
    let known = start.known;
    let finite = start.finite;
    let problem = Reward {
        dir,
        model,
        name: m,
        goals,
        finite: &finite,
    };
    let found = match improve(alloc, &problem, first) {
        Ok(found) => found,
        Err(error) => return Err(in_part(error, Part::Whole)),
    };
    let ranks = ranks_of(alloc, model, goals, &finite, dir, known, &found.policy)?;
    let cert = RewardCert {
        values: rewards_of(alloc, model, &finite, &found.values)?,
        choices: found.policy,
        ranks,
    };
    match holds_reward(model, m, goals, dir, &cert) {
        Verdict::Yes => Ok(cert),
        Verdict::No(_) => unreachable!(),
        Verdict::Wide { state, choice } => Err(SolveError::TooWide(TooWide {
            part: Part::Whole,
            round: found.round,
            policy: cert.choices,
            kind: Kind::Check,
            state,
            choice,
        })),
    }
}
