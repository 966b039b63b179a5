ghost use Rattle.std.specs.Prelude.{◌≡◌, length, IfOk};
ghost use Rattle.mdp_spec.specs.{Mdp.{states_of}, Bounds.{ReachMax, ReachMin}};
ghost use Rattle.mdp_rows.specs.declared.dir.Dir.TheVariants.{Max, Min};
ghost use Rattle.mdp_farkas.specs.Reach.{IsReach};
ghost use Rattle.mdp_policy_iteration.specs.Queries.{Solves};
ghost use Rattle.mdp_reach.specs.{Query.{plain, HasOneEach, EndsSo}, Round.{SolvesToEnd}};

use crate::problem::Reach;
use crate::ranks::ranks_of;
use crate::start::start_of;
use mdp_farkas::{ReachCert, Verdict, holds_reach};
use mdp_graph::{along_law, avoid_law, meet_law, reach_law};
use mdp_policy_iteration::{Solution, improve, in_part};
use mdp_rows::{Dir, Marks, Model};
use mdp_wide::{Kind, Part, SolveError, TooWide};
use std::alloc::Global;

/// What a query of reachability ends with: a certificate, and the round of its policy. Rounds count from 0; one above 2^64 - 1 is given as 2^64 - 1.
#[derive(Drop)]
pub struct ReachEnd {
    pub cert: ReachCert,
    pub round: u64,
}

/// The greatest or the least probabilities of reaching a goal, by policy iteration: values, a policy and ranks, held against the rules of
/// certificates, with the round in which the path of policies ends. `TooWide` is the first written term past width, of the path or of that check.
pub fn solve_reach_to_end(
    alloc: Global,
    model: &Model,
    goals: &Marks,
    dir: Dir,
) -> Result<ReachEnd, SolveError>
    requires { length goals.now ≡ states_of model.now }
    ensures path { SolvesToEnd dir model.now goals.now result }
    ensures each { IfOk result (λ end. HasOneEach model.now (plain end.cert)) }
    ensures rules { IfOk result (λ end. IsReach dir model.now goals.now end.cert.values.items end.cert.choices.items end.cert.ranks.items) }
    ensures max { dir ≡ Max → IfOk result (λ end. ReachMax model.now goals.now end.cert.values.items end.cert.choices.items) }
    ensures min { dir ≡ Min → IfOk result (λ end. ReachMin model.now goals.now end.cert.values.items end.cert.choices.items) }
{
    model.known();
    along_law();
    avoid_law();
    meet_law();
    reach_law();
    let start = start_of(alloc, model, goals, dir)?;
    let first = start.choices;
    let marks = start.marks;
    let problem = Reach {
        dir,
        model,
        goals,
        marks: &marks,
    };
    let Solution {
        round,
        policy,
        values,
    } = match improve(alloc, &problem, first) {
        Ok(found) => found,
        Err(error) => return Err(in_part(error, Part::Whole)),
    };
    let ranks = ranks_of(alloc, model, goals, dir, &policy, &values)?;
    let cert = ReachCert {
        values,
        choices: policy,
        ranks,
    };
    match holds_reach(model, goals, dir, &cert) {
        Verdict::Yes => Ok(ReachEnd { cert, round }),
        Verdict::No(_) => unreachable!(),
        Verdict::Wide { state, choice } => Err(SolveError::TooWide(TooWide {
            part: Part::Whole,
            round,
            policy: cert.choices,
            kind: Kind::Check,
            state,
            choice,
        })),
    }
}

/// The greatest or the least probabilities of reaching a goal, by policy iteration: values, a policy and ranks, held against the rules of
/// certificates. `TooWide` is the first written term past width, of the path or of that check.
pub fn solve_reach(
    alloc: Global,
    model: &Model,
    goals: &Marks,
    dir: Dir,
) -> Result<ReachCert, SolveError>
    requires { length goals.now ≡ states_of model.now }
    ensures path { Solves plain (EndsSo dir model.now goals.now) result }
    ensures each { IfOk result (λ cert. HasOneEach model.now (plain cert)) }
    ensures rules { IfOk result (λ cert. IsReach dir model.now goals.now cert.values.items cert.choices.items cert.ranks.items) }
    ensures max { dir ≡ Max → IfOk result (λ cert. ReachMax model.now goals.now cert.values.items cert.choices.items) }
    ensures min { dir ≡ Min → IfOk result (λ cert. ReachMin model.now goals.now cert.values.items cert.choices.items) }
{
    let ReachEnd { cert, round: _ } = solve_reach_to_end(alloc, model, goals, dir)?;
    Ok(cert)
}
