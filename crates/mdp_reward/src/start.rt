ghost use Rattle.std.specs.Prelude.{◌≡◌, length, IfOk};
ghost use Rattle.mdp_spec.specs.Mdp.{states_of};
ghost use Rattle.mdp_reward.specs.Query.{unmarked, IsMaxStart, IsMinStart, IsStart};

use crate::ranks::split;
use mdp_graph::{AvoidingAndMeeting, SureRounds, avoid_and_meet, may_reach, sure_rounds};
use mdp_num::Memory;
use mdp_rows::{Dir, Marks, Model};
use std::alloc::{AllocError, Global};

/// The states of finite reward, the start policy, and the ranks that are known before the path.
#[derive(Drop)]
pub struct Start {
    pub finite: Marks,
    pub policy: Vec<u32>,
    pub known: Vec<u32>,
}

/// The states that aren't marked.
fn unmarked(alloc: Global, model: &Model, marks: &Marks) -> Result<Marks, AllocError>
    requires { length marks.now ≡ states_of model.now }
    ensures { IfOk result (λ rest. rest ≡ unmarked model.now marks.now) }
{
    let mut rest = Vec::new(alloc);
    for s in 0..model.states() {
        rest.push(!marks.at(s))?;
    }
    Ok(Marks::from_values(rest))
}

/// Infinite are the states that come to avoiding ones without passing a goal. The policy goes there and stays there.
fn max_start(alloc: Global, model: &Model, goals: &Marks) -> Result<Start, Memory>
    requires { length goals.now ≡ states_of model.now }
    ensures { IfOk result (λ start. IsMaxStart model.now goals.now start.finite start.policy.items start.known.items) }
{
    let AvoidingAndMeeting { avoiding, meeting } = avoid_and_meet(alloc, model, goals)?;
    let infinite = may_reach(alloc, model, &avoiding.marks, goals)?;
    let finite = unmarked(alloc, model, &infinite.marks)?;
    let policy = split(
        alloc,
        model,
        &avoiding.marks,
        &avoiding.choices,
        &infinite.choices,
    )?;
    let known = split(alloc, model, &finite, &meeting.ranks, &infinite.ranks)?;
    Ok(Start {
        finite,
        policy,
        known,
    })
}

/// Finite are the states from which some policy surely reaches a goal. The policy does so.
fn min_start(alloc: Global, model: &Model, goals: &Marks) -> Result<Start, Memory>
    requires { length goals.now ≡ states_of model.now }
    ensures { IfOk result (λ start. IsMinStart model.now goals.now start.finite start.policy.items start.known.items) }
{
    let SureRounds { pass, rounds } = sure_rounds(alloc, model, goals)?;
    Ok(Start {
        finite: pass.marks,
        policy: pass.choices,
        known: rounds,
    })
}

/// The start of a query: the states of finite reward by the graph alone, a policy, and ranks, one of each for each state. An `Err` is want of memory.
pub fn start_of(alloc: Global, model: &Model, goals: &Marks, dir: Dir) -> Result<Start, Memory>
    requires { length goals.now ≡ states_of model.now }
    ensures { IfOk result (λ start. IsStart dir model.now goals.now start.finite start.policy.items start.known.items) }
{
    match dir {
        Dir::Max => max_start(alloc, model, goals),
        Dir::Min => min_start(alloc, model, goals),
    }
}
