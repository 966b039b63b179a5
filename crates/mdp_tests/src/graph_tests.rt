ghost use Rattle.std.specs.Prelude.{◌≡◌, ◌<◌, length, IfOk};
ghost use Rattle.mdp_spec.specs.Mdp.{states_of};

use crate::models::{marked, model_of};
use mdp_graph::{Pass, may_avoid, may_reach, must_meet, rounds_outside, sure_all, sure_some};
use mdp_num::Memory;
use mdp_rows::{Marks, Model, Pred, Preds, preds_of};
use std::alloc::Global;

/// State 0 goes to 1 and 2, or may also come back; 1 is the goal.
const FORK: &str = "3#0| 1:1/2 2:1/2| 0:1/2 1:1/4 2:1/4;1*| 1:1;2| 2:1";

/// The number that a digit says.
fn digit_of(sign: u8) -> u32 {
    u32::from(sign.saturating_sub(b'0'))
}

/// Whether state `s` is marked, with the rank and the choice that a word says, or isn't marked, and both are 0, where the word is `-`.
fn gives_at(pass: &Pass, s: u32, word: &str) -> bool
    requires { s < length pass.now.marks }
{
    let (is_marked, rank, choice) = match word.as_bytes() {
        [rank, b'/', choice] => (true, digit_of(*rank), digit_of(*choice)),
        _ => (word != "-", 0, 0),
    };
    pass.marks.at(s) == is_marked
        && pass.ranks.get(s as usize) == Some(&rank)
        && pass.choices.get(s as usize) == Some(&choice)
}

/// Whether a pass gives each state what the words say, one for each.
pub(crate) fn gives(pass: &Pass, states: u32, due: &str) -> bool
    requires { length pass.now.marks ≡ states }
{
    let mut words = due.split(' ');
    for s in 0..states {
        let Some(word) = words.next() else {
            return false;
        };
        if !gives_at(pass, s, word) {
            return false;
        }
    }
    words.next().is_none()
}

/// Whether `may_reach` gives what the words say.
fn may_gives(alloc: Global, model: &Model, goals: &Marks, due: &str) -> bool
    requires { length goals.now ≡ states_of model.now }
{
    let Ok(blocked) = marked(alloc, model, "blocked") else {
        return false;
    };
    let Ok(pass) = may_reach(alloc, model, goals, &blocked) else {
        return false;
    };
    gives(&pass, model.states(), due)
}

/// The passes that the goals alone settle.
#[derive(Clone, Copy)]
enum ByGoals {
    Must,
    Avoid,
    Some,
    All,
}

/// What a pass gives.
fn pass_by(alloc: Global, model: &Model, goals: &Marks, pass: ByGoals) -> Result<Pass, Memory>
    requires { length goals.now ≡ states_of model.now }
    ensures { IfOk result (λ pass. length pass.marks ≡ states_of model.now) }
{
    match pass {
        ByGoals::Must => must_meet(alloc, model, goals),
        ByGoals::Avoid => may_avoid(alloc, model, goals),
        ByGoals::Some => sure_some(alloc, model, goals),
        ByGoals::All => sure_all(alloc, model, goals),
    }
}

/// Whether a pass gives what the words say.
fn goals_give(alloc: Global, model: &Model, goals: &Marks, pass: ByGoals, due: &str) -> bool
    requires { length goals.now ≡ states_of model.now }
{
    let Ok(pass) = pass_by(alloc, model, goals, pass) else {
        return false;
    };
    gives(&pass, model.states(), due)
}

/// Whether `rounds_outside` gives these rounds.
fn rounds_are(alloc: Global, model: &Model, goals: &Marks, due: &[u32]) -> bool
    requires { length goals.now ≡ states_of model.now }
{
    let Ok(rounds) = rounds_outside(alloc, model, goals) else {
        return false;
    };
    rounds.as_slice() == due
}

/// What is due of each pass on a model.
#[derive(Clone, Copy)]
struct Due<'a> {
    may: &'a str,
    must: &'a str,
    avoid: &'a str,
    some: &'a str,
    all: &'a str,
    rounds: &'a [u32],
}

/// Whether each pass finds what is due.
fn finds_in(alloc: Global, model: &Model, due: &Due<'_>) -> bool {
    let Ok(goals) = marked(alloc, model, "goal") else {
        return false;
    };
    may_gives(alloc, model, &goals, due.may)
        && goals_give(alloc, model, &goals, ByGoals::Must, due.must)
        && goals_give(alloc, model, &goals, ByGoals::Avoid, due.avoid)
        && goals_give(alloc, model, &goals, ByGoals::Some, due.some)
        && goals_give(alloc, model, &goals, ByGoals::All, due.all)
        && rounds_are(alloc, model, &goals, due.rounds)
}

/// Whether each pass finds what is due in the model of a short text.
fn finds(alloc: Global, signs: &str, due: &Due<'_>) -> bool {
    let Some(model) = model_of(alloc, signs) else {
        return false;
    };
    finds_in(alloc, &model, due)
}

/// State 0 goes to 1 and 2, which stay; 2 is the goal.
fn splits(alloc: Global) -> bool {
    let due = Due {
        may: "1/0 - 0/0",
        must: "1/0 - 0/0",
        avoid: "- 0/0 -",
        some: "- - 0/0",
        all: "- - 0/0",
        rounds: &[2, 1, 0],
    };
    finds(alloc, "3#0| 1:1/2 2:1/2;1| 1:1;2*| 2:1", &due)
}

/// The same without a goal.
fn has_no_goal(alloc: Global) -> bool {
    let due = Due {
        may: "- - -",
        must: "- - -",
        avoid: "0/0 0/0 0/0",
        some: "- - -",
        all: "- - -",
        rounds: &[1, 1, 1],
    };
    finds(alloc, "3#0| 1:1/2 2:1/2;1| 1:1;2| 2:1", &due)
}

/// The first choice misses the goal, the second leads to it.
fn chooses(alloc: Global) -> bool {
    let due = Due {
        may: "1/1 - 0/0",
        must: "- - 0/0",
        avoid: "0/0 0/0 -",
        some: "1/1 - 0/0",
        all: "- - 0/0",
        rounds: &[0, 1, 0],
    };
    finds(alloc, "3#0| 1:1| 2:1;1| 1:1;2*| 2:1", &due)
}

/// A choice that stays.
fn stays(alloc: Global) -> bool {
    let due = Due {
        may: "1/1 0/0",
        must: "- 0/0",
        avoid: "0/0 -",
        some: "1/1 0/0",
        all: "- 0/0",
        rounds: &[0, 0],
    };
    finds(alloc, "2#0| 0:1| 1:1;1*| 1:1", &due)
}

/// A goal that is left again.
fn leaves_goal(alloc: Global) -> bool {
    let due = Due {
        may: "1/0 0/0 -",
        must: "1/0 0/0 -",
        avoid: "- - 0/0",
        some: "1/0 0/0 -",
        all: "1/0 0/0 -",
        rounds: &[0, 0, 1],
    };
    finds(alloc, "3#0| 1:1;1*| 2:1;2| 2:1", &due)
}

/// A second choice that may come back, and a trap.
fn forks(alloc: Global) -> bool {
    let due = Due {
        may: "1/0 0/0 -",
        must: "1/0 0/0 -",
        avoid: "- - 0/0",
        some: "- 0/0 -",
        all: "- 0/0 -",
        rounds: &[2, 0, 1],
    };
    finds(alloc, FORK, &due)
}

/// The way over state 1 is blocked, and so is the goal, which is one all the same.
fn is_blocked(alloc: Global) -> bool {
    let due = Due {
        may: "2/1 - 1/0 0/0",
        must: "2/0 1/0 1/0 0/0",
        avoid: "- - - -",
        some: "2/0 1/0 1/0 0/0",
        all: "2/0 1/0 1/0 0/0",
        rounds: &[0, 0, 0, 0],
    };
    finds(alloc, "4#0| 1:1| 2:1;1!| 3:1;2| 3:1;3*!| 3:1", &due)
}

/// Models of few states, and what each pass finds on them by hand.
#[test]
fn finds_sets_of_states(rt: HostRuntime) {
    let alloc = rt.alloc();
    assert!(rt; splits(alloc) && has_no_goal(alloc));
    assert!(rt; chooses(alloc) && stays(alloc));
    assert!(rt; leaves_goal(alloc) && forks(alloc) && is_blocked(alloc));
}

/// The choices that lead to each state: one list for each.
#[tactic(auto, using(crate::proofs::PredCounts::one_each))]
fn predecessors(alloc: Global, model: &Model) -> Result<Preds, Memory>
    ensures { IfOk result (λ preds. length preds ≡ states_of model.now) }
{
    preds_of(alloc, model)
}

/// Whether these are the choices, in this order.
fn are(preds: &[Pred], due: &[(u32, u32)]) -> bool {
    for (pred, (state, choice)) in preds.iter().zip(due) {
        if pred.state != *state || pred.choice != *choice {
            return false;
        }
    }
    preds.len() == due.len()
}

/// Whether the predecessors of a model of three states are these.
fn leads(alloc: Global, model: &Model) -> bool
    requires { states_of model.now ≡ 3 }
{
    let Ok(preds) = predecessors(alloc, model) else {
        return false;
    };
    are(preds.of(0), &[(0, 1)])
        && are(preds.of(1), &[(0, 0), (0, 1), (1, 0)])
        && are(preds.of(2), &[(0, 0), (0, 1), (2, 0)])
}

/// Whether the predecessors of the fork are listed.
fn fork_leads(alloc: Global) -> bool {
    let Some(model) = model_of(alloc, FORK) else {
        return false;
    };
    model.states() == 3 && leads(alloc, &model)
}

/// The predecessors of each state, ascending.
#[test]
fn lists_predecessors(rt: HostRuntime) {
    assert!(rt; fork_leads(rt.alloc()));
}
