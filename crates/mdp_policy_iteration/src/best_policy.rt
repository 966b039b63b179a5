ghost use Rattle.std.specs.{Prelude.{◌≡◌, ◌≢◌, ◌<◌, [], length, Ok, IfOk}, List.{All}};
ghost use Rattle.mdp_policy_iteration.specs.{Problem.{count}, Path.{improved, improvements}, Laws.{IsSolvable, IsBestFrom}};
ghost use Rattle.mdp_policy_iteration.specs.{Changes.{Ascend, IsChangeOf, spread, nodes_of}, Evaluated.{HasRoom, IsEvaluated}};
ghost use Rattle.mdp_policy_iteration.specs.Ends.{Ends, EndsWithLast};

use crate::comparison::take_changes;
use crate::dependents::dependents_of;
use crate::evaluation::Evaluation;
use crate::loops::Loops;
use crate::round::{first_round, round_of};
use crate::scope::Scope;
use crate::shortest_path::ShortestPath;
use crate::solution::{PathError, Solution, path_error};
use bumpalo::Bump;
use mdp_elim::solution_law;
use mdp_rows::{Marks, Pred};
use std::alloc::Global;

/// The policy with these changes.
fn next_policy(mut policy: Vec<u32>, changes: &[Pred]) -> Vec<u32>
    requires in_range { All (λ x. x.state < length policy.items) changes.now }
    requires ascend { Ascend (nodes_of changes.now) }
    ensures { result.items ≡ improved policy.items (spread (length policy.items) changes.now) }
{
    take_changes(&mut policy, changes);
    policy
}

/// The last policy of a path, and its round.
#[derive(Drop)]
pub(crate) struct Last {
    pub(crate) round: u64,
    pub(crate) policy: Vec<u32>,
}

/// The rest of the path from a first policy, whose evaluation and whose changes are given: from round to round only nodes that come to a change are
/// evaluated anew, and choices are compared only at these and at nodes with a choice that leads to one of them.
fn improve_further<P: ShortestPath>(
    alloc: Global,
    problem: &P,
    loops: &Loops,
    start: Vec<u32>,
    evaluation: &mut Evaluation<'_>,
    mut changes: Vec<Pred>,
) -> Result<Last, PathError>
    requires solvable { IsSolvable (P.problem problem.now) start.items }
    requires loops { length loops.now.nodes.items ≡ count (P.problem problem.now) }
    requires evaluated { IsEvaluated (P.problem problem.now) start.items evaluation.old }
    requires some { changes.items ≢ [] }
    requires changes { improvements (P.problem problem.now) evaluation.old.values ≡ Ok (spread (count (P.problem problem.now)) changes.items) }
    requires each { All (IsChangeOf (P.problem problem.now)) changes.items }
    requires ascend { Ascend (nodes_of changes.items) }
    ensures path { EndsWithLast (P.problem problem.now) start.items evaluation.new.values result }
    ensures best { IfOk result (λ last. IsBestFrom (P.problem problem.now) start.items last.policy.items evaluation.new.values) }
{
    solution_law();
    let dependents = dependents_of(alloc, problem)?;
    let mut marks = Marks::empty(alloc, problem.count())?;
    let mut policy = start;
    let mut round = 0u64;
    'rounds: loop {
        policy = next_policy(policy, &changes);
        round = round.saturating_add(1);
        let scope = Scope::of_changes(alloc, problem, &dependents, &policy, &changes, &mut marks)?;
        match round_of(alloc, problem, &policy, loops, evaluation, &scope) {
            Ok(next) if next.is_empty() => return Ok(Last { round, policy }),
            Ok(next) => changes = next,
            Err(error) => return Err(path_error(error, round, policy)),
        }
    }
}

/// The path from a start policy, with room for an evaluation, which is then that of its last policy.
fn last_of<P: ShortestPath>(
    alloc: Global,
    problem: &P,
    start: Vec<u32>,
    evaluation: &mut Evaluation<'_>,
) -> Result<Last, PathError>
    requires solvable { IsSolvable (P.problem problem.now) start.items }
    requires room { HasRoom (count (P.problem problem.now)) evaluation.old }
    ensures path { EndsWithLast (P.problem problem.now) start.items evaluation.new.values result }
    ensures best { IfOk result (λ last. IsBestFrom (P.problem problem.now) start.items last.policy.items evaluation.new.values) }
{
    solution_law();
    let loops = Loops::new(alloc, problem.count())?;
    match first_round(alloc, problem, &start, &loops, evaluation) {
        Ok(changes) if changes.is_empty() => Ok(Last {
            round: 0,
            policy: start,
        }),
        Ok(changes) => improve_further(alloc, problem, &loops, start, evaluation, changes),
        Err(error) => Err(path_error(error, 0, start)),
    }
}

/// Policy iteration from a start policy (Howard 1960): the last policy of the path, its round and its values, or the first term past width. The rows
/// of its evaluations stand in an arena, which it makes and drops.
pub fn improve<P: ShortestPath>(
    alloc: Global,
    problem: &P,
    start: Vec<u32>,
) -> Result<Solution, PathError>
    requires { IsSolvable (P.problem problem.now) start.items }
    ensures path { Ends (P.problem problem.now) start.items result }
    ensures best { IfOk result (λ found. IsBestFrom (P.problem problem.now) start.items found.policy.items found.values.items) }
{
    let arena = Bump::new(alloc);
    let mut evaluation = Evaluation::new(alloc, &arena, problem.count())?;
    match last_of(alloc, problem, start, &mut evaluation) {
        Ok(last) => Ok(Solution {
            round: last.round,
            policy: last.policy,
            values: evaluation.into_values(),
        }),
        Err(error) => Err(error),
    }
}
