ghost use Rattle.std.specs.{Prelude.{ℕ, ◌≡◌, ◌<◌, length, Ok, OnOk, IfOk}, List.{All}};
ghost use Rattle.mdp_policy_iteration.specs.{Problem.{IsPolicy, count}, Values.{CanLeave}, Path.{improvements, path_step}};
ghost use Rattle.mdp_policy_iteration.specs.{Changes.{Ascend, IsChangeOf, spread, nodes_of}, Evaluated.{HasRoom, IsEvaluated, CanServe}};
ghost use Rattle.mdp_policy_iteration.specs.{Scope.{NoneImprovesElsewhere}, Ends.{Makes}};

use crate::comparison::improvements;
use crate::errors::RoundError;
use crate::evaluation::Evaluation;
use crate::loops::Loops;
use crate::scope::Scope;
use crate::shortest_path::ShortestPath;
use mdp_rows::Pred;
use std::alloc::Global;

/// One round of a policy: it is evaluated at the affected nodes of the scope, and choices are compared at the compared ones. A node that isn't
/// affected has the value of the round before, and no choice improves a node that isn't compared. The changes; where there are none the path ends.
pub(crate) fn round_of<P: ShortestPath>(
    alloc: Global,
    problem: &P,
    policy: &[u32],
    loops: &Loops,
    evaluation: &mut Evaluation<'_>,
    scope: &Scope,
) -> Result<Vec<Pred>, RoundError>
    requires policy { IsPolicy (P.problem problem.now) policy.now }
    requires leaves { CanLeave (P.problem problem.now) policy.now }
    requires loops { length loops.now.nodes.items ≡ count (P.problem problem.now) }
    requires affected_below { All (λ s. s < count (P.problem problem.now)) scope.now.affected }
    requires affected_ascend { Ascend scope.now.affected }
    requires compared_below { All (λ s. s < count (P.problem problem.now)) scope.now.compared }
    requires compared_ascend { Ascend scope.now.compared }
    requires serves { CanServe (P.problem problem.now) scope.now.affected policy.now evaluation.old }
    requires others { NoneImprovesElsewhere (P.problem problem.now) scope.now evaluation.old.values }
    ensures evaluated { OnOk result (IsEvaluated (P.problem problem.now) policy.now evaluation.new) }
    ensures changes { IfOk result (λ changes. improvements (P.problem problem.now) evaluation.new.values
        ≡ Ok (spread (count (P.problem problem.now)) changes.items)) }
    ensures each { IfOk result (λ changes. All (IsChangeOf (P.problem problem.now)) changes.items) }
    ensures ascend { IfOk result (λ changes. Ascend (nodes_of changes.items)) }
    ensures step { (n : ℕ) → Makes n policy.now evaluation.new.values result
        (path_step (P.problem problem.now) (record { number = n; policy = policy.now })) }
{
    evaluation.evaluate(alloc, problem, policy, loops, &scope.affected)?;
    improvements(alloc, problem, evaluation.values(), &scope.compared)
}

/// The first round of a path: the policy is evaluated at all nodes, and choices are compared at all.
pub(crate) fn first_round<P: ShortestPath>(
    alloc: Global,
    problem: &P,
    policy: &[u32],
    loops: &Loops,
    evaluation: &mut Evaluation<'_>,
) -> Result<Vec<Pred>, RoundError>
    requires policy { IsPolicy (P.problem problem.now) policy.now }
    requires leaves { CanLeave (P.problem problem.now) policy.now }
    requires loops { length loops.now.nodes.items ≡ count (P.problem problem.now) }
    requires room { HasRoom (count (P.problem problem.now)) evaluation.old }
    ensures evaluated { OnOk result (IsEvaluated (P.problem problem.now) policy.now evaluation.new) }
    ensures changes { IfOk result (λ changes. improvements (P.problem problem.now) evaluation.new.values
        ≡ Ok (spread (count (P.problem problem.now)) changes.items)) }
    ensures each { IfOk result (λ changes. All (IsChangeOf (P.problem problem.now)) changes.items) }
    ensures ascend { IfOk result (λ changes. Ascend (nodes_of changes.items)) }
    ensures step { (n : ℕ) → Makes n policy.now evaluation.new.values result
        (path_step (P.problem problem.now) (record { number = n; policy = policy.now })) }
{
    let scope = Scope::all(alloc, problem.count())?;
    round_of(alloc, problem, policy, loops, evaluation, &scope)
}
