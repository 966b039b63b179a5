ghost use Rattle.mdp_policy_iteration.specs.Laws.{HasOneValue, EvaluatesExactly, StepsImprove, HasOneEnd, EndsAtBest, BestOfAll};

use mdp_elim::solution_law;

/// A policy that leaves its active nodes has exactly one list of values. Where no term is past width, written evaluation gives it.
pub fn evaluation_law()
    ensures one_value { HasOneValue }
    ensures exact { EvaluatesExactly }
{
    solution_law();
}

/// Where all policies leave their active nodes, or this one does and what is earned doesn't help, the next policy leaves its active nodes again;
/// its values are as good at each node, and better at some. So no policy comes twice.
pub fn step_law()
    ensures { StepsImprove }
{
    solution_law();
}

/// From a start that leaves its active nodes, where all policies do or what is earned doesn't help, policy iteration has exactly one end. Where it
/// is no term past width, it is a policy with its exact values, of which no candidate is better; and such a policy is as good at each node as any
/// other policy that leaves its active nodes.
pub fn path_law()
    ensures one_end { HasOneEnd }
    ensures best { EndsAtBest }
    ensures of_all { BestOfAll }
{
    solution_law();
}
