ghost use Rattle.mdp_quot.specs.ExitsLaws.{StepsHaveOneEnd, OuterHasOneEnd, StepsEnd, OuterEnds, StepsAreLongest, OuterIsBest, NoneTakesMore};
ghost use Rattle.mdp_quot.specs.ExitsLaws.{NoneIsBetter, ChosenExitsLeave, OuterPoliciesLeave};

use mdp_policy_iteration::{evaluation_law, path_law};

/// Each of the two queries has one end at most, and has one over the quotient of a model. Where that is an answer, it is the greatest expected number
/// of exits from each node, or a policy with the best gains: no choice of exits takes more of them, and no policy of exits comes to better gains.
/// Each policy that they evaluate leaves its active nodes, so the system of its values has exactly one solution.
pub fn exits_law()
    ensures longest_once { StepsHaveOneEnd }
    ensures outer_once { OuterHasOneEnd }
    ensures longest_ends { StepsEnd }
    ensures outer_ends { OuterEnds }
    ensures longest { StepsAreLongest }
    ensures best { OuterIsBest }
    ensures none_longer { NoneTakesMore }
    ensures none_better { NoneIsBetter }
    ensures longest_leaves { ChosenExitsLeave }
    ensures outer_leaves { OuterPoliciesLeave }
{
    path_law();
    evaluation_law();
}
