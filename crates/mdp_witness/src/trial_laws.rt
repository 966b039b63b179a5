ghost use Rattle.mdp_witness.specs.TrialLaws.{FirstReaches, LeastFirstReaches, VisitsAreExact};
ghost use Rattle.mdp_witness.specs.TrialLaws.{VisitsLeaveOne, VisitsLeftReach, VisitsLeftAreNeeded, ValuesLeaveOne, ValuesLeftReach};
ghost use Rattle.mdp_witness.specs.TrialLaws.{ValuesLeftAreNeeded};
ghost use Rattle.mdp_witness.specs.TrialLaws.{MaxKeptAreNeeded, MinKeptAreNeeded, MaxKeptIsFlow, MinKeptIsFloor};

use mdp_reach::query_law;

/// The first set can be tried: no goal is in it, and its value is at least each threshold that the best probability reaches. For the greatest
/// probability the policy leaves it.
pub fn first_law()
    ensures first { FirstReaches }
    ensures least { LeastFirstReaches }
{
    query_law();
}

/// The visits of a set are the expected visits of the policy in it, and their value is that of the policy's flows.
pub fn evaluation_law()
    ensures visits { VisitsAreExact }
{}

/// The trials of a first set leave one set. What they leave still reaches the threshold, where the first set does; and in the trial of each state
/// that stays and isn't marked as wide the set fell below the threshold. So for both directions.
pub fn left_law()
    ensures max_one { VisitsLeaveOne }
    ensures max_reaches { VisitsLeftReach }
    ensures max_needed { VisitsLeftAreNeeded }
    ensures min_one { ValuesLeaveOne }
    ensures min_reaches { ValuesLeftReach }
    ensures min_needed { ValuesLeftAreNeeded }
{
    query_law();
}

/// What the trials leave meets the rules of a certificate at the threshold, and is within the first set. For the greatest probability the flows of
/// its visits do, and they are the policy's; for the least one the values and ranks of its query.
pub fn kept_law()
    ensures max { MaxKeptIsFlow }
    ensures min { MinKeptIsFloor }
{
    query_law();
}

/// No state of what the trials leave can go alone, where it isn't marked as wide: without it the policy falls short of the threshold, for the
/// least probability some policy.
pub fn needed_law()
    ensures max { MaxKeptAreNeeded }
    ensures min { MinKeptAreNeeded }
{
    query_law();
}
