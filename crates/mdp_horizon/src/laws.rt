ghost use Rattle.mdp_spec.specs.UntilLaws.{IsHitWhereAllStay};
ghost use Rattle.mdp_horizon.specs.Laws.{AnswersAreGreatest, AnswersAreLeast, HasOneGreatest, HasOneLeast, GreatestComeClose, LeastComeClose};
ghost use Rattle.mdp_horizon.specs.Laws.{TotalsAreGreatest, TotalsAreLeast, HasOneGreatestTotal, HasOneLeastTotal};
ghost use Rattle.mdp_horizon.specs.Laws.{GreatestLies, LeastLies, GreatestTotalLies, LeastTotalLies};

/// What written backward induction gives are the greatest, or the least, probabilities, and there are no others. Where each state stays, a bounded
/// until is the probability of meeting a goal in so many steps. With more and more steps the values come to those of the until without end.
pub fn until_law()
    ensures max { AnswersAreGreatest }
    ensures min { AnswersAreLeast }
    ensures one_max { HasOneGreatest }
    ensures one_min { HasOneLeast }
    ensures hit { IsHitWhereAllStay }
    ensures max_close { GreatestComeClose }
    ensures min_close { LeastComeClose }
{}

/// What written backward induction gives for a reward name are the greatest, or the least, total rewards, and there are no others.
pub fn total_law()
    ensures max { TotalsAreGreatest }
    ensures min { TotalsAreLeast }
    ensures one_max { HasOneGreatestTotal }
    ensures one_min { HasOneLeastTotal }
{}

/// Exact values lie between the lower and the upper values of the same query, where these are given.
pub fn between_law()
    ensures until_max { GreatestLies }
    ensures until_min { LeastLies }
    ensures total_max { GreatestTotalLies }
    ensures total_min { LeastTotalLies }
{}
