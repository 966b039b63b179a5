ghost use Rattle.mdp_policy.specs.ChainLaws.{KeepsChoices, TreesAreOwn, ReachIsOwn, ReachBoundsAreOwn, RewardIsOwn, RewardBoundsAreOwn, MeanIsOwn};
ghost use Rattle.mdp_policy.specs.ChainLaws.{MeanBoundsAreOwn, BoundedIsOwn, DiscountIsOwn, TotalIsOwn, StepBoundsAreOwn, DiscountBoundsAreOwn};

/// Laws of the chain of a policy: what it keeps of the model, that each of its trees has what the policy's own tree has, and that the greatest and
/// the least values of it, for each objective, are the policy's own.
pub fn chain_law()
    ensures chain { KeepsChoices }
    ensures trees { TreesAreOwn }
    ensures reach { ReachIsOwn }
    ensures reach_bounds { ReachBoundsAreOwn }
    ensures reward { RewardIsOwn }
    ensures reward_bounds { RewardBoundsAreOwn }
    ensures mean { MeanIsOwn }
    ensures mean_bounds { MeanBoundsAreOwn }
    ensures bounded { BoundedIsOwn }
    ensures total { TotalIsOwn }
    ensures step_bounds { StepBoundsAreOwn }
    ensures discount { DiscountIsOwn }
    ensures discount_bounds { DiscountBoundsAreOwn }
{}
