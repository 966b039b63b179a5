ghost use Rattle.mdp_bounds.specs.Laws.{ReachBoundsNeverNo, RewardBoundsNeverNo, MeanBoundsNeverNo, ReachNoRefutes, RewardNoRefutes, MeanNoRefutes};
ghost use Rattle.mdp_bounds.specs.Laws.{ReachMeetsSays, RewardMeetsSays, MeanMeetsSays};
ghost use Rattle.mdp_bounds.specs.Order.{ReachIsOrdered, RewardIsOrdered, MeanIsOrdered, ReachLiesBetween, RewardLiesBetween, MeanLiesBetween};
ghost use Rattle.mdp_bounds.specs.Order.{SameReachIsExact, SameRewardIsExact, SameMeanIsExact};

/// Bounds that meet their rules in exact numbers are never answered no: their checks end with yes or with a sum past width.
pub fn never_no_law()
    ensures reach { ReachBoundsNeverNo }
    ensures reward { RewardBoundsNeverNo }
    ensures mean { MeanBoundsNeverNo }
{}

/// What a no means: what the named rule says of the named state and choice is false in exact numbers.
pub fn refuted_law()
    ensures reach { ReachNoRefutes }
    ensures reward { RewardNoRefutes }
    ensures mean { MeanNoRefutes }
{}

/// What a rule says of a place is no more than what the rules ask: bounds that meet their rules meet it at every place.
pub fn says_law()
    ensures reach { ReachMeetsSays }
    ensures reward { RewardMeetsSays }
    ensures mean { MeanMeetsSays }
{}

/// Of bounds that are true, whatever shows it, at each state: the lower value is at most the upper one.
pub fn order_law()
    ensures reach { ReachIsOrdered }
    ensures reward { RewardIsOrdered }
    ensures mean { MeanIsOrdered }
{}

/// Wherever exact values are known, they lie between bounds that are true.
pub fn between_law()
    ensures reach { ReachLiesBetween }
    ensures reward { RewardLiesBetween }
    ensures mean { MeanLiesBetween }
{}

/// Bounds that are true and whose two columns are the same are the exact values.
pub fn exact_law()
    ensures reach { SameReachIsExact }
    ensures reward { SameRewardIsExact }
    ensures mean { SameMeanIsExact }
{}
