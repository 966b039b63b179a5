ghost use Rattle.mdp_discount_rules.specs.BoundsLaws.{RulesBetween, ExactIsBetween, YesIsAccepted, AcceptedIsBound};
ghost use Rattle.mdp_discount_rules.specs.BoundsLaws.{DiscountBoundsNeverNo, DiscountNoRefutes, DiscountMeetsSays};

/// What meets the rules bounds what policies earn, and exact values of the same query lie between. A check says yes exactly of what is accepted, and
/// its claim is true.
pub fn discount_bounds_law()
    ensures between { RulesBetween }
    ensures exact { ExactIsBetween }
    ensures accepted { YesIsAccepted }
    ensures true_claim { AcceptedIsBound }
{}

/// What a no means: what the named rule says of the named place is false in exact numbers. So bounds that meet their rules are never answered no; and
/// what a rule says of a place is no more than what the rules ask.
pub fn discount_bounds_no_law()
    ensures never_no { DiscountBoundsNeverNo }
    ensures refuted { DiscountNoRefutes }
    ensures says { DiscountMeetsSays }
{}
