ghost use Rattle.mdp_discount_rules.specs.Laws.{RulesBound, HasOneValue, YesIsAccepted, AcceptedIsBound};
ghost use Rattle.mdp_discount_rules.specs.Laws.{DiscountNeverNo, DiscountNoRefutes, DiscountSaysAll};

/// What meets the rules is bounded by its remainder, and there is one such list of values at most. A check says yes exactly of what is accepted, and
/// its claim is true.
pub fn discount_rules_law()
    ensures bound { RulesBound }
    ensures one_value { HasOneValue }
    ensures accepted { YesIsAccepted }
    ensures true_claim { AcceptedIsBound }
{}

/// What a no means: the named state is one of the model, and what the named rule says of that state and choice is false in exact numbers. So what
/// meets the rules is never answered no. What the rules say of all places is together what they ask: no more, and no less.
pub fn discount_no_law()
    ensures never_no { DiscountNeverNo }
    ensures refuted { DiscountNoRefutes }
    ensures says { DiscountSaysAll }
{}
