ghost use Rattle.mdp_farkas.specs.Laws.{WideIsFirst, NoIsFirst};
ghost use Rattle.mdp_farkas.specs.Laws.{NoIsFalse, UpperNeverNo, ReachNeverNo, RewardNeverNo, MeanNeverNo};
ghost use Rattle.mdp_farkas.specs.Laws.{UpperNoRefutes, ReachNoRefutes, RewardNoRefutes, MeanNoRefutes};
ghost use Rattle.mdp_farkas.specs.Laws.{UpperSaysAll, ReachSaysAll, RewardSaysAll, MeanSaysAll};

/// What a no means: a check of the named rule at the named place is false; and a certificate that meets its rules in exact numbers is never
/// answered no, but with yes or with a term past width.
pub fn never_no_law()
    ensures named { NoIsFalse }
    ensures upper { UpperNeverNo }
    ensures reach { ReachNeverNo }
    ensures reward { RewardNeverNo }
    ensures mean { MeanNeverNo }
{}

/// What a no means: the named state is one of the model, and what the named rule says of that state and choice is false in exact numbers.
pub fn refuted_law()
    ensures upper { UpperNoRefutes }
    ensures reach { ReachNoRefutes }
    ensures reward { RewardNoRefutes }
    ensures mean { MeanNoRefutes }
{}

/// What the rules say of all places is together what they ask: no more, and no less.
pub fn says_law()
    ensures upper { UpperSaysAll }
    ensures reach { ReachSaysAll }
    ensures reward { RewardSaysAll }
    ensures mean { MeanSaysAll }
{}

/// What stands before the check that ended a walk over checks: those before one with a term past width, and those before a false one, all hold.
pub fn first_law()
    ensures wide { WideIsFirst }
    ensures no { NoIsFirst }
{}
