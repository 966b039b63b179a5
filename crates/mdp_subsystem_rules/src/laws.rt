ghost use Rattle.mdp_spec.specs.UntilLaws.{IsOneSubsystem, IsHitWhereKeptStay, UntilIsReach, ReachIsUntil};
ghost use Rattle.mdp_spec.specs.UntilLaws.{UntilBySub, SubByUntil, UntilLies, UntilIsUnique};
ghost use Rattle.mdp_subsystem_rules.specs.Until.{SubUntilMaxBySub, SubUntilMaxWithinBySub, SubUntilMinBySub};
ghost use Rattle.mdp_subsystem_rules.specs.Laws.{FloorShows, FlowShows, PolicyShows, LeastIsFloor, VisitsAreFlow, VisitsBound, TreesReachMore};
ghost use Rattle.mdp_subsystem_rules.specs.Laws.{WholeIsModel, GreatestGrows, LeastGrows, LeastFallsShort, PolicyFallsShort};
ghost use Rattle.mdp_subsystem_rules.specs.Laws.{VisitsFallShort, ShortIsNoFloor, FlowNeverNo, FloorNeverNo, FlowNoRefutes, FloorNoRefutes};
ghost use Rattle.mdp_subsystem_rules.specs.Laws.{FlowSaysAll, FloorSaysAll};
ghost use Rattle.mdp_subsystem_rules.specs.Laws.{ListedAreMarks, ListedFlowShape, ListedFloorShape, ListedMeetsFloor};

/// A floor that meets its rules bounds the least probability of meeting a goal on its subsystem from below.
pub fn floor_law()
    ensures shows { FloorShows }
{}

/// A flow that meets its rules bounds the greatest probability from below, and says at which depth it is close. Flows of one policy bound that
/// policy's probability.
pub fn flow_law()
    ensures shows { FlowShows }
    ensures policy { PolicyShows }
{}

/// Certificates that are made so meet the rules: the values and ranks of the least probability on the subsystem, and the flows of expected visits.
/// Such flows also bound the policy's probability from above.
pub fn made_law()
    ensures floor { LeastIsFloor }
    ensures flow { VisitsAreFlow }
    ensures bound { VisitsBound }
{}

/// With fewer kept states no probability is greater: for trees of one depth, and for the greatest and the least probabilities.
pub fn fewer_law()
    ensures trees { TreesReachMore }
    ensures whole { WholeIsModel }
    ensures greatest { GreatestGrows }
    ensures least { LeastGrows }
{}

/// Until by way of states that stay is reaching a goal on the subsystem that keeps them: each tree of the model has one of the subsystem that
/// comes to the same, and the other way round. So values and a policy of the subsystem for reaching a goal are values and a policy of the model
/// for until, and those of until are unique. A subsystem of that one whose kept states all stay is one of the model, and there each tree comes
/// to the same for both. Whatever a subsystem of that one keeps, what it comes to for reaching a goal, the subsystem of the model with the same
/// kept states comes to for until.
pub fn stay_law()
    ensures there { UntilIsReach }
    ensures back { ReachIsUntil }
    ensures by_sub { UntilBySub }
    ensures to_sub { SubByUntil }
    ensures lies { UntilLies }
    ensures one { UntilIsUnique }
    ensures one_sub { IsOneSubsystem }
    ensures kept { IsHitWhereKeptStay }
    ensures sub_max { SubUntilMaxBySub }
    ensures within { SubUntilMaxWithinBySub }
    ensures sub_min { SubUntilMinBySub }
{}

/// A subsystem whose least probability is under the threshold falls short of it, and so does each smaller one; the same of one policy's
/// probability. A subsystem that falls short has no floor at the threshold.
pub fn short_law()
    ensures least { LeastFallsShort }
    ensures policy { PolicyFallsShort }
    ensures visits { VisitsFallShort }
    ensures no_floor { ShortIsNoFloor }
{}

/// A certificate that meets its rules in exact numbers is never answered no: its checks end with yes or with a term past width.
pub fn never_no_law()
    ensures flow { FlowNeverNo }
    ensures floor { FloorNeverNo }
{}

/// What a no means: the named state is one of the model, and what the named rule says of that state and choice is false in exact numbers.
pub fn refuted_law()
    ensures flow { FlowNoRefutes }
    ensures floor { FloorNoRefutes }
{}

/// What the rules say of all places is together what they ask: no more, and no less.
pub fn says_law()
    ensures flow { FlowSaysAll }
    ensures floor { FloorSaysAll }
{}

/// What is listed of marks, values and ranks per state: the listed states have those marks, the lists have the shape of certificates, and a floor
/// that meets its rules meets them as it is listed.
pub fn listed_law()
    ensures marks { ListedAreMarks }
    ensures flow_shape { ListedFlowShape }
    ensures floor_shape { ListedFloorShape }
    ensures floor { ListedMeetsFloor }
{}
