ghost use Rattle.mdp_graph.specs.Laws.{ChoicesReach, RestStays, RowsFall, RowsStay, EachPolicyMeets, RestAvoids, ChoicesAreSure, ChoicesArrive};
ghost use Rattle.mdp_graph.specs.Laws.{SureAreMarked};
ghost use Rattle.mdp_graph.specs.Laws.{RoundsFall, ZeroIsSure, TreesMiss, PolicyAvoids, ChoicesMiss, RestMeets, StaysSure, TreesArrive, JoinedMisses};

/// By the choices of `may_reach` each marked state can come to a target within as many steps as its rank. No choice of a state that is neither
/// marked nor blocked leads to a marked state.
pub fn reach_law()
    ensures reaches { ChoicesReach }
    ensures rest { RestStays }
{}

/// Of the rows given to `along`, that of a marked state that is no target leads to a marked state of smaller rank, and that of any other
/// state to no marked one.
pub fn along_law()
    ensures falls { RowsFall }
    ensures rest { RowsStay }
{}

/// Under each policy a marked state of `must_meet` can come to a target within as many steps as its rank. A state that isn't marked has a choice
/// that leads to no marked one.
pub fn meet_law()
    ensures meets { EachPolicyMeets }
    ensures rest { RestAvoids }
{}

/// The choices of `sure_some` keep to the marked states and come from each of them to a goal, with probability 1. Each set of states with a
/// policy that keeps to it and can come from each to a goal is marked.
pub fn sure_some_law()
    ensures policy { ChoicesAreSure }
    ensures arrives { ChoicesArrive }
    ensures greatest { SureAreMarked }
{}

/// Outside the greatest sure set each choice has a successor outside of smaller round, or all its successors are outside with the same round.
/// The states of round 0 are those of `sure_some`. Under each policy with history and rational mixing a state of another round misses the goals
/// with some chance.
pub fn rounds_law()
    ensures fall { RoundsFall }
    ensures zero { ZeroIsSure }
    ensures misses { TreesMiss }
{}

/// The policy of `may_avoid` meets no goal from a marked state: its probability of coming to one is 0. From any other state each policy can
/// come to a goal.
pub fn avoid_law()
    ensures avoids { PolicyAvoids }
    ensures misses { ChoicesMiss }
    ensures rest { RestMeets }
{}

/// From a state of `sure_all` that is no goal each choice leads to such states alone. Under each policy with history and rational mixing such a
/// state comes to a goal with probability 1. From any other state the policy that goes to the states of `may_avoid` and stays there misses the
/// goals with some chance.
pub fn sure_all_law()
    ensures stays { StaysSure }
    ensures arrives { TreesArrive }
    ensures misses { JoinedMisses }
{}
