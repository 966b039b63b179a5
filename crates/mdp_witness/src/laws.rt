ghost use Rattle.mdp_witness.specs.Laws.{HasOneEnd, HasAnEnd, FoundHaveShape, FoundHold, FoundReachMax, FoundReachMin, PoliciesReach};
ghost use Rattle.mdp_witness.specs.Laws.{FoundNeededMax, FoundNeededMin, FoundMarkedMax, FoundMarkedMin, BelowIsBest};

use crate::trial_laws::{first_law, kept_law, left_law, needed_law};
use mdp_reach::query_law;
use mdp_subsystem_rules::{fewer_law, floor_law, flow_law, listed_law};

/// The query of a witness has exactly one end for each model and start. A subsystem that is found has a certificate that holds; it reaches the
/// threshold, by some policy or by each, and for the greatest probability by the policy of the model's query; each of its states that isn't marked as
/// wide is needed, and those that are so marked are those in whose trial a term is past width. Where there is none since the best probability is
/// below the threshold, the value given is that probability.
pub fn witness_law()
    ensures one_end { HasOneEnd }
    ensures ends { HasAnEnd }
    ensures shape { FoundHaveShape }
    ensures holds { FoundHold }
    ensures sub_max { FoundReachMax }
    ensures sub_min { FoundReachMin }
    ensures policy { PoliciesReach }
    ensures needed_max { FoundNeededMax }
    ensures needed_min { FoundNeededMin }
    ensures wide_max { FoundMarkedMax }
    ensures wide_min { FoundMarkedMin }
    ensures below { BelowIsBest }
{
    query_law();
    first_law();
    left_law();
    kept_law();
    needed_law();
    fewer_law();
    listed_law();
    flow_law();
    floor_law();
}
