ghost use Rattle.mdp_reach.specs.Laws.{HasOneEnd, HasAnEnd, HasOneRound, HasARound, AnswersMeetRules, AnswersAreGreatest, AnswersAreLeast};

use mdp_graph::{along_law, avoid_law, meet_law, reach_law};
use mdp_policy_iteration::path_law;

/// A query of reachability has exactly one end for each model, in one round. Where that is an answer, it meets the rules of certificates, no term of
/// its check is past width, and its values are the greatest, or the least, probabilities of reaching a goal.
pub fn query_law()
    ensures one_end { HasOneEnd }
    ensures ends { HasAnEnd }
    ensures one_round { HasOneRound }
    ensures round { HasARound }
    ensures rules { AnswersMeetRules }
    ensures max { AnswersAreGreatest }
    ensures min { AnswersAreLeast }
{
    along_law();
    avoid_law();
    meet_law();
    reach_law();
    path_law();
}
