ghost use Rattle.mdp_reward.specs.Laws.{HasOneEnd, HasAnEnd, AnswersMeetRules, AnswersAreGreatest, AnswersAreLeast};

use mdp_graph::{along_law, meet_law, rounds_law, sure_all_law};
use mdp_policy_iteration::path_law;

/// A query of the reward until a goal has one end at most, and one for each model under whose reward name no reward is below 0. Where that is an
/// answer, it meets the rules of certificates, no term of its check is past width, and its values are the greatest, or the least, rewards until a
/// goal.
pub fn query_law()
    ensures one_end { HasOneEnd }
    ensures ends { HasAnEnd }
    ensures rules { AnswersMeetRules }
    ensures max { AnswersAreGreatest }
    ensures min { AnswersAreLeast }
{
    along_law();
    meet_law();
    rounds_law();
    sure_all_law();
    path_law();
}
