ghost use Rattle.mdp_discount_rules.specs.Laws.{RulesBound, HasOneValue, YesIsAccepted, AcceptedIsBound};
ghost use Rattle.mdp_discount.specs.Laws.{HasOneEnd, HasAnEnd, AnswersMeetRules, AnswersAreBest};

use mdp_discount_rules::discount_rules_law;
use mdp_policy_iteration::path_law;

/// What `discount_rules_law` says of the rules; and a query has exactly one end for each model, reward name and discount factor. Where that is an
/// answer, it meets the rules, and its values are the greatest, or the least, discounted rewards.
pub fn discount_law()
    ensures bound { RulesBound }
    ensures one_value { HasOneValue }
    ensures one_end { HasOneEnd }
    ensures ends { HasAnEnd }
    ensures rules { AnswersMeetRules }
    ensures best { AnswersAreBest }
    ensures accepted { YesIsAccepted }
    ensures true_claim { AcceptedIsBound }
{
    discount_rules_law();
    path_law();
}
