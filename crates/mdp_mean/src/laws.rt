ghost use Rattle.mdp_mean.specs.Laws.{HasOneEnd, HasAnEnd, JoinEndsQuery, JoinedMeetsRules, AnswersAreJoined, AnswersMeetRules, AnswersAreGreatest};
ghost use Rattle.mdp_mean.specs.Laws.{AnswersAreLeast};

use mdp_farkas::never_no_law;
use mdp_gain::gain_law;
use mdp_quot::exits_law;

/// A query of the mean payoff has exactly one end. Where each of its parts has an answer, that is the end of their join, and what is joined meets the
/// rules of certificates in exact numbers. Where the end is an answer, no term of its check is past width, and its gains are the greatest, or the
/// least, mean payoffs.
pub fn mean_law()
    ensures one_end { HasOneEnd }
    ensures ends { HasAnEnd }
    ensures joins { JoinEndsQuery }
    ensures joined { JoinedMeetsRules }
    ensures made { AnswersAreJoined }
    ensures rules { AnswersMeetRules }
    ensures max { AnswersAreGreatest }
    ensures min { AnswersAreLeast }
{
    gain_law();
    exits_law();
    never_no_law();
}
