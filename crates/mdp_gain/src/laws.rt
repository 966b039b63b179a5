ghost use Rattle.mdp_gain.specs.Laws.{HasOneEnd, AnswersAreBest, HasOneGain, NoPolicyIsBetter, NoTreeEarnsMore, NoTreeEarnsLess};
ghost use Rattle.mdp_gain.specs.Laws.{StepImproves, NoPolicyTwice};

use mdp_elim::solution_law;

/// A query of the best gain of an end component has exactly one end. Where that is an answer, its gain is the best: one number alone has such a bias,
/// and no policy of the component with one closed class, and no tree of its choices, earns more in the long run (for the least gain: less).
pub fn gain_law()
    ensures one_end { HasOneEnd }
    ensures best { AnswersAreBest }
    ensures only { HasOneGain }
    ensures policies { NoPolicyIsBetter }
    ensures more { NoTreeEarnsMore }
    ensures less { NoTreeEarnsLess }
{
    solution_law();
}

/// Each step of the path of such a query improves the policy: its gain is better, or its gain is the same and its bias is worse nowhere and better
/// somewhere. So no policy comes twice.
pub fn improvement_law()
    ensures step { StepImproves }
    ensures none_twice { NoPolicyTwice }
{
    solution_law();
}
