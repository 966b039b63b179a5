ghost use Rattle.mdp_command_horizon.specs.{BoundsLaws.{UntilTextIsBetween, TotalTextIsBetween}, CurveLaws.{UntilTextIsCurve, TotalTextIsCurve}};
ghost use Rattle.mdp_command_horizon.specs.Laws.{TextIsAnswer, TotalTextIsAnswer};

use mdp_horizon::{total_law, until_law};

/// A law of `horizon`: a text that is due spells values that are the greatest, or the least, probabilities, and a table whose tree meets them.
pub fn horizon_law()
    ensures { TextIsAnswer }
{
    until_law();
}

/// The same of `total` for a reward name: the values are the greatest, or the least, total rewards.
pub fn total_text_law()
    ensures { TotalTextIsAnswer }
{
    total_law();
}

/// The same of `bounds` within a number of steps: a text that is due spells lower and upper values, between which the best ones lie, and a table that
/// comes to the lower ones, or for the least doesn't pass the upper ones.
pub fn horizon_bounds_law()
    ensures until { UntilTextIsBetween }
    ensures total { TotalTextIsBetween }
{}

/// The same of `curve`: a text that is due spells for each number of steps a lower and an upper value of the one initial state, between which the
/// best one lies.
pub fn horizon_curve_law()
    ensures until { UntilTextIsCurve }
    ensures total { TotalTextIsCurve }
{}
