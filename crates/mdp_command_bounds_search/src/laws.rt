ghost use Rattle.mdp_command_bounds_search.specs.DiscountLaws.{HasADiscountText, DiscountTextLiesBetween, OnlyDiscountTextsAreDue};
ghost use Rattle.mdp_command_bounds_search.specs.DiscountLaws.{DiscountTextIsAccepted};
ghost use Rattle.mdp_command_bounds_search.specs.Laws.{HasAText, TextLiesBetween, OnlyTextsAreDue, TextIsAccepted};
ghost use Rattle.mdp_command_bounds_search.specs.WitnessLaws.{TextExcludesRefusals, TextIsShown, WitnessTextIsAccepted};

use mdp_cert::bounds_text_law;
use mdp_check::bounds_checking_law;
use mdp_discount::discount_law;
use mdp_discount_rules::discount_bounds_law;
use mdp_discount_text::discount_bounds_text_law;
use mdp_graph::{along_law, avoid_law, meet_law, rounds_law, sure_all_law};
use mdp_mean::mean_law;
use mdp_policy_iteration::path_law;
use mdp_subsystem_bounds::{subsystem_bounds_law, subsystem_bounds_text_law};

/// Laws of what is due to `bounds`: some text is, to each query that fits its model, with values as near as any digits say, unless the exact query is
/// too wide; between the lower and the upper values of a text that is due lie the greatest, or the least, probabilities, rewards until a label or
/// mean payoffs, and those of its policy; where a text is due, only texts are; and `bounds-check` accepts what is printed.
pub fn bounds_search_law()
    ensures text { HasAText }
    ensures between { TextLiesBetween }
    ensures refusals { OnlyTextsAreDue }
    ensures accepted { TextIsAccepted }
{
    bounds_checking_law();
    bounds_text_law();
    path_law();
    along_law();
    avoid_law();
    meet_law();
    rounds_law();
    sure_all_law();
    mdp_reach::query_law();
    mdp_reward::query_law();
    mean_law();
}

/// Laws of what is due to `bounds` of a discounted reward: some text is, to each name that its model has, with values as near as any digits say,
/// unless the exact query, or a check of its answer as bounds, is too wide; between the lower and the upper values of a text that is due lie the
/// greatest, or the least, discounted rewards, and those of its policy; where a text is due, only texts are; and `bounds-check` accepts what is
/// printed.
pub fn bounds_discount_search_law()
    ensures text { HasADiscountText }
    ensures between { DiscountTextLiesBetween }
    ensures refusals { OnlyDiscountTextsAreDue }
    ensures accepted { DiscountTextIsAccepted }
{
    discount_bounds_law();
    discount_bounds_text_law();
    discount_law();
}

/// Laws of what is due to `bounds` of a witness: a text that is due is that of a true certificate with true marks; where a text is due no refusal is,
/// but that the threshold lies between a lower and an upper value of the best probability; and `bounds-check` accepts what is printed.
pub fn bounds_witness_law()
    ensures shown { TextIsShown }
    ensures refusals { TextExcludesRefusals }
    ensures accepted { WitnessTextIsAccepted }
{
    subsystem_bounds_law();
    subsystem_bounds_text_law();
}
