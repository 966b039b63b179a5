ghost use Rattle.mdp_command_solve.specs.DiscountLaws.{IsDueOnce, TextIsAccepted, TextIsAnswer};

use mdp_discount::discount_law;

/// Laws of `discount`. One thing is due to it, and a text that is due spells an answer of its claim: it meets the rules of certificates, and its
/// values are the greatest, or the least, discounted rewards. What is printed is accepted by `discount-check`.
pub fn discount_step_law()
    ensures once { IsDueOnce }
    ensures accepted { TextIsAccepted }
    ensures answer { TextIsAnswer }
{
    discount_law();
}
