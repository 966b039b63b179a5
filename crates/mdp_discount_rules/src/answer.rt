ghost use Rattle.std.specs.Prelude.{◌≡◌};
ghost use Rattle.mdp_discount_rules.specs.Check.{answer_of};

use mdp_farkas::{Fault, Verdict};

/// What holding a certificate of the discounted reward against a model says.
#[derive(Clone, Copy)]
pub enum DiscountAnswer {
    /// The certificate holds: its claim is true of the model.
    Yes,
    /// The first rule that is false.
    No(Fault),
    /// A written term is past width before any rule is false.
    Wide {
        state: Option<u32>,
        choice: Option<u32>,
    },
    /// The claim's reward model isn't in the model.
    NoReward,
    /// The certificate has another number of states than the model.
    Size,
}

/// The answer of a verdict.
pub(crate) fn answer_of(verdict: Verdict) -> DiscountAnswer
    ensures { result ≡ answer_of verdict }
{
    match verdict {
        Verdict::Yes => DiscountAnswer::Yes,
        Verdict::No(fault) => DiscountAnswer::No(fault),
        Verdict::Wide { state, choice } => DiscountAnswer::Wide { state, choice },
    }
}
