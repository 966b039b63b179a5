ghost use Rattle.std.specs.Prelude.{◌≡◌};
ghost use Rattle.mdp_check.specs.Check.{answer_of};

use mdp_farkas::{Fault, Verdict};

/// What the checker says of a certificate.
#[derive(Clone, Copy)]
pub enum Answer {
    /// The certificate holds: its claim is true of the model.
    Yes,
    /// The first rule that is false.
    No(Fault),
    /// A written term is past width before any rule is false.
    Wide {
        state: Option<u32>,
        choice: Option<u32>,
    },
    /// The claim's label isn't in the model.
    NoLabel,
    /// The claim's reward model isn't in the model.
    NoReward,
    /// The certificate has another number of states than the model.
    Size,
    /// Memory was refused.
    Memory,
}

/// The answer of a verdict.
pub fn answer_of(verdict: Verdict) -> Answer
    ensures { result ≡ answer_of verdict }
{
    match verdict {
        Verdict::Yes => Answer::Yes,
        Verdict::No(fault) => Answer::No(fault),
        Verdict::Wide { state, choice } => Answer::Wide { state, choice },
    }
}
