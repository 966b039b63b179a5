ghost use Rattle.std.specs.{Prelude.{◌≡◌, [], ◌∷◌}, Result.{result_ok}};
ghost use Rattle.mdp_farkas.specs.Verdict.{objection_to, verdict};

use mdp_claims::{Fault, Objection, Rule, Verdict};
use mdp_num::Wide;

/// Whether one check of a rule holds at a place, which may be none.
pub fn judged_at(
    holds: Result<bool, Wide>,
    rule: Rule,
    state: Option<u32>,
    choice: Option<u32>,
) -> Result<(), Objection>
    ensures { result ≡ objection_to (record { rule = rule; state = state; choice = choice; holds = result_ok holds } ∷ []) }
{
    match holds {
        Ok(true) => Ok(()),
        Ok(false) => Err(Objection::Broken(Fault {
            rule,
            state,
            choice,
        })),
        Err(Wide) => Err(Objection::PastWidth { state, choice }),
    }
}

/// Whether one check of a rule holds at a state.
pub fn judged(
    holds: Result<bool, Wide>,
    rule: Rule,
    state: u32,
    choice: Option<u32>,
) -> Result<(), Objection>
    ensures { result ≡ objection_to (record { rule = rule; state = Some state; choice = choice; holds = result_ok holds } ∷ []) }
{
    judged_at(holds, rule, Some(state), choice)
}

/// The verdict after a walk over all rules.
pub fn verdict_after(walk: Result<(), Objection>) -> Verdict
    ensures { result ≡ verdict walk }
{
    match walk {
        Ok(()) => Verdict::Yes,
        Err(Objection::Broken(fault)) => Verdict::No(fault),
        Err(Objection::PastWidth { state, choice }) => Verdict::Wide { state, choice },
    }
}
