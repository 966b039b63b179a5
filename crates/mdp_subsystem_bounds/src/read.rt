ghost use Rattle.std.specs.Prelude.{◌≡◌, Ok, IfOk, IfErr};
ghost use Rattle.mdp_text.specs.{Answer.{Refuses}, Lines.{nothing_behind}};
ghost use Rattle.mdp_check.specs.Initial.{start_of};
ghost use Rattle.mdp_subsystem_bounds.specs.{Plain.{plain}, Reading.{outcome}};

use crate::cert::SubsystemBoundsCert;
use crate::head_lines::head_from;
use crate::state_lines::lists_from;
use mdp_text::{CertError, CertKind, Init, is_line, next_line, nothing_behind};
use std::alloc::Global;

/// The state of the line `init`.
fn start_of(init: &Init) -> u32
    ensures { result ≡ start_of init.now }
{
    match init {
        Init::Missing => 0,
        Init::Finite(state, _) | Init::Infinite(state) | Init::Start(state) => *state,
    }
}

/// Reads a certificate of bounds of a subsystem: the bytes are its text, or the refusal names the first line that breaks a rule.
#[tactic(auto, unfolding(crate::specs::Reading::outcome))]
pub fn read_subsystem_bounds(alloc: Global, bytes: &[u8]) -> Result<SubsystemBoundsCert, CertError>
    ensures read { IfOk result (λ c. outcome bytes.now ≡ Ok (plain c)) }
    ensures refused { IfErr result (λ e. Refuses e (outcome bytes.now)) }
{
    let (text, rest) = next_line(1, bytes)?;
    is_line(CertKind::Version, b"mdp-bounds 1", 1, text)?;
    let (head, rest) = head_from(alloc, rest)?;
    let (lists, line, rest) = lists_from(alloc, head.claim.dir, head.states, rest)?;
    nothing_behind(line, rest)?;
    Ok(SubsystemBoundsCert {
        dir: head.claim.dir,
        stay: head.claim.stay,
        label: head.claim.label,
        threshold: head.claim.threshold,
        start: start_of(&head.init),
        lists,
    })
}
