ghost use Rattle.std.specs.Prelude.{◌≡◌, Ok, IfOk, IfErr};
ghost use Rattle.mdp_text.specs.{Answer.{Refuses}, Lines.{nothing_behind}};
ghost use Rattle.mdp_discount_rules.specs.BoundsPlain.{plain};
ghost use Rattle.mdp_discount_text.specs.Reading.{outcome};

use crate::bounds_head_lines::head_from;
use crate::bounds_state_lines::bounds_of;
use mdp_cert::{Version, entries_to_end};
use mdp_discount_rules::DiscountBoundsCert;
use mdp_text::{CertError, CertKind, is_line, next_line, nothing_behind};
use std::alloc::Global;

/// Reads a certificate of bounds of the discounted reward: the bytes are its text, or the refusal names the first line that breaks a rule.
#[tactic(auto, unfolding(crate::specs::Reading::outcome))]
pub fn read_discount_bounds(alloc: Global, bytes: &[u8]) -> Result<DiscountBoundsCert, CertError>
    ensures read { IfOk result (λ c. outcome bytes.now ≡ Ok (plain c)) }
    ensures refused { IfErr result (λ e. Refuses e (outcome bytes.now)) }
{
    let (text, rest) = next_line(1, bytes)?;
    is_line(CertKind::Version, b"mdp-bounds 1", 1, text)?;
    let (head, rest) = head_from(alloc, rest)?;
    let (entries, line, rest) = entries_to_end(alloc, Version::Two, head.states, 6, rest)?;
    nothing_behind(line, rest)?;
    let bounds = bounds_of(alloc, head.remainder, &entries)?;
    Ok(DiscountBoundsCert {
        dir: head.claim.dir,
        name: head.claim.name,
        factor: head.claim.factor,
        init: head.init,
        bounds,
    })
}
