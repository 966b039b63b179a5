ghost use Rattle.std.specs.Prelude.{◌≡◌, Ok, IfOk, IfErr};
ghost use Rattle.mdp_text.specs.{Answer.{Refuses}, Lines.{nothing_behind}};
ghost use Rattle.mdp_discount_rules.specs.Plain.{plain};
ghost use Rattle.mdp_discount_text.specs.Text.{outcome};

use crate::head_lines::head_from;
use mdp_cert::{First, Others, Pair, Version, column_of, entries_to_end};
use mdp_discount_rules::DiscountCert;
use mdp_num::Frac;
use mdp_text::{CertError, CertKind, is_line, next_line, nothing_behind};
use std::alloc::Global;

/// Reads a certificate of the discounted reward: the bytes are its text, or the refusal names the first line that breaks a rule.
#[tactic(auto, unfolding(crate::specs::Text::outcome))]
pub fn read_discount(alloc: Global, bytes: &[u8]) -> Result<DiscountCert, CertError>
    ensures read { IfOk result (λ c. outcome bytes.now ≡ Ok (plain c)) }
    ensures refused { IfErr result (λ e. Refuses e (outcome bytes.now)) }
{
    let (text, rest) = next_line(1, bytes)?;
    is_line(CertKind::Version, b"mdp-discount 1", 1, text)?;
    let (head, rest) = head_from(alloc, rest)?;
    let (entries, line, rest) = entries_to_end::<Pair<Frac, u32>>(
        alloc,
        Version::One,
        head.states,
        6,
        rest,
    )?;
    nothing_behind(line, rest)?;
    let values = column_of::<First, _>(alloc, &entries)?;
    let choices = column_of::<Others, _>(alloc, &entries)?;
    Ok(DiscountCert {
        dir: head.claim.dir,
        name: head.claim.name,
        factor: head.claim.factor,
        init: head.init,
        remainder: head.remainder,
        values,
        choices,
    })
}
