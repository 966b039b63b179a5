ghost use Rattle.std.specs.Prelude.{◌≡◌, ◌⊎◌, Ok, Err, IfOk};
ghost use Rattle.mdp_command.specs.Prelude.{no_memory, said};
ghost use Rattle.mdp_discount_rules.specs.Rules.{IsFactor};
ghost use Rattle.mdp_discount_rules.specs.BoundsPlain.{plain};
ghost use Rattle.mdp_discount_text.specs.BoundsSpelling.{text_of};
ghost use Rattle.mdp_command_bounds_search.specs.{DiscountDue.{IsDiscountBoundsDue}, DiscountShown.{IsDiscountBoundsPrinted}};

use crate::discount_certificate::certificate_of;
use mdp_discount_rules::{DiscountBoundsCert, discount_bounds_law};
use mdp_discount_text::{discount_bounds_text_law, write_discount_bounds};
use mdp_job::Refusal;
use mdp_num::Frac;
use mdp_rows::{Dir, Model};
use mdp_search_bounds::bounds_discount;
use std::alloc::Global;

/// The text of a certificate.
fn certificate_text(alloc: Global, cert: &DiscountBoundsCert) -> Result<Vec<u8>, Refusal>
    ensures { (said result ≡ Err no_memory) ⊎ (said result ≡ Ok (text_of (plain cert.now))) }
{
    let mut text = Vec::new(alloc);
    write_discount_bounds(cert, &mut text)?;
    Ok(text)
}

/// Looks for lower and upper values between which the greatest, or the least, rewards of this name lie, where a step later counts `factor` times as
/// much. Gives the text of their certificate, or the refusal of a name that isn't there. There are such bounds for every model that has the name, as
/// `bounds_discount_search_law` says, though values may be missing. None is, and they are as near as the digits say, unless the exact query, or a
/// check of its answer as bounds, is too wide. The factor is at least 0 and below 1.
pub fn bounds_discount_query(
    alloc: Global,
    model: &Model,
    dir: Dir,
    name: &[u8],
    factor: Frac,
    digits: u32,
) -> Result<Vec<u8>, Refusal>
    requires { IsFactor factor }
    ensures due { (said result ≡ Err no_memory) ⊎ IsDiscountBoundsDue dir name.now factor model.now (said result) }
    ensures printed { IfOk (said result) (IsDiscountBoundsPrinted dir name.now factor digits model.now) }
{
    model.known();
    discount_bounds_law();
    discount_bounds_text_law();
    let Some(place) = model.reward_named(name) else {
        return Err(Refusal::QueryReward);
    };
    let bounds = bounds_discount(alloc, model, place, dir, &factor, digits)?;
    let cert = certificate_of(alloc, model, place, dir, name, factor, bounds)?;
    certificate_text(alloc, &cert)
}
