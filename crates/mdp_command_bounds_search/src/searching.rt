ghost use Rattle.std.specs.Prelude.{◌≡◌, ◌⊎◌, Ok, Err, IfOk};
ghost use Rattle.mdp_command.specs.Prelude.{plain_query, no_memory, said};
ghost use Rattle.mdp_cert.specs.{BoundsPlain.{plain}, BoundsSpelling.{text_of}};
ghost use Rattle.mdp_command_bounds_search.specs.{Due.{IsBoundsDue}, Shown.{IsBoundsPrinted}};

use crate::bounding::bounds_of_query;
use crate::certificate::{certificate_of, claim_of};
use mdp_cert::{BoundsCert, bounds_text_law, write_bounds};
use mdp_check::bounds_checking_law;
use mdp_job::{Query, Refusal};
use mdp_rows::{Dir, Model};
use std::alloc::Global;

/// The text of a certificate.
fn certificate_text(alloc: Global, cert: &BoundsCert) -> Result<Vec<u8>, Refusal>
    ensures { (said result ≡ Err no_memory) ⊎ (said result ≡ Ok (text_of (plain cert.now))) }
{
    let mut text = Vec::new(alloc);
    write_bounds(cert, &mut text)?;
    Ok(text)
}

/// Looks for lower and upper values between which the greatest, or the least, values of the query lie: probabilities, rewards until a label, or mean
/// payoffs. Gives the text of their certificate, or the refusal of a query that doesn't fit the model. There are such bounds for every model that the
/// query fits, as `bounds_search_law` says. They are as near as the digits say, unless the exact query is too wide.
pub fn bounds_query(
    alloc: Global,
    model: &Model,
    dir: Dir,
    query: Query<'_>,
    digits: u32,
) -> Result<Vec<u8>, Refusal>
    ensures due { (said result ≡ Err no_memory) ⊎ IsBoundsDue dir (plain_query query.entry) model.now (said result) }
    ensures printed { IfOk (said result) (IsBoundsPrinted dir (plain_query query.entry) digits model.now) }
{
    model.known();
    bounds_checking_law();
    bounds_text_law();
    let body = bounds_of_query(alloc, model, dir, query, digits)?;
    let claim = claim_of(alloc, dir, query)?;
    let cert = certificate_of(model, claim, body);
    certificate_text(alloc, &cert)
}
