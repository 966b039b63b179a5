ghost use Rattle.std.specs.Prelude.{◌≡◌, ◌⊎◌, ◌<◌, Err, IfOk};
ghost use Rattle.mdp_command.specs.Prelude.{no_memory, said};
ghost use Rattle.mdp_discount_rules.specs.{Cert.{IsInitNarrow, Fits}, Plain.{plain}, Rules.{IsFactor}};
ghost use Rattle.mdp_discount_text.specs.Spelling.{text_of};
ghost use Rattle.mdp_command_solve.specs.{DiscountDue.{IsDiscountDue}, DiscountShown.{IsDiscountPrinted}};

use mdp_discount::{discount_law, solve_discount};
use mdp_discount_rules::{DiscountCert, Init};
use mdp_discount_text::{discount_text_law, write_discount};
use mdp_job::Refusal;
use mdp_num::Frac;
use mdp_rows::{Dir, Model};
use mdp_text::{all_narrow, all_short};
use mdp_wide::SolveError;
use std::alloc::Global;

/// The value of the initial state is in width, and it isn't infinite where the line is one of a discounted reward.
fn init_narrow(cert: &DiscountCert)
    ensures { IsInitNarrow cert.now.init }
{
    if let Init::Finite(_, value) = &cert.init {
        value.num();
    }
}

/// A certificate has a text.
fn fits(cert: &DiscountCert)
    ensures { Fits (plain cert.now) }
{
    init_narrow(cert);
    cert.factor.num();
    cert.remainder.num();
    all_narrow(&cert.values);
    all_short(&cert.choices);
}

/// The text of a certificate.
fn certificate_text(alloc: Global, cert: &DiscountCert) -> Result<Vec<u8>, Refusal>
    ensures { (said result ≡ Err no_memory) ⊎ (said result ≡ Ok (text_of (plain cert.now))) }
{
    let mut text = Vec::new(alloc);
    match write_discount(cert, &mut text) {
        Ok(()) => Ok(text),
        Err(_) => Err(Refusal::Memory),
    }
}

/// The text of the certificate of the greatest or the least rewards of this name, where a step later counts `factor` times as much, or its refusal:
/// the name is looked up first. The factor is at least 0 and below 1.
pub fn discount_query(
    alloc: Global,
    model: &Model,
    dir: Dir,
    name: &[u8],
    factor: Frac,
) -> Result<Vec<u8>, Refusal>
    requires { IsFactor factor }
    ensures due { (said result ≡ Err no_memory) ⊎ IsDiscountDue dir name.now factor model.now (said result) }
    ensures printed { IfOk (said result) (IsDiscountPrinted dir name.now factor model.now) }
{
    model.known();
    discount_law();
    discount_text_law();
    let Some(place) = model.reward_named(name) else {
        return Err(Refusal::QueryReward);
    };
    let cert = match solve_discount(alloc, model, place, name, dir, factor) {
        Ok(cert) => cert,
        Err(SolveError::TooWide(wide)) => return Err(Refusal::TooWide(wide)),
        Err(SolveError::Memory) => return Err(Refusal::Memory),
    };
    fits(&cert);
    certificate_text(alloc, &cert)
}
