ghost use Rattle.std.specs.Prelude.{◌≡◌, false, Err, IfErr};
ghost use Rattle.mdp_cert.specs.Cert as cert;
ghost use Rattle.mdp_cert.specs.Reading as cert_text;
ghost use Rattle.mdp_cert.specs.BoundsCert as bounds;
ghost use Rattle.mdp_cert.specs.BoundsReading as bounds_text;
ghost use Rattle.mdp_discount_text.specs.Reading as discount_bounds_text;
ghost use Rattle.mdp_discount_text.specs.Text as discount_text;
ghost use Rattle.mdp_subsystem_bounds.specs.Reading as subsystem_text;
ghost use Rattle.mdp_policy.specs.Text.{policy_outcome};
ghost use Rattle.mdp_command_policy.specs.ChainDue.{choices_of_body, choices_of_bounds, in_certificate, in_bounds, in_discount, in_discount_bounds};
ghost use Rattle.mdp_command_policy.specs.ChainDue.{in_subsystem_bounds, in_policy, choices_in};
ghost use Rattle.mdp_command_policy.specs.Named.{Names, named};
ghost use Rattle.mdp_command.specs.Read.{is_of_model};

use mdp_cert::{Body, BoundsBody, CertError, read_bounds, read_cert};
use mdp_discount_text::{is_discount_claim, read_discount, read_discount_bounds};
use mdp_job::Refusal;
use mdp_policy::read_policy;
use mdp_subsystem_bounds::{is_subsystem_claim, read_subsystem_bounds};
use std::alloc::Global;

/// The choices of a certificate's body, or that it names none.
fn of_body(body: Body) -> Result<Vec<u32>, Refusal>
    ensures named { named result ≡ choices_of_body (cert.plain_body body) }
    ensures not_of_model { IfErr (named result) (λ e. is_of_model (Err e) ≡ false) }
{
    match body {
        Body::Reach(cert) => Ok(cert.choices),
        Body::Reward(cert) => Ok(cert.choices),
        Body::Mean(cert) => Ok(cert.choices),
        Body::Upper(_) => Err(Refusal::QueryChoice),
        Body::Flow(_) => Err(Refusal::QueryChoice),
        Body::Floor(_) => Err(Refusal::QueryChoice),
    }
}

/// The choices of the body of a certificate of bounds.
fn of_bounds(body: BoundsBody) -> Vec<u32>
    ensures { result.items ≡ choices_of_bounds (bounds.plain_body body) }
{
    match body {
        BoundsBody::Reach(cert) => cert.choices,
        BoundsBody::Reward(cert) => cert.choices,
        BoundsBody::Mean(cert) => cert.choices,
    }
}

/// The choices that a certificate names.
fn in_certificate(alloc: Global, bytes: &[u8]) -> Result<Vec<u32>, Refusal>
    ensures named { Names result (in_certificate (cert_text.outcome bytes.now)) }
    ensures not_of_model { IfErr (named result) (λ e. is_of_model (Err e) ≡ false) }
{
    of_body(read_cert(alloc, bytes)?.body)
}

/// The choices that a certificate of bounds names.
fn in_bounds(alloc: Global, bytes: &[u8]) -> Result<Vec<u32>, Refusal>
    ensures named { Names result (in_bounds (bounds_text.outcome bytes.now)) }
    ensures not_of_model { IfErr (named result) (λ e. is_of_model (Err e) ≡ false) }
{
    Ok(of_bounds(read_bounds(alloc, bytes)?.body))
}

/// The choices that a certificate of discounted rewards names.
fn in_discount(alloc: Global, bytes: &[u8]) -> Result<Vec<u32>, Refusal>
    ensures named { Names result (in_discount (discount_text.outcome bytes.now)) }
    ensures not_of_model { IfErr (named result) (λ e. is_of_model (Err e) ≡ false) }
{
    Ok(read_discount(alloc, bytes)?.choices)
}

/// The choices that a certificate of bounds of discounted rewards names.
fn in_discount_bounds(alloc: Global, bytes: &[u8]) -> Result<Vec<u32>, Refusal>
    ensures named { Names result (in_discount_bounds (discount_bounds_text.outcome bytes.now)) }
    ensures not_of_model { IfErr (named result) (λ e. is_of_model (Err e) ≡ false) }
{
    let bounds = read_discount_bounds(alloc, bytes)?.bounds;
    Ok(bounds.choices)
}

/// That a certificate of bounds of a subsystem names none.
fn in_subsystem_bounds(alloc: Global, bytes: &[u8]) -> Result<Vec<u32>, Refusal>
    ensures named { Names result (in_subsystem_bounds (subsystem_text.outcome bytes.now)) }
    ensures not_of_model { IfErr (named result) (λ e. is_of_model (Err e) ≡ false) }
{
    read_subsystem_bounds(alloc, bytes)?;
    Err(Refusal::QueryChoice)
}

/// The choices of a policy's text.
fn in_policy(alloc: Global, bytes: &[u8]) -> Result<Vec<u32>, Refusal>
    ensures named { Names result (in_policy (policy_outcome bytes.now)) }
    ensures not_of_model { IfErr (named result) (λ e. is_of_model (Err e) ≡ false) }
{
    match read_policy(alloc, bytes) {
        Ok(policy) => Ok(policy),
        Err(CertError::At { line, kind }) => Err(Refusal::PolicyText { line, kind }),
        Err(CertError::Memory) => Err(Refusal::Memory),
    }
}

/// The choices that a text names: a certificate's, as its beginning says, or else a policy's.
pub(crate) fn choices_in(alloc: Global, bytes: &[u8]) -> Result<Vec<u32>, Refusal>
    ensures named { Names result (choices_in bytes.now) }
    ensures not_of_model { IfErr (named result) (λ e. is_of_model (Err e) ≡ false) }
{
    if bytes.starts_with(b"mdp-certificate") {
        return in_certificate(alloc, bytes);
    }
    if bytes.starts_with(b"mdp-bounds") {
        if is_discount_claim(bytes) {
            return in_discount_bounds(alloc, bytes);
        }
        if is_subsystem_claim(bytes) {
            return in_subsystem_bounds(alloc, bytes);
        }
        return in_bounds(alloc, bytes);
    }
    if bytes.starts_with(b"mdp-discount") {
        return in_discount(alloc, bytes);
    }
    in_policy(alloc, bytes)
}
