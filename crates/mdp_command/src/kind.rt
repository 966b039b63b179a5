ghost use Rattle.std.specs.Prelude.{◌≡◌};
ghost use Rattle.mdp_command.specs.{Kinds.{asked, chosen}, Meanings.{begins_with, bounds_kind, kind_of}};

use mdp_discount_text::is_discount_claim;
use mdp_subsystem_bounds::is_subsystem_claim;

/// The kinds of certificates. Each has its checker.
#[derive(Clone, Copy)]
pub enum CertificateKind {
    /// Best values of reach, reward or mean payoff, upper bounds, and subsystems.
    Exact,
    /// Best discounted rewards.
    Discounted,
    /// Lower and upper values of reach, reward or mean payoff, between which the best ones lie.
    Bounds,
    /// Lower and upper values of discounted rewards.
    DiscountedBounds,
    /// Lower values on a subsystem, by which it comes to a threshold.
    SubsystemBounds,
}

/// Whether the bytes begin with these.
fn begins_with(bytes: &[u8], line: &[u8]) -> bool
    ensures { result ≡ begins_with line.now bytes.now }
{
    bytes.starts_with(line)
}

/// The kind of a certificate of bounds, by the claim in its second line.
fn bounds_kind(bytes: &[u8]) -> CertificateKind
    ensures { result ≡ bounds_kind bytes.now }
{
    if is_discount_claim(bytes) {
        return CertificateKind::DiscountedBounds;
    }
    if is_subsystem_claim(bytes) {
        return CertificateKind::SubsystemBounds;
    }
    CertificateKind::Bounds
}

/// The kind that the first line of a text names, and of bounds the second line; `Exact` where the first line names none.
pub fn kind_of(bytes: &[u8]) -> CertificateKind
    ensures { result ≡ kind_of bytes.now }
{
    if begins_with(bytes, b"mdp-discount 1\n") {
        return CertificateKind::Discounted;
    }
    if begins_with(bytes, b"mdp-bounds 1\n") {
        return bounds_kind(bytes);
    }
    CertificateKind::Exact
}

/// The kind that is asked for; of bounds that which the claim names.
fn asked(kind: CertificateKind, bytes: &[u8]) -> CertificateKind
    ensures { result ≡ asked kind bytes.now }
{
    match kind {
        CertificateKind::Bounds => bounds_kind(bytes),
        other => other,
    }
}

/// The kind that is asked for, or else that of the text.
pub(crate) fn chosen(wanted: Option<CertificateKind>, bytes: &[u8]) -> CertificateKind
    ensures { result ≡ chosen wanted bytes.now }
{
    match wanted {
        Some(kind) => asked(kind, bytes),
        None => kind_of(bytes),
    }
}
