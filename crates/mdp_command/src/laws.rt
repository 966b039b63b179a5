ghost use Rattle.mdp_command.specs.{Kinds.{checker_of}, CheckLaws.{YesIsAccepted, YesIsTrue, AcceptedIsTrue, ReadsItsText, NamesItsKind}};
ghost use Rattle.mdp_command.specs.{declared.kind.CertificateKind.{CertificateKind}};
ghost use Rattle.mdp_command.specs.DiscountStart.{ExactNoOfInit, BoundsNoOfInit};

use mdp_cert::{bounds_text_law, text_law};
use mdp_check::{bounds_checking_law, checking_law};
use mdp_discount_rules::{discount_bounds_law, discount_rules_law};
use mdp_discount_text::{discount_bounds_text_law, discount_text_law};
use mdp_drn::model_law;
use mdp_subsystem_bounds::{subsystem_bounds_law, subsystem_bounds_text_law};

/// Laws of a check, for certificates of each kind: a `yes` is due exactly where the bytes are accepted, and the claim of an accepted certificate is
/// true of the model, which no other is answered `yes`. Bytes read as a certificate exactly where they are its text, and a text names the kind of its
/// certificate.
pub fn check_law()
    ensures accepted { (kind : CertificateKind) → YesIsAccepted (checker_of kind) }
    ensures yes { (kind : CertificateKind) → YesIsTrue (checker_of kind) }
    ensures true_claim { (kind : CertificateKind) → AcceptedIsTrue (checker_of kind) }
    ensures text { (kind : CertificateKind) → ReadsItsText (checker_of kind) }
    ensures kind { (kind : CertificateKind) → NamesItsKind kind }
{
    checking_law();
    text_law();
    bounds_text_law();
    discount_rules_law();
    discount_text_law();
    bounds_checking_law();
    discount_bounds_law();
    discount_bounds_text_law();
    subsystem_bounds_law();
    subsystem_bounds_text_law();
    model_law();
}

/// What a no at rule 1 to a certificate of discounted rewards, or of bounds of them, means: what the line `init` says of the model's initial state is
/// false. Where that is false and the answer is no, it is at no other rule.
pub fn discount_start_law()
    ensures exact { ExactNoOfInit }
    ensures bounds { BoundsNoOfInit }
{
    mdp_discount_rules::discount_no_law();
    mdp_discount_rules::discount_bounds_no_law();
}
