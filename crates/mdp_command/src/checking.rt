ghost use Rattle.std.specs.Prelude.{◌≡◌, ◌⊎◌, false, Err, IfOk, IsTrue, IsFalse};
ghost use Rattle.mdp_command.specs.{Prelude.{IsModelReadToEnd, IsSecondReadToEnd, no_memory, said, input}, Accepted.{exact}, Read.{is_of_model}};
ghost use Rattle.mdp_command.specs.CheckDue.{said_to_text, IsCheckDue};
ghost use Rattle.mdp_command.specs.Kinds.{as_answer, discounted, between, discounted_between, subsystem_between, checker_for};
ghost use Rattle.mdp_command.specs.CheckShown.{IsCheckPrinted, IsCheckRead};

use crate::files::{read_model, read_second};
use crate::kind::{CertificateKind, chosen};
use crate::laws::check_law;
use crate::saying::answer_text;
use mdp_cert::{read_bounds, read_cert};
use mdp_check::{Answer, check, check_bounds};
use mdp_discount_rules::{DiscountAnswer, check_discount, check_discount_bounds};
use mdp_discount_text::{read_discount, read_discount_bounds};
use mdp_edge::Source;
use mdp_job::Refusal;
use mdp_rows::{Model, RowRule};
use mdp_subsystem_bounds::{check_subsystem_bounds, read_subsystem_bounds};
use std::alloc::Global;

/// The answer to a certificate of discounted rewards as one of the checkers' common answers.
fn as_answer(answer: DiscountAnswer) -> Answer
    ensures { result ≡ as_answer answer }
{
    match answer {
        DiscountAnswer::Yes => Answer::Yes,
        DiscountAnswer::No(fault) => Answer::No(fault),
        DiscountAnswer::Wide { state, choice } => Answer::Wide { state, choice },
        DiscountAnswer::NoReward => Answer::NoReward,
        DiscountAnswer::Size => Answer::Size,
    }
}

/// Judges the text of a certificate of best values, of upper bounds or of a subsystem, then holds it against the model.
fn of_exact(alloc: Global, model: &Model, bytes: &[u8]) -> Result<Vec<u8>, Refusal>
    ensures due { (said result ≡ Err no_memory) ⊎ (said result ≡ said_to_text exact model.now bytes.now) }
    ensures not_of_model { is_of_model (said result) ≡ false }
{
    let cert = read_cert(alloc, bytes)?;
    answer_text(alloc, check(alloc, model, &cert))
}

/// The same of a certificate of discounted rewards.
fn of_discounted(alloc: Global, model: &Model, bytes: &[u8]) -> Result<Vec<u8>, Refusal>
    ensures due { (said result ≡ Err no_memory) ⊎ (said result ≡ said_to_text discounted model.now bytes.now) }
    ensures not_of_model { is_of_model (said result) ≡ false }
{
    let cert = read_discount(alloc, bytes)?;
    answer_text(alloc, as_answer(check_discount(model, &cert)))
}

/// The same of a certificate of bounds.
fn of_bounds(alloc: Global, model: &Model, bytes: &[u8]) -> Result<Vec<u8>, Refusal>
    ensures due { (said result ≡ Err no_memory) ⊎ (said result ≡ said_to_text between model.now bytes.now) }
    ensures not_of_model { is_of_model (said result) ≡ false }
{
    let cert = read_bounds(alloc, bytes)?;
    answer_text(alloc, check_bounds(alloc, model, &cert))
}

/// The same of a certificate of bounds of discounted rewards.
fn of_discounted_bounds(alloc: Global, model: &Model, bytes: &[u8]) -> Result<Vec<u8>, Refusal>
    ensures due { (said result ≡ Err no_memory) ⊎ (said result ≡ said_to_text discounted_between model.now bytes.now) }
    ensures not_of_model { is_of_model (said result) ≡ false }
{
    let cert = read_discount_bounds(alloc, bytes)?;
    answer_text(alloc, as_answer(check_discount_bounds(model, &cert)))
}

/// The same of a certificate of bounds of a subsystem.
fn of_subsystem_bounds(alloc: Global, model: &Model, bytes: &[u8]) -> Result<Vec<u8>, Refusal>
    ensures due { (said result ≡ Err no_memory) ⊎ (said result ≡ said_to_text subsystem_between model.now bytes.now) }
    ensures not_of_model { is_of_model (said result) ≡ false }
{
    let cert = read_subsystem_bounds(alloc, bytes)?;
    answer_text(alloc, check_subsystem_bounds(alloc, model, &cert))
}

/// The same of a certificate of the wanted kind, or of that which its first line names.
fn of_text(
    alloc: Global,
    wanted: Option<CertificateKind>,
    model: &Model,
    bytes: &[u8],
) -> Result<Vec<u8>, Refusal>
    ensures due { (said result ≡ Err no_memory) ⊎ (said result ≡ said_to_text (checker_for wanted bytes.now) model.now bytes.now) }
    ensures not_of_model { is_of_model (said result) ≡ false }
{
    match chosen(wanted, bytes) {
        CertificateKind::Exact => of_exact(alloc, model, bytes),
        CertificateKind::Discounted => of_discounted(alloc, model, bytes),
        CertificateKind::Bounds => of_bounds(alloc, model, bytes),
        CertificateKind::DiscountedBounds => of_discounted_bounds(alloc, model, bytes),
        CertificateKind::SubsystemBounds => of_subsystem_bounds(alloc, model, bytes),
    }
}

/// Judges the text of a certificate of the wanted kind, or of that which its first line names, then holds it against the model.
pub fn check_query(
    alloc: Global,
    model: &Model,
    wanted: Option<CertificateKind>,
    bytes: &[u8],
) -> Result<Vec<u8>, Refusal>
    ensures due { (said result ≡ Err no_memory) ⊎ IsCheckDue wanted model.now bytes.now (said result) }
    ensures printed { IfOk (said result) (IsCheckPrinted wanted model.now bytes.now) }
    ensures not_of_model { is_of_model (said result) ≡ false }
{
    check_law();
    model.known();
    of_text(alloc, wanted, model, bytes)
}

/// Reads the model to its end and judges its text, then the certificate, then holds the one against the other. The certificate is of the wanted kind,
/// or of that which its first line names. The second source isn't read where the model is refused.
pub fn check_files<S: Source, C: Source>(
    alloc: Global,
    rule: RowRule,
    wanted: Option<CertificateKind>,
    model: &mut S,
    second: &mut C,
) -> Result<Vec<u8>, Refusal>
    ensures read { IsCheckRead wanted rule (input S.left S.faults model.old model.new) (input C.left C.faults second.old second.new) (said result) }
    ensures unread { IsTrue (is_of_model (said result)) → second.new ≡ second.old }
    ensures model_end { IsModelReadToEnd (input S.left S.faults model.old model.new) (said result) }
    ensures second_end { IsFalse (is_of_model (said result)) → IsSecondReadToEnd (input C.left C.faults second.old second.new) (said result) }
{
    let model = read_model(alloc, model, rule)?;
    let bytes = read_second(alloc, second)?;
    check_query(alloc, &model, wanted, &bytes)
}
