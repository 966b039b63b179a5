//! What each command does, once its files are open: what is asked of a model that was read, and of a second file behind it.

ghost use Rattle.std.specs.Prelude.{◌≡◌, ◌⊎◌, false, Err, IfOk, IsTrue, IsFalse};
ghost use Rattle.mdp_job.specs.Job.{plain_task, plain_pair};
ghost use Rattle.mdp_command.specs.Prelude.{IsModelReadToEnd, IsSecondReadToEnd, no_memory, said, input};
ghost use Rattle.mdp_command.specs.{Read.{IsWorkOnModel, IsWorkOnPair, is_of_model}, Shown.{IsShownOf, AreShownOf}};
ghost use Rattle.mdp_app.specs.{Due.{IsTaskDue, IsPairDue}, InRange.{IsTaskInRange}, Shown.{IsTaskPrinted, IsPairPrinted}};

use mdp_command::{CertificateKind, check_query, read_model, read_second};
use mdp_command_bounds_search::{bounds_discount_query, bounds_query, bounds_witness_query};
use mdp_command_horizon::{
    horizon_query, total_bounds_query, total_curve_query, total_query, until_bounds_query,
    until_curve_query,
};
use mdp_command_policy::{chain_query, policy_query};
use mdp_command_solve::{discount_query, solve_query, witness_query};
use mdp_edge::Source;
use mdp_job::{PairTask, Refusal, Task};
use mdp_rows::{Model, RowRule};
use std::alloc::Global;

/// The text that answers what is asked of a model, or its refusal.
fn answer_to(alloc: Global, model: &Model, task: &Task<'_>) -> Result<Vec<u8>, Refusal>
    requires { IsTaskInRange (plain_task task.now) }
    ensures due { (said result ≡ Err no_memory) ⊎ IsTaskDue (plain_task task.now) model.now (said result) }
    ensures printed { IfOk (said result) (IsTaskPrinted (plain_task task.now) model.now) }
{
    match task {
        Task::Solve { dir, query } => solve_query(alloc, model, *dir, *query),
        Task::Witness {
            dir,
            stay,
            label,
            threshold,
        } => witness_query(alloc, model, *dir, *stay, *label, *threshold),
        Task::Horizon {
            dir,
            stay,
            label,
            steps,
        } => horizon_query(alloc, model, *dir, *stay, *label, *steps),
        Task::Total { dir, name, steps } => total_query(alloc, model, *dir, *name, *steps),
        Task::Discount { dir, name, factor } => discount_query(alloc, model, *dir, *name, *factor),
        Task::Bounds { dir, query, digits } => bounds_query(alloc, model, *dir, *query, *digits),
        Task::BoundsUntil {
            dir,
            stay,
            label,
            steps,
            digits,
        } => until_bounds_query(alloc, model, *dir, *stay, *label, *steps, *digits),
        Task::BoundsTotal {
            dir,
            name,
            steps,
            digits,
        } => total_bounds_query(alloc, model, *dir, *name, *steps, *digits),
        Task::BoundsDiscount {
            dir,
            name,
            factor,
            digits,
        } => bounds_discount_query(alloc, model, *dir, *name, *factor, *digits),
        Task::BoundsWitness {
            dir,
            stay,
            label,
            threshold,
        } => bounds_witness_query(alloc, model, *dir, *stay, *label, *threshold),
        Task::CurveUntil {
            dir,
            stay,
            label,
            steps,
            digits,
        } => until_curve_query(alloc, model, *dir, *stay, *label, *steps, *digits),
        Task::CurveTotal {
            dir,
            name,
            steps,
            digits,
        } => total_curve_query(alloc, model, *dir, *name, *steps, *digits),
    }
}

/// Reads the model to its end and judges its text, then answers what is asked of it.
pub(crate) fn on_model<S: Source>(
    alloc: Global,
    rule: RowRule,
    task: &Task<'_>,
    model: &mut S,
) -> Result<Vec<u8>, Refusal>
    requires { IsTaskInRange (plain_task task.now) }
    ensures read { IsWorkOnModel rule (IsTaskDue (plain_task task.now)) (IsShownOf (IsTaskPrinted (plain_task task.now)) rule)
        (input S.left S.faults model.old model.new) (said result) }
    ensures end { IsModelReadToEnd (input S.left S.faults model.old model.new) (said result) }
{
    match read_model(alloc, model, rule) {
        Ok(model) => answer_to(alloc, &model, task),
        Err(refusal) => Err(refusal),
    }
}

/// The text that answers what is asked of a model and the bytes of a second file, or its refusal.
fn answer_to_pair(
    alloc: Global,
    model: &Model,
    task: &PairTask<'_>,
    bytes: &[u8],
) -> Result<Vec<u8>, Refusal>
    ensures due { (said result ≡ Err no_memory) ⊎ IsPairDue (plain_pair task.now) model.now bytes.now (said result) }
    ensures printed { IfOk (said result) (IsPairPrinted (plain_pair task.now) model.now bytes.now) }
    ensures not_of_model { is_of_model (said result) ≡ false }
{
    match task {
        PairTask::Check => check_query(alloc, model, None, bytes),
        PairTask::Policy { stay, label } => policy_query(alloc, model, *stay, *label, bytes),
        PairTask::Chain => chain_query(alloc, model, bytes),
        PairTask::DiscountCheck => {
            check_query(alloc, model, Some(CertificateKind::Discounted), bytes)
        }
        PairTask::BoundsCheck => check_query(alloc, model, Some(CertificateKind::Bounds), bytes),
    }
}

/// Reads the model and then the second file, each to its end, and answers what is asked of both. The second one isn't read where the model is
/// refused.
pub(crate) fn on_pair<S: Source, C: Source>(
    alloc: Global,
    rule: RowRule,
    task: &PairTask<'_>,
    model: &mut S,
    second: &mut C,
) -> Result<Vec<u8>, Refusal>
    ensures read { IsWorkOnPair rule (IsPairDue (plain_pair task.now)) (AreShownOf (IsPairPrinted (plain_pair task.now)) rule)
        (input S.left S.faults model.old model.new) (input C.left C.faults second.old second.new) (said result) }
    ensures unread { IsTrue (is_of_model (said result)) → second.new ≡ second.old }
    ensures model_end { IsModelReadToEnd (input S.left S.faults model.old model.new) (said result) }
    ensures second_end { IsFalse (is_of_model (said result)) → IsSecondReadToEnd (input C.left C.faults second.old second.new) (said result) }
{
    let model = read_model(alloc, model, rule)?;
    let bytes = read_second(alloc, second)?;
    answer_to_pair(alloc, &model, task, &bytes)
}
