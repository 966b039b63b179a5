ghost use Rattle.std.specs.Prelude.{◌≡◌, ◌⊎◌, Err, IfOk};
ghost use Rattle.mdp_spec.specs.Labels.{place_of};
ghost use Rattle.mdp_command.specs.Prelude.{no_memory, said};
ghost use Rattle.mdp_command_solve.specs.{Due.{IsRewardDue}, Solved.{IsRewardPrinted}};

use crate::certificate::reward_certificate_of;
use mdp_cert::text_law;
use mdp_command::certificate_text;
use mdp_job::Refusal;
use mdp_reward::solve_reward;
use mdp_rows::{Dir, Model};
use mdp_wide::SolveError;
use std::alloc::Global;

/// The text of the certificate that solves a query of rewards until a goal, or its refusal: the name is looked up first, then the label, then it is
/// asked whether a reward of this name is below 0.
pub(crate) fn solve_named(
    alloc: Global,
    model: &Model,
    dir: Dir,
    name: &[u8],
    label: &[u8],
) -> Result<Vec<u8>, Refusal>
    ensures due { (said result ≡ Err no_memory) ⊎ IsRewardDue dir name.now label.now model.now (place_of name.now model.now.names)
        (place_of label.now model.now.labels) (said result) }
    ensures printed { IfOk (said result) (IsRewardPrinted dir name.now label.now model.now) }
{
    model.known();
    text_law();
    let Some(reward) = model.reward_named(name) else {
        return Err(Refusal::QueryReward);
    };
    let Some(place) = model.label(label) else {
        return Err(Refusal::QueryLabel);
    };
    if model.negative(reward) {
        return Err(Refusal::QueryNegative);
    }
    let goals = match model.marks_of(alloc, place) {
        Ok(goals) => goals,
        Err(_) => return Err(Refusal::Memory),
    };
    let answer = match solve_reward(alloc, model, reward, &goals, dir) {
        Ok(answer) => answer,
        Err(SolveError::TooWide(wide)) => return Err(Refusal::TooWide(wide)),
        Err(SolveError::Memory) => return Err(Refusal::Memory),
    };
    let Ok(name) = name.to_vec(alloc) else {
        return Err(Refusal::Memory);
    };
    let Ok(label) = label.to_vec(alloc) else {
        return Err(Refusal::Memory);
    };
    let cert = reward_certificate_of(model, dir, name, label, answer);
    certificate_text(alloc, &cert)
}
