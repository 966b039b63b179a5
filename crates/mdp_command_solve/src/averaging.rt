ghost use Rattle.std.specs.Prelude.{◌≡◌, ◌⊎◌, Err, IfOk};
ghost use Rattle.mdp_spec.specs.Labels.{place_of};
ghost use Rattle.mdp_command.specs.Prelude.{no_memory, said};
ghost use Rattle.mdp_command_solve.specs.{Due.{IsMeanDue}, Solved.{IsMeanPrinted}};

use crate::certificate::mean_certificate_of;
use mdp_cert::text_law;
use mdp_command::certificate_text;
use mdp_job::Refusal;
use mdp_mean::solve_mean;
use mdp_rows::{Dir, Model};
use mdp_wide::SolveError;
use std::alloc::Global;

/// The text of the certificate that solves a query of the mean payoff, or its refusal.
pub(crate) fn solve_payoff(
    alloc: Global,
    model: &Model,
    dir: Dir,
    name: &[u8],
) -> Result<Vec<u8>, Refusal>
    ensures due { (said result ≡ Err no_memory) ⊎ IsMeanDue dir name.now model.now (place_of name.now model.now.names) (said result) }
    ensures printed { IfOk (said result) (IsMeanPrinted dir name.now model.now) }
{
    model.known();
    text_law();
    let Some(reward) = model.reward_named(name) else {
        return Err(Refusal::QueryReward);
    };
    let answer = match solve_mean(alloc, model, reward, dir) {
        Ok(answer) => answer,
        Err(SolveError::TooWide(wide)) => return Err(Refusal::TooWide(wide)),
        Err(SolveError::Memory) => return Err(Refusal::Memory),
    };
    let Ok(name) = name.to_vec(alloc) else {
        return Err(Refusal::Memory);
    };
    let cert = mean_certificate_of(model, dir, name, answer);
    certificate_text(alloc, &cert)
}
