ghost use Rattle.std.specs.Prelude.{◌≡◌, ◌⊎◌, Err, IfOk};
ghost use Rattle.mdp_command.specs.Prelude.{plain_query, no_memory, said};
ghost use Rattle.mdp_command_solve.specs.{Due.{IsQueryDue}, Solved.{IsPrinted}};

use crate::averaging::solve_payoff;
use crate::reaching::solve_label;
use crate::rewarding::solve_named;
use mdp_job::{Query, Refusal};
use mdp_rows::{Dir, Model};
use std::alloc::Global;

/// The text of the certificate that solves a query of the model, or its refusal.
pub fn solve_query(
    alloc: Global,
    model: &Model,
    dir: Dir,
    query: Query<'_>,
) -> Result<Vec<u8>, Refusal>
    ensures due { (said result ≡ Err no_memory) ⊎ IsQueryDue dir (plain_query query.entry) model.now (said result) }
    ensures printed { IfOk (said result) (IsPrinted dir (plain_query query.entry) model.now) }
{
    match query {
        Query::Reach { label } => solve_label(alloc, model, dir, None, label),
        Query::Until { stay, label } => solve_label(alloc, model, dir, Some(stay), label),
        Query::Reward { name, label } => solve_named(alloc, model, dir, name, label),
        Query::Mean { name } => solve_payoff(alloc, model, dir, name),
    }
}
