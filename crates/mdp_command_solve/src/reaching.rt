ghost use Rattle.std.specs.Prelude.{◌≡◌, ◌⊎◌, Some, Err, IfOk};
ghost use Rattle.mdp_check.specs.Check.{way_by};
ghost use Rattle.mdp_command.specs.Prelude.{no_memory, said};
ghost use Rattle.mdp_command_solve.specs.{Ways.{name_of, place_on_way, goals_by}, Due.{IsReachEnd, IsReachDue}, Solved.{IsReachPrinted}};

use crate::certificate::certificate_of;
use crate::ways::{cut_of, owned, place_on_way, way_in};
use mdp_cert::text_law;
use mdp_command::certificate_text;
use mdp_job::Refusal;
use mdp_reach::solve_reach;
use mdp_rows::{Dir, Marks, Model};
use mdp_wide::SolveError;
use std::alloc::Global;

/// The text of the certificate of the answer to reaching these goals on what is left of the model for the way, or its refusal.
fn solve_on_way(
    alloc: Global,
    model: &Model,
    way: &Model,
    goals: &Marks,
    dir: Dir,
    stay: Option<&[u8]>,
    label: &[u8],
) -> Result<Vec<u8>, Refusal>
    requires way { way.now ≡ way_by model.now goals.now (name_of stay) }
    requires goals { goals_by model.now (name_of stay) label.now ≡ Some goals.now }
    ensures due { (said result ≡ Err no_memory) ⊎ IsReachEnd dir (name_of stay.entry) label.now model.now goals.now (said result) }
    ensures printed { IfOk (said result) (IsReachPrinted dir (name_of stay.entry) label.now model.now) }
{
    model.known();
    text_law();
    let answer = match solve_reach(alloc, way, goals, dir) {
        Ok(answer) => answer,
        Err(SolveError::TooWide(wide)) => return Err(Refusal::TooWide(wide)),
        Err(SolveError::Memory) => return Err(Refusal::Memory),
    };
    let Ok(stay) = owned(alloc, stay) else {
        return Err(Refusal::Memory);
    };
    let Ok(label) = label.to_vec(alloc) else {
        return Err(Refusal::Memory);
    };
    let cert = certificate_of(model, dir, stay, label, answer);
    certificate_text(alloc, &cert)
}

/// The text of the certificate that solves a query of reachability, by way of states with the label `stay` alone where there is one, or its refusal.
pub(crate) fn solve_label(
    alloc: Global,
    model: &Model,
    dir: Dir,
    stay: Option<&[u8]>,
    label: &[u8],
) -> Result<Vec<u8>, Refusal>
    ensures due { (said result ≡ Err no_memory) ⊎
        IsReachDue dir (name_of stay.entry) label.now model.now (place_on_way model.now (name_of stay.entry) label.now) (said result) }
    ensures printed { IfOk (said result) (IsReachPrinted dir (name_of stay.entry) label.now model.now) }
{
    let Some(place) = place_on_way(model, stay, label) else {
        return Err(Refusal::QueryLabel);
    };
    let goals = match model.marks_of(alloc, place) {
        Ok(goals) => goals,
        Err(_) => return Err(Refusal::Memory),
    };
    let cut = match cut_of(alloc, model, &goals, stay) {
        Ok(cut) => cut,
        Err(_) => return Err(Refusal::Memory),
    };
    solve_on_way(alloc, model, way_in(model, &cut), &goals, dir, stay, label)
}
