ghost use Rattle.std.specs.Prelude.{◌≡◌, ◌⊎◌, ◌-◌, ◌*◌, ◌^◌, ◌≤◌, ◌<◌, length, codes, None, Err, IfOk};
ghost use Rattle.mdp_spec.specs.Mdp.{states_of, value_at};
ghost use Rattle.mdp_rows.specs.declared.dir.Dir.TheVariants.{Max};
ghost use Rattle.mdp_reach.specs.Query.{plain};
ghost use Rattle.mdp_cert.specs.Cert.{Fits};
ghost use Rattle.mdp_gen.specs.Layered.{IsShape, layered_model};
ghost use Rattle.mdp_command.specs.Prelude.{no_memory, said};
ghost use Rattle.mdp_command_solve.specs.{Due.{certificate_of}, DrillDue.{text_of_answer, IsDueOf, IsDrillDue}, DrillFound.{IsLineOfFound}};
ghost use Rattle.mdp_command_solve.specs.Drilled.{IsDrilled};

use crate::certificate::certificate_of;
use crate::drill_line::drill_line;
use mdp_cert::text_law;
use mdp_drn::{DrnError, read};
use mdp_farkas::ReachCert;
use mdp_gen::{layered, layered_law};
use mdp_job::Refusal;
use mdp_num::{Frac, Memory};
use mdp_reach::solve_reach;
use mdp_rows::{Dir, Model, RowRule};
use mdp_wide::SolveError;
use std::alloc::Global;

/// The place of the label `goal` in each layered model.
const GOAL: u32 = 1;

/// The layered model, read from its text.
fn model_of(alloc: Global, number: u64, layers: u32, width: u32) -> Result<Model, Memory>
    requires { IsShape layers width }
    ensures { IfOk result (λ model. model ≡ layered_model number layers width) }
{
    layered_law();
    let mut text = Vec::new(alloc);
    layered(number, layers, width, &mut text)?;
    match read(alloc, &text, RowRule::Exact) {
        Ok(model) => Ok(model),
        Err(DrnError::At { .. }) => unreachable!(),
        Err(DrnError::Memory) => Err(Memory),
    }
}

/// The value of state 0.
fn first_value(values: &[Frac]) -> Frac
    requires { 0 < length values.now }
    ensures { result ≡ value_at values.now 0 }
{
    values[0]
}

/// The line of an answer on this model, whose certificate has a text.
fn line_of(
    alloc: Global,
    number: u64,
    layers: u32,
    width: u32,
    model: &Model,
    answer: ReachCert,
) -> Result<Vec<u8>, Memory>
    requires some { 0 < states_of model.now }
    requires values { length answer.values.items ≡ states_of model.now }
    requires choices { length answer.choices.items ≡ states_of model.now }
    requires ranks { length answer.ranks.items ≡ states_of model.now }
    ensures spelled { IfOk result (λ text. text.items ≡ text_of_answer number layers width model.now (plain answer)) }
    ensures fits { IfOk result (λ text. Fits (certificate_of Max None (codes "goal") model.now (plain answer))) }
{
    let label = b"goal".to_vec(alloc)?;
    let value = first_value(&answer.values);
    let cert = certificate_of(model, Dir::Max, None, label, answer);
    drill_line(
        alloc,
        number,
        layers,
        width,
        cert.states,
        model.all_choices(),
        &value,
    )
}

/// Solves the greatest probability of reaching the goal of this model: a line of the numbers, those of the model and the value of state 0.
fn drill_model(
    alloc: Global,
    number: u64,
    layers: u32,
    width: u32,
    model: &Model,
) -> Result<Vec<u8>, Refusal>
    ensures due { (said result ≡ Err no_memory) ⊎ IsDueOf number layers width model.now (said result) }
    ensures found { IfOk (said result) (IsLineOfFound number layers width model.now) }
{
    model.known();
    let Ok(goals) = model.marks_of(alloc, GOAL) else {
        return Err(Refusal::Memory);
    };
    let answer = match solve_reach(alloc, model, &goals, Dir::Max) {
        Ok(answer) => answer,
        Err(SolveError::TooWide(wide)) => return Err(Refusal::TooWide(wide)),
        Err(SolveError::Memory) => return Err(Refusal::Memory),
    };
    match line_of(alloc, number, layers, width, model, answer) {
        Ok(text) => Ok(text),
        Err(Memory) => Err(Refusal::Memory),
    }
}

/// Makes the text of the layered model of this number, reads it under the rule `Exact`, and solves the greatest probability of reaching its goal: a
/// line of the numbers, those of the model and the value of state 0. The answer's certificate is one that `check` accepts for the text.
pub fn drill(alloc: Global, number: u64, layers: u32, width: u32) -> Result<Vec<u8>, Refusal>
    requires some_layers { 1 ≤ layers }
    requires few_layers { layers ≤ 100 }
    requires some_width { 1 ≤ width }
    requires few_states { layers * width ≤ 2 ^ 20 - 2 }
    ensures due { (said result ≡ Err no_memory) ⊎ IsDrillDue number layers width (said result) }
    ensures shown { IfOk (said result) (IsDrilled number layers width) }
{
    layered_law();
    text_law();
    let Ok(model) = model_of(alloc, number, layers, width) else {
        return Err(Refusal::Memory);
    };
    drill_model(alloc, number, layers, width, &model)
}
