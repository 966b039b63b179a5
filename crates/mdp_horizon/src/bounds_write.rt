ghost use Rattle.std.specs.Prelude.{◌≡◌, ◌++◌, length, OnOk, OnErr};
ghost use Rattle.mdp_spec.specs.{Mdp.{states_of}, Labels.{initial_of}};
ghost use Rattle.mdp_text.specs.{Answer.{Keeps}, Spelling.{line, states_text, end_text}};
ghost use Rattle.mdp_horizon.specs.{Spelling.{step_lines}, BoundsSpelling.{init_text, state_lines, bounds_text, plain_claim}, BoundsAnswer.{plain}};

use crate::bounds::HorizonBounds;
use crate::bounds_push::{push_claim, push_init, push_states};
use crate::claim::Claim;
use crate::push::push_steps;
use mdp_num::Memory;
use mdp_rows::{Dir, Model};
use mdp_text::{or_cut_back, push_end, push_number};

/// Appends the lines behind the claim; after `Memory` the text begins as before.
fn push_lines(out: &mut Vec<u8>, model: &Model, bounds: &HorizonBounds) -> Result<(), Memory>
    requires lower { length bounds.now.lower.items ≡ states_of model.now }
    requires upper { length bounds.now.upper.items ≡ states_of model.now }
    ensures text { let b = plain bounds.now in OnOk result (out.new.items ≡ out.old.items
        ++ (line (states_text (states_of model.now)) ++ (line (init_text (initial_of model.now) b.lower b.upper)
        ++ (state_lines 0 b.lower b.upper ++ (step_lines b.steps ++ line end_text))))) }
    ensures front { Keeps out.old.items out.new.items }
{
    push_number(out, u64::from(model.states()))?;
    push_init(out, model, &bounds.lower, &bounds.upper)?;
    push_states(out, &bounds.lower, &bounds.upper)?;
    push_steps(out, &bounds.steps)?;
    push_end(out)
}

/// Appends the text of lower and upper values: what was asked, the number of states, the initial state, a line for each state and a line for each
/// step. After `Memory` the text is as before.
#[tactic(auto, unfolding(crate::specs::BoundsSpelling::bounds_text))]
pub fn write_horizon_bounds(
    model: &Model,
    dir: Dir,
    claim: Claim<'_>,
    bounds: &HorizonBounds,
    out: &mut Vec<u8>,
) -> Result<(), Memory>
    requires lower { length bounds.now.lower.items ≡ states_of model.now }
    requires upper { length bounds.now.upper.items ≡ states_of model.now }
    ensures text { OnOk result (out.new.items ≡ out.old.items ++ bounds_text dir (plain_claim claim.entry) model.now (plain bounds.now)) }
    ensures unchanged { OnErr result (out.new.items ≡ out.old.items) }
{
    let start = out.len();
    push_claim(out, dir, claim, bounds.steps.len() as u64)?;
    let answer = push_lines(out, model, bounds);
    or_cut_back(out, start, answer)
}
