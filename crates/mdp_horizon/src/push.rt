ghost use Rattle.std.specs.Prelude.{◌≡◌, ◌++◌, ◌∷◌, decimal, length, OnOk};
ghost use Rattle.mdp_spec.specs.Mdp.{states_of};
ghost use Rattle.mdp_text.specs.{Answer.{Keeps}, Spelling.{line}};
ghost use Rattle.mdp_horizon.specs.{Spelling.{choice_words, step_text, step_lines, answer_lines}, Answer.{lists, plain}};

use crate::bounded::Bounded;
use mdp_num::Memory;
use mdp_rows::Model;
use mdp_text::Part::{Bytes, Whole};
use mdp_text::{init_with, push_end, push_init, push_number, push_parts, push_values, push_word};

/// Appends a blank and a choice.
#[tactic(auto, using(std::proofs::lemmas::Fmt::decimal_digit))]
#[inline(always)]
fn push_choice(out: &mut Vec<u8>, choice: u32) -> Result<(), Memory>
    ensures text { OnOk result (out.new.items ≡ out.old.items ++ 32 ∷ decimal choice) }
    ensures front { Keeps out.old.items out.new.items }
{
    if choice < 10 {
        out.extend_from_slice(&[b' ', b'0' + choice as u8])?;
        return Ok(());
    }
    push_word(out, u64::from(choice))
}

/// Appends each choice behind a blank.
fn push_choices(out: &mut Vec<u8>, choices: &[u32]) -> Result<(), Memory>
    ensures text { OnOk result (out.new.items ≡ out.old.items ++ choice_words choices.now) }
    ensures front { Keeps out.old.items out.new.items }
{
    for choice in choices {
        push_choice(out, *choice)?;
    }
    Ok(())
}

/// Appends the line of a step, with so many steps left.
fn push_step(out: &mut Vec<u8>, left: u64, choices: &[u32]) -> Result<(), Memory>
    ensures text { OnOk result (out.new.items ≡ out.old.items ++ line (step_text left choices.now)) }
    ensures front { Keeps out.old.items out.new.items }
{
    push_parts(out, &[Bytes(b"step "), Whole(left)])?;
    push_choices(out, choices)?;
    push_parts(out, &[Bytes(b"\n")])
}

/// Appends the lines of the steps, the first step first.
pub fn push_steps(out: &mut Vec<u8>, steps: &[Vec<u32>]) -> Result<(), Memory>
    ensures text { OnOk result (out.new.items ≡ out.old.items ++ step_lines (lists steps.now)) }
    ensures front { Keeps out.old.items out.new.items }
{
    for done in 0..steps.len() {
        push_step(out, (steps.len() - done) as u64, &steps[done])?;
    }
    Ok(())
}

/// Appends the lines behind the claim.
pub(crate) fn push_answer(out: &mut Vec<u8>, model: &Model, bounded: &Bounded) -> Result<(), Memory>
    requires { length bounded.now.values.items ≡ states_of model.now }
    ensures text { OnOk result (out.new.items ≡ out.old.items ++ answer_lines model.now (plain bounded.now)) }
    ensures front { Keeps out.old.items out.new.items }
{
    push_number(out, u64::from(model.states()))?;
    push_init(out, &init_with(model, &bounded.values))?;
    push_values(out, &bounded.values)?;
    push_steps(out, &bounded.steps)?;
    push_end(out)
}
