ghost use Rattle.std.specs.{Prelude.{◌≡◌, ◌==◌, IfOk, map, length, [], replicate, pos}, List.{slice_split}};
ghost use Rattle.mdp_math.specs.Rational.{of_int};
ghost use Rattle.mdp_num.specs.{Meaning.{IsWithinLimit}, Numeral.{numeral_of}};
ghost use Rattle.mdp_drn.specs.{Values.{from_numeral, value_of, reward_of, rewards_in, each_reward, is_comma, trimmed}, Parsing.{Says}};

use crate::error::DrnKind;
use crate::line::trim;
use crate::line_error::LineError;
use mdp_num::{Frac, NumeralError, read_numeral};
use std::alloc::{AllocError, Global};

/// The value that a numeral spells.
fn read_unsigned(text: &[u8]) -> Result<Frac, DrnKind>
    ensures value { result ≡ from_numeral (numeral_of text.now) }
    ensures within { IfOk result IsWithinLimit }
{
    match read_numeral(text) {
        Ok(value) => Ok(value),
        Err(NumeralError::Shape) => Err(DrnKind::Number),
        Err(NumeralError::ZeroDen) => Err(DrnKind::Number),
        Err(NumeralError::Large) => Err(DrnKind::Large),
    }
}

/// The value of a transition, which has no sign.
#[tactic(auto, unfolding(crate::specs::Values::value_of))]
pub(crate) fn read_value(text: &[u8]) -> Result<Frac, DrnKind>
    ensures value { result ≡ value_of text.now }
    ensures within { IfOk result IsWithinLimit }
{
    if text.starts_with(b"-") {
        return Err(DrnKind::Negative);
    }
    read_unsigned(text)
}

/// A reward: a numeral, or `-` and a numeral.
#[tactic(auto, unfolding(crate::specs::Values::reward_of))]
fn read_reward(text: &[u8]) -> Result<Frac, DrnKind>
    ensures { result ≡ reward_of text.now }
{
    if text.starts_with(b"-") {
        return match read_unsigned(&text[1..]) {
            Ok(value) => Ok(value.negate()),
            Err(kind) => Err(kind),
        };
    }
    read_unsigned(text)
}

/// The texts between the commas.
fn split_at_commas(alloc: Global, inside: &[u8]) -> Result<Vec<&[u8]>, AllocError>
    ensures { IfOk result (λ texts. map (λ text. text.now) texts.items ≡ slice_split is_comma inside.now) }
{
    inside.split(|c| *c == b',').collect(alloc)
}

/// Puts the reward that each text spells behind `rewards`.
fn push_rewards(texts: &[&[u8]], rewards: &mut Vec<Frac>) -> Result<(), LineError>
    requires { rewards.old.items ≡ [] }
    ensures { Says (λ _. rewards.new.items) result (each_reward (map trimmed (map (λ text. text.now) texts.now))) }
{
    for text in texts {
        let reward = read_reward(trim(text))?;
        rewards.push(reward)?;
    }
    Ok(())
}

/// Puts the rewards in a bracket, one for each reward model, in the place of what `rewards` held.
#[tactic(auto, unfolding(crate::specs::Values::rewards_in))]
pub(crate) fn read_rewards(
    alloc: Global,
    models: usize,
    inside: &[u8],
    rewards: &mut Vec<Frac>,
) -> Result<(), LineError>
    ensures rewards { Says (λ _. rewards.new.items) result (rewards_in models inside.now) }
    ensures count { IfOk result (λ _. length rewards.new.items ≡ models) }
{
    rewards.clear();
    if trim(inside).is_empty() {
        rewards.resize(models, Frac::whole(0))?;
        return Ok(());
    }
    let texts = split_at_commas(alloc, inside)?;
    if texts.len() != models {
        return Err(LineError::Kind(DrnKind::Reward));
    }
    push_rewards(&texts, rewards)
}
