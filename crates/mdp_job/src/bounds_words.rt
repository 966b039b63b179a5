ghost use Rattle.std.specs.{Prelude.{◌≡◌, ◌<◌, length, map, Ok, Err}, Result.{MatchResult}, String.{string_bytes}};
ghost use Rattle.mdp_job.specs.Job.{asked, asked_task, plain_query, bounds_until, bounds_total};
ghost use Rattle.mdp_job.specs.Words.{until_within, total_within, bounds_query_of, bounds_digits_of, bounds_best_of, bounds_discount_of, bounds_by};
ghost use Rattle.mdp_job.specs.Words.{bounds_of};
ghost use Rattle.mdp_job.specs.Words.{bounds_witness_reach_of, bounds_witness_until_of, bounds_witness_of};

use crate::job::{Job, Query, Task};
use crate::query_words::query_of;
use crate::word::{digits_of, factor_of, head_of, stay_of, steps_of, threshold_of};
use crate::words_error::WordsError;
use mdp_rows::Dir;

/// The query of the words behind `bounds`: all but the last one, as behind `solve`.
fn bounds_query_of<'a>(words: &'a [String]) -> Result<Query<'a>, WordsError>
    requires { 4 < length words.now }
    ensures { MatchResult result (λ q. bounds_query_of (map string_bytes words.now) ≡ Ok (plain_query q))
        (λ e. bounds_query_of (map string_bytes words.now) ≡ Err e) }
{
    query_of(&words[..words.len() - 1])
}

/// The digits that the last of the words behind `bounds` writes.
fn bounds_digits_of(words: &[String]) -> Result<u32, WordsError>
    requires { 4 < length words.now }
    ensures { result ≡ bounds_digits_of (map string_bytes words.now) }
{
    digits_of(words[words.len() - 1].as_str())
}

/// The task of bounds that the words name, where they ask what the words behind `solve` ask for: that query, then the digits.
fn bounds_best_of<'a>(dir: Dir, words: &'a [String]) -> Result<Task<'a>, WordsError>
    requires { 5 < length words.now }
    ensures { asked_task result ≡ bounds_best_of dir (map string_bytes words.now) }
{
    let query = bounds_query_of(words)?;
    let digits = bounds_digits_of(words)?;
    Ok(Task::Bounds { dir, query, digits })
}

/// The task of bounds that the words name, where the objective is `until`: two labels, the steps, then the digits.
fn bounds_until_of<'a>(dir: Dir, words: &'a [String]) -> Result<Task<'a>, WordsError>
    ensures { asked_task result ≡ until_within (map string_bytes words.now) (bounds_until dir) }
{
    let [_, _, _, _, stay, label, steps, digits] = words else {
        return Err(WordsError::Number);
    };
    Ok(Task::BoundsUntil {
        dir,
        stay: stay_of(stay.as_str()),
        label: label.as_bytes(),
        steps: steps_of(steps.as_str())?,
        digits: digits_of(digits.as_str())?,
    })
}

/// The task of bounds that the words name, where the objective is `total`: the reward's name, the steps, then the digits.
fn bounds_total_of<'a>(dir: Dir, words: &'a [String]) -> Result<Task<'a>, WordsError>
    ensures { asked_task result ≡ total_within (map string_bytes words.now) (bounds_total dir) }
{
    let [_, _, _, _, name, steps, digits] = words else {
        return Err(WordsError::Number);
    };
    Ok(Task::BoundsTotal {
        dir,
        name: name.as_bytes(),
        steps: steps_of(steps.as_str())?,
        digits: digits_of(digits.as_str())?,
    })
}

/// The task of bounds that the words name, where the objective is `discount`: the reward's name, the factor, then the digits.
fn bounds_discount_of<'a>(dir: Dir, words: &'a [String]) -> Result<Task<'a>, WordsError>
    ensures { asked_task result ≡ bounds_discount_of dir (map string_bytes words.now) }
{
    let [_, _, _, _, name, factor, digits] = words else {
        return Err(WordsError::Number);
    };
    Ok(Task::BoundsDiscount {
        dir,
        name: name.as_bytes(),
        factor: factor_of(factor.as_str())?,
        digits: digits_of(digits.as_str())?,
    })
}

/// The task of bounds of a subsystem that the words name, where they name one label.
fn bounds_witness_reach_of<'a>(dir: Dir, words: &'a [String]) -> Result<Task<'a>, WordsError>
    ensures { asked_task result ≡ bounds_witness_reach_of dir (map string_bytes words.now) }
{
    let [_, _, _, _, label, threshold] = words else {
        return Err(WordsError::Number);
    };
    Ok(Task::BoundsWitness {
        dir,
        stay: None,
        label: label.as_bytes(),
        threshold: threshold_of(threshold.as_str())?,
    })
}

/// The task of bounds of a subsystem that the words name, where they name two labels.
fn bounds_witness_until_of<'a>(dir: Dir, words: &'a [String]) -> Result<Task<'a>, WordsError>
    ensures { asked_task result ≡ bounds_witness_until_of dir (map string_bytes words.now) }
{
    let [_, _, _, _, _, stay, label, threshold] = words else {
        return Err(WordsError::Number);
    };
    Ok(Task::BoundsWitness {
        dir,
        stay: Some(stay.as_bytes()),
        label: label.as_bytes(),
        threshold: threshold_of(threshold.as_str())?,
    })
}

/// The task of bounds of a subsystem that the words name: eight words of which the fifth is `until` name two labels.
fn bounds_witness_of<'a>(dir: Dir, words: &'a [String]) -> Result<Task<'a>, WordsError>
    ensures { asked_task result ≡ bounds_witness_of dir (map string_bytes words.now) }
{
    if words.len() == 8 && words[4].as_str() == "until" {
        return bounds_witness_until_of(dir, words);
    }
    bounds_witness_reach_of(dir, words)
}

/// The task of bounds that the words name, by the objective; `until` is a query as behind `solve`, but with a deadline where there are eight words.
fn bounds_by<'a>(dir: Dir, words: &'a [String]) -> Result<Task<'a>, WordsError>
    requires { 5 < length words.now }
    ensures { asked_task result ≡ bounds_by dir (map string_bytes words.now) }
{
    let objective = words[3].as_str();
    if objective == "until" && words.len() == 8 {
        return bounds_until_of(dir, words);
    }
    if objective == "total" {
        return bounds_total_of(dir, words);
    }
    if objective == "discount" {
        return bounds_discount_of(dir, words);
    }
    if objective == "witness" {
        return bounds_witness_of(dir, words);
    }
    bounds_best_of(dir, words)
}

/// The job that the words behind `bounds` are.
pub(crate) fn bounds_of<'a>(words: &'a [String]) -> Result<Job<'a>, WordsError>
    ensures { asked result ≡ bounds_of (map string_bytes words.now) }
{
    if words.len() < 6 {
        return Err(WordsError::Number);
    }
    let (rule, dir) = head_of(words[1].as_str(), words[2].as_str())?;
    match bounds_by(dir, words) {
        Ok(task) => Ok(Job::OnModel { rule, task }),
        Err(error) => Err(error),
    }
}
