ghost use Rattle.std.specs.{Prelude.{◌≡◌, ◌<◌, length, map, Ok, Err}, Result.{MatchResult}, String.{string_bytes}};
ghost use Rattle.mdp_job.specs.Job.{asked, plain_query};
ghost use Rattle.mdp_job.specs.Words.{reach_of, until_of, reward_of, mean_of, query_of, solve_of};

use crate::job::{Job, Query, Task};
use crate::word::head_of;
use crate::words_error::WordsError;

/// The query that the words of `solve` or `bounds` name, where the objective is `reach`.
fn reach_of<'a>(words: &'a [String]) -> Result<Query<'a>, WordsError>
    ensures { MatchResult result (λ q. reach_of (map string_bytes words.now) ≡ Ok (plain_query q))
        (λ e. reach_of (map string_bytes words.now) ≡ Err e) }
{
    let [_, _, _, _, label] = words else {
        return Err(WordsError::Number);
    };
    Ok(Query::Reach {
        label: label.as_bytes(),
    })
}

/// The query that the words of `solve` or `bounds` name, where the objective is `until`.
fn until_of<'a>(words: &'a [String]) -> Result<Query<'a>, WordsError>
    ensures { MatchResult result (λ q. until_of (map string_bytes words.now) ≡ Ok (plain_query q))
        (λ e. until_of (map string_bytes words.now) ≡ Err e) }
{
    let [_, _, _, _, stay, label] = words else {
        return Err(WordsError::Number);
    };
    Ok(Query::Until {
        stay: stay.as_bytes(),
        label: label.as_bytes(),
    })
}

/// The query that the words of `solve` or `bounds` name, where the objective is `reward`.
fn reward_of<'a>(words: &'a [String]) -> Result<Query<'a>, WordsError>
    ensures { MatchResult result (λ q. reward_of (map string_bytes words.now) ≡ Ok (plain_query q))
        (λ e. reward_of (map string_bytes words.now) ≡ Err e) }
{
    let [_, _, _, _, name, label] = words else {
        return Err(WordsError::Number);
    };
    Ok(Query::Reward {
        name: name.as_bytes(),
        label: label.as_bytes(),
    })
}

/// The query that the words of `solve` or `bounds` name, where the objective is `mean`.
fn mean_of<'a>(words: &'a [String]) -> Result<Query<'a>, WordsError>
    ensures { MatchResult result (λ q. mean_of (map string_bytes words.now) ≡ Ok (plain_query q))
        (λ e. mean_of (map string_bytes words.now) ≡ Err e) }
{
    let [_, _, _, _, name] = words else {
        return Err(WordsError::Number);
    };
    Ok(Query::Mean {
        name: name.as_bytes(),
    })
}

/// The query that the words behind `solve` name, or those behind `bounds` before the digits.
pub(crate) fn query_of<'a>(words: &'a [String]) -> Result<Query<'a>, WordsError>
    requires { 3 < length words.now }
    ensures { MatchResult result (λ q. query_of (map string_bytes words.now) ≡ Ok (plain_query q))
        (λ e. query_of (map string_bytes words.now) ≡ Err e) }
{
    let objective = words[3].as_str();
    if objective == "reach" {
        return reach_of(words);
    }
    if objective == "until" {
        return until_of(words);
    }
    if objective == "reward" {
        return reward_of(words);
    }
    if objective == "mean" {
        return mean_of(words);
    }
    Err(WordsError::Objective)
}

/// The job that the words behind `solve` are.
pub(crate) fn solve_of<'a>(words: &'a [String]) -> Result<Job<'a>, WordsError>
    ensures { asked result ≡ solve_of (map string_bytes words.now) }
{
    if words.len() < 4 {
        return Err(WordsError::Number);
    }
    let (rule, dir) = head_of(words[1].as_str(), words[2].as_str())?;
    let query = query_of(words)?;
    let task = Task::Solve { dir, query };
    Ok(Job::OnModel { rule, task })
}
