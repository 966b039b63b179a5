ghost use Rattle.std.specs.{Prelude.{◌≡◌, map}, String.{string_bytes}};
ghost use Rattle.mdp_job.specs.Job.{asked, plain_pair};
ghost use Rattle.mdp_job.specs.Words.{rows_of, pair_of, policy_reach_of, policy_until_of, policy_of};

use crate::job::{Job, PairTask};
use crate::word::rule_of;
use crate::words_error::WordsError;
use mdp_rows::RowRule;

/// The row rule of the words MODEL ROWS CERT, with which a certificate is held against a model.
pub fn rows_of(words: &[String]) -> Result<RowRule, WordsError>
    ensures { result ≡ rows_of (map string_bytes words.now) }
{
    let [_, rows, _] = words else {
        return Err(WordsError::Number);
    };
    rule_of(rows.as_str())
}

/// The job of a task that has no words of its own behind MODEL ROWS and the second file.
pub(crate) fn pair_of<'a>(task: PairTask<'a>, words: &[String]) -> Result<Job<'a>, WordsError>
    ensures { asked result ≡ pair_of (plain_pair task.entry) (map string_bytes words.now) }
{
    let rule = rows_of(words)?;
    Ok(Job::OnPair { rule, task })
}

/// The job that the words behind `policy` are, where they name one label.
fn policy_reach_of<'a>(words: &'a [String]) -> Result<Job<'a>, WordsError>
    ensures { asked result ≡ policy_reach_of (map string_bytes words.now) }
{
    let [_, rows, _, objective, label] = words else {
        return Err(WordsError::Number);
    };
    let rule = rule_of(rows.as_str())?;
    if objective.as_str() != "reach" {
        return Err(WordsError::Objective);
    }
    let task = PairTask::Policy {
        stay: None,
        label: label.as_bytes(),
    };
    Ok(Job::OnPair { rule, task })
}

/// The job that the words behind `policy` are, where they name two labels.
fn policy_until_of<'a>(words: &'a [String]) -> Result<Job<'a>, WordsError>
    ensures { asked result ≡ policy_until_of (map string_bytes words.now) }
{
    let [_, rows, _, _, stay, label] = words else {
        return Err(WordsError::Number);
    };
    let rule = rule_of(rows.as_str())?;
    let task = PairTask::Policy {
        stay: Some(stay.as_bytes()),
        label: label.as_bytes(),
    };
    Ok(Job::OnPair { rule, task })
}

/// The job that the words behind `policy` are: six words of which the fourth is `until` name two labels.
pub(crate) fn policy_of<'a>(words: &'a [String]) -> Result<Job<'a>, WordsError>
    ensures { asked result ≡ policy_of (map string_bytes words.now) }
{
    if words.len() == 6 && words[3].as_str() == "until" {
        return policy_until_of(words);
    }
    policy_reach_of(words)
}
