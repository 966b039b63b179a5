ghost use Rattle.std.specs.{Prelude.{◌≡◌, map}, String.{string_bytes}};
ghost use Rattle.mdp_job.specs.Job.{asked};
ghost use Rattle.mdp_job.specs.Words.{witness_reach_of, witness_until_of, witness_of, horizon_of, total_of, discount_of};

use crate::job::{Job, Task};
use crate::word::{factor_of, head_of, stay_of, steps_of, threshold_of};
use crate::words_error::WordsError;

/// The job that the words behind `witness` are, where they name one label.
fn witness_reach_of<'a>(words: &'a [String]) -> Result<Job<'a>, WordsError>
    ensures { asked result ≡ witness_reach_of (map string_bytes words.now) }
{
    let [_, rows, dir, label, threshold] = words else {
        return Err(WordsError::Number);
    };
    let (rule, dir) = head_of(rows.as_str(), dir.as_str())?;
    let task = Task::Witness {
        dir,
        stay: None,
        label: label.as_bytes(),
        threshold: threshold_of(threshold.as_str())?,
    };
    Ok(Job::OnModel { rule, task })
}

/// The job that the words behind `witness` are, where they name two labels.
fn witness_until_of<'a>(words: &'a [String]) -> Result<Job<'a>, WordsError>
    ensures { asked result ≡ witness_until_of (map string_bytes words.now) }
{
    let [_, rows, dir, _, stay, label, threshold] = words else {
        return Err(WordsError::Number);
    };
    let (rule, dir) = head_of(rows.as_str(), dir.as_str())?;
    let task = Task::Witness {
        dir,
        stay: Some(stay.as_bytes()),
        label: label.as_bytes(),
        threshold: threshold_of(threshold.as_str())?,
    };
    Ok(Job::OnModel { rule, task })
}

/// The job that the words behind `witness` are: seven words of which the fourth is `until` name two labels.
pub(crate) fn witness_of<'a>(words: &'a [String]) -> Result<Job<'a>, WordsError>
    ensures { asked result ≡ witness_of (map string_bytes words.now) }
{
    if words.len() == 7 && words[3].as_str() == "until" {
        return witness_until_of(words);
    }
    witness_reach_of(words)
}

/// The job that the words behind `horizon` are.
pub(crate) fn horizon_of<'a>(words: &'a [String]) -> Result<Job<'a>, WordsError>
    ensures { asked result ≡ horizon_of (map string_bytes words.now) }
{
    let [_, rows, dir, stay, label, steps] = words else {
        return Err(WordsError::Number);
    };
    let (rule, dir) = head_of(rows.as_str(), dir.as_str())?;
    let task = Task::Horizon {
        dir,
        stay: stay_of(stay.as_str()),
        label: label.as_bytes(),
        steps: steps_of(steps.as_str())?,
    };
    Ok(Job::OnModel { rule, task })
}

/// The job that the words behind `total` are.
pub(crate) fn total_of<'a>(words: &'a [String]) -> Result<Job<'a>, WordsError>
    ensures { asked result ≡ total_of (map string_bytes words.now) }
{
    let [_, rows, dir, name, steps] = words else {
        return Err(WordsError::Number);
    };
    let (rule, dir) = head_of(rows.as_str(), dir.as_str())?;
    let task = Task::Total {
        dir,
        name: name.as_bytes(),
        steps: steps_of(steps.as_str())?,
    };
    Ok(Job::OnModel { rule, task })
}

/// The job that the words behind `discount` are.
pub(crate) fn discount_of<'a>(words: &'a [String]) -> Result<Job<'a>, WordsError>
    ensures { asked result ≡ discount_of (map string_bytes words.now) }
{
    let [_, rows, dir, name, factor] = words else {
        return Err(WordsError::Number);
    };
    let (rule, dir) = head_of(rows.as_str(), dir.as_str())?;
    let task = Task::Discount {
        dir,
        name: name.as_bytes(),
        factor: factor_of(factor.as_str())?,
    };
    Ok(Job::OnModel { rule, task })
}
