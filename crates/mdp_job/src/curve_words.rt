ghost use Rattle.std.specs.{Prelude.{◌≡◌, ◌<◌, length, map}, String.{string_bytes}};
ghost use Rattle.mdp_job.specs.Job.{asked, asked_task, curve_until, curve_total};
ghost use Rattle.mdp_job.specs.Words.{until_within, total_within, curve_by, curve_of};

use crate::job::{Job, Task};
use crate::word::{digits_of, head_of, stay_of, steps_of};
use crate::words_error::WordsError;
use mdp_rows::Dir;

/// The task of a curve that the words name, where the objective is `until`: two labels, the steps, then the digits.
fn curve_until_of<'a>(dir: Dir, words: &'a [String]) -> Result<Task<'a>, WordsError>
    ensures { asked_task result ≡ until_within (map string_bytes words.now) (curve_until dir) }
{
    let [_, _, _, _, stay, label, steps, digits] = words else {
        return Err(WordsError::Number);
    };
    Ok(Task::CurveUntil {
        dir,
        stay: stay_of(stay.as_str()),
        label: label.as_bytes(),
        steps: steps_of(steps.as_str())?,
        digits: digits_of(digits.as_str())?,
    })
}

/// The task of a curve that the words name, where the objective is `total`: the reward's name, the steps, then the digits.
fn curve_total_of<'a>(dir: Dir, words: &'a [String]) -> Result<Task<'a>, WordsError>
    ensures { asked_task result ≡ total_within (map string_bytes words.now) (curve_total dir) }
{
    let [_, _, _, _, name, steps, digits] = words else {
        return Err(WordsError::Number);
    };
    Ok(Task::CurveTotal {
        dir,
        name: name.as_bytes(),
        steps: steps_of(steps.as_str())?,
        digits: digits_of(digits.as_str())?,
    })
}

/// The task of a curve that the words name, by the objective.
fn curve_by<'a>(dir: Dir, words: &'a [String]) -> Result<Task<'a>, WordsError>
    requires { 3 < length words.now }
    ensures { asked_task result ≡ curve_by dir (map string_bytes words.now) }
{
    let objective = words[3].as_str();
    if objective == "until" {
        return curve_until_of(dir, words);
    }
    if objective == "total" {
        return curve_total_of(dir, words);
    }
    Err(WordsError::Objective)
}

/// The job that the words behind `curve` are.
pub(crate) fn curve_of<'a>(words: &'a [String]) -> Result<Job<'a>, WordsError>
    ensures { asked result ≡ curve_of (map string_bytes words.now) }
{
    if words.len() < 4 {
        return Err(WordsError::Number);
    }
    let (rule, dir) = head_of(words[1].as_str(), words[2].as_str())?;
    match curve_by(dir, words) {
        Ok(task) => Ok(Job::OnModel { rule, task }),
        Err(error) => Err(error),
    }
}
