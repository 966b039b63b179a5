ghost use Rattle.std.specs.{Prelude.{◌≡◌, ◌<◌, ◌^◌, map}, String.{string_bytes}};
ghost use Rattle.mdp_job.specs.Job.{asked};
ghost use Rattle.mdp_job.specs.Words.{drill_by, drill_of};

use crate::digits::whole_word;
use crate::job::Job;
use crate::words_error::WordsError;
use mdp_rows::MAX_STATES;

/// The most states in the layers of a model that is drawn.
const MOST_STATES: u128 = MAX_STATES as u128 - 2;

/// The job with these numbers, where they are in range.
fn drill_by<'a>(number: u128, layers: u128, width: u128) -> Result<Job<'a>, WordsError>
    requires { width < 10 ^ 7 }
    ensures { asked result ≡ drill_by number layers width }
{
    let has_layers = 1 <= layers && layers <= 100;
    if number >> 64 == 0 && has_layers && 1 <= width && layers * width <= MOST_STATES {
        return Ok(Job::Drill {
            number: number as u64,
            layers: layers as u32,
            width: width as u32,
        });
    }
    Err(WordsError::Drill)
}

/// The job that the words behind `drill` are.
pub(crate) fn drill_of<'a>(words: &'a [String]) -> Result<Job<'a>, WordsError>
    ensures { asked result ≡ drill_of (map string_bytes words.now) }
{
    let [number, layers, width] = words else {
        return Err(WordsError::Number);
    };
    let Some(number) = whole_word(number.as_bytes(), 20) else {
        return Err(WordsError::Drill);
    };
    let Some(layers) = whole_word(layers.as_bytes(), 7) else {
        return Err(WordsError::Drill);
    };
    let Some(width) = whole_word(width.as_bytes(), 7) else {
        return Err(WordsError::Drill);
    };
    drill_by(number, layers, width)
}
