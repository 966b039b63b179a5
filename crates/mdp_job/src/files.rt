ghost use Rattle.std.specs.{Prelude.{◌≡◌, map}, String.{string_bytes}};
ghost use Rattle.mdp_job.specs.{Job.{asked, files_of}, Words.{path_at, model_path, second_path}};

use crate::job::Job;
use crate::words_error::WordsError;

/// The places of the words that name the files of a job, counted from 0. None where the job reads no such file.
#[derive(Clone, Copy)]
pub struct Files {
    pub model: Option<usize>,
    pub second: Option<usize>,
}

/// Which of the words name files, where they ask for this job. Words that are no job name none.
pub fn files_of(job: &Result<Job<'_>, WordsError>) -> Files
    ensures { result ≡ files_of (asked job.now) }
{
    match job {
        Ok(Job::OnModel { .. }) => Files {
            model: Some(1),
            second: None,
        },
        Ok(Job::OnPair { .. }) => Files {
            model: Some(1),
            second: Some(3),
        },
        Ok(Job::Drill { .. }) | Err(_) => Files {
            model: None,
            second: None,
        },
    }
}

/// The names of the files of a job; the empty name where the job reads no such file.
#[derive(Clone, Copy)]
pub struct Paths<'a> {
    pub model: &'a str,
    pub second: &'a str,
}

/// The word at a place, or the empty word where there is none.
fn path_at<'a>(words: &'a [String], place: Option<usize>) -> &'a str
    ensures { result.now ≡ path_at (map string_bytes words.now) place }
{
    match place {
        Some(place) if place < words.len() => words[place].as_str(),
        _ => "",
    }
}

/// The words that name the files of the job that they ask for.
pub fn paths_of<'a>(words: &'a [String], job: &Result<Job<'_>, WordsError>) -> Paths<'a>
    ensures model { result.model.now ≡ model_path (asked job.now) words.now }
    ensures second { result.second.now ≡ second_path (asked job.now) words.now }
{
    let files = files_of(job);
    Paths {
        model: path_at(words, files.model),
        second: path_at(words, files.second),
    }
}
