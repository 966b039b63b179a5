ghost use Rattle.std.specs.{Prelude.{◌≡◌, drop}, Process.{exit_status}};
ghost use Rattle.mdp_job.specs.Status.{code_of};

use mdp_job::{Refusal, Status, WordsError};
use std::env;
use std::io::ErrorKind;
use std::process::ExitCode;

/// All words behind the first, in their order: those behind a program's name.
pub fn behind_name(mut given: Vec<String>) -> Vec<String>
    ensures words { result.items ≡ drop 1 given.items }
{
    if !given.is_empty() {
        given.remove(0);
    }
    given
}

/// The words behind the program's name. One that isn't UTF-8 is a refusal of the words.
pub fn words_given(rt: &HostRuntime) -> Result<Vec<String>, Refusal> {
    let given = match env::args(rt) {
        Ok(given) => given,
        Err(error) if error.kind() == ErrorKind::InvalidData => {
            return Err(Refusal::Words(WordsError::Encoding));
        }
        Err(_) => return Err(Refusal::Memory),
    };
    let mut words = Vec::new(rt.alloc());
    for word in given {
        if words.push(word).is_err() {
            return Err(Refusal::Memory);
        }
    }
    Ok(behind_name(words))
}

/// What a program ends with that ended so: the status's number.
pub fn exit_of(status: Status) -> ExitCode
    ensures number { exit_status result ≡ code_of status }
{
    ExitCode::from(status.code())
}
