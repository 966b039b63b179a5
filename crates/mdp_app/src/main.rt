//! The program: each command is a step on the files that its words name. `solve` prints a certificate of the best values of a model, `witness` one of
//! a subsystem that reaches a threshold, `check` holds a certificate against a model, `drill` solves a model that is drawn from a number, `horizon`
//! prints the best values within so many steps, `policy` the values of a given policy, `chain` the model with the choices of a given policy alone,
//! `discount` a certificate of the best discounted rewards, `discount-check` holds such a certificate against a model, `bounds` prints a certificate
//! of lower and upper values, or one of a subsystem that reaches a threshold by them, and `bounds-check` holds one against a model.
#![tactic(auto)]

#[cfg(test)]
mod command_tests;
#[cfg(test)]
mod hostile_tests;
mod run;
mod tasks;
#[cfg(test)]
mod tests;

use crate::run::run_on_files;
use mdp_command::{exit_of, words_given, write_answer};
use mdp_edge::{StdSink, StdSource};
use mdp_job::{files_of, job_of};
use std::fs::File;
use std::process::ExitCode;

/// A file that has ended.
const ENDED: &str = "/dev/null";

/// Opens the file of this name; one that has ended where no word names a file.
fn opened(rt: &HostRuntime, path: &str, word: Option<usize>) -> StdSource<File> {
    let path = match word {
        Some(_) => path,
        None => ENDED,
    };
    StdSource::new(File::open(rt, path).ok())
}

fn main(rt: HostRuntime) -> ExitCode {
    let alloc = rt.alloc();
    let mut out = StdSink::new(rt.stdout());
    let status = match words_given(&rt) {
        Ok(words) => {
            let files = files_of(&job_of(&words));
            let open_model = |path: &str| opened(&rt, path, files.model);
            let open_second = |path: &str| opened(&rt, path, files.second);
            run_on_files(alloc, &words, open_model, open_second, &mut out)
        }
        Err(refusal) => write_answer(alloc, Err(refusal), &mut out),
    };
    exit_of(status)
}
