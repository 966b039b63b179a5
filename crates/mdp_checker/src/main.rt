//! The checker: holds a certificate of any kind against a model, and answers as `check`, `discount-check` and `bounds-check` do. No search, no policy
//! iteration and no elimination stands below it.
#![tactic(auto)]

mod run;

use crate::run::run_on_files;
use mdp_command::{exit_of, words_given, write_answer};
use mdp_edge::{StdSink, StdSource};
use std::fs::File;
use std::process::ExitCode;

fn main(rt: HostRuntime) -> ExitCode {
    let alloc = rt.alloc();
    let mut out = StdSink::new(rt.stdout());
    let open = |path: &str| StdSource::new(File::open(&rt, path).ok());
    let status = match words_given(&rt) {
        Ok(words) => run_on_files(alloc, &words, open, open, &mut out),
        Err(refusal) => write_answer(alloc, Err(refusal), &mut out),
    };
    exit_of(status)
}
