ghost use Rattle.std.specs.{Fn.{FnOnceReturnsAt}, Prelude.{◌≡◌}};
ghost use Rattle.mdp_job.specs.Words.{job_of, model_path, second_path};
ghost use Rattle.mdp_command.specs.{Opened.{OnFiles}, Prelude.{said, input, output}};
ghost use Rattle.mdp_app.specs.{Run.{IsAnswered, IsWorkDone, IsComplete, HasRun}, Decided.{IsDecided}};

use crate::tasks::{on_model, on_pair};
use mdp_command::write_answer;
use mdp_command_bounds_search::{
    bounds_discount_search_law, bounds_search_law, bounds_witness_law,
};
use mdp_command_solve::{discount_step_law, drill, drill_law, solve_law, witness_step_law};
use mdp_drn::model_law;
use mdp_edge::{Sink, Source};
use mdp_job::{Job, Refusal, Status, job_of, paths_of};
use std::alloc::Global;

/// The answer to the words.
fn answer_to_words<S: Source, C: Source>(
    alloc: Global,
    words: &[String],
    model: &mut S,
    second: &mut C,
) -> Result<Vec<u8>, Refusal>
    ensures { IsDecided (job_of words.now) (input S.left S.faults model.old model.new) (input C.left C.faults second.old second.new) (said result) }
{
    let job = match job_of(words) {
        Ok(job) => job,
        Err(error) => return Err(Refusal::Words(error)),
    };
    match &job {
        Job::OnModel { rule, task } => on_model(alloc, *rule, task, model),
        Job::OnPair { rule, task } => on_pair(alloc, *rule, task, model, second),
        Job::Drill {
            number,
            layers,
            width,
        } => drill(alloc, *number, *layers, *width),
    }
}

/// Does all that the program does: judges the words, reads the model and then the second file, does the work, and writes its text or the line of a
/// refusal. A source that the job doesn't read keeps what it has left. All of the text is in memory before the first write.
pub fn run<S: Source, C: Source, K: Sink>(
    alloc: Global,
    words: &[String],
    model: &mut S,
    second: &mut C,
    out: &mut K,
) -> Status
    // The answer is due to the bytes of the sources, or one of them failed, or memory is wanting; and it was written.
    ensures answer { IsAnswered (job_of words.now) (input S.left S.faults model.old model.new) (input C.left C.faults second.old second.new)
        (output K.taken K.settled K.faults out.old out.new) result }

    // Where the work was done, the text that the sink took is due to the job, and what it says is true.
    ensures done { result ≡ Status.Done → IsWorkDone (job_of words.now) (input S.left S.faults model.old model.new)
        (input C.left C.faults second.old second.new)
        (output K.taken K.settled K.faults out.old out.new) }

    // Where a text is due, the work is done, but for faults that were counted and want of memory; and but for bounds of a witness between which the
    // threshold lies.
    ensures complete { IsComplete (job_of words.now) (input S.left S.faults model.old model.new) (input C.left C.faults second.old second.new)
        (output K.taken K.settled K.faults out.old out.new) result }
{
    model_law();
    solve_law();
    witness_step_law();
    discount_step_law();
    drill_law();
    bounds_search_law();
    bounds_discount_search_law();
    bounds_witness_law();
    let answer = answer_to_words(alloc, words, model, second);
    write_answer(alloc, answer, out)
}

/// Opens the files that the words name, the model's and the second one, and runs the program on them.
pub fn run_on_files<F: Source + Drop, M: FnOnce(&str) -> F, O: FnOnce(&str) -> F, K: Sink>(
    alloc: Global,
    words: &[String],
    open_model: M,
    open_second: O,
    out: &mut K,
) -> Status
    requires model { M.IsAlwaysCallable open_model }
    requires second { O.IsAlwaysCallable open_second }
    ensures { OnFiles (FnOnceReturnsAt M.FnOnce open_model) (FnOnceReturnsAt O.FnOnce open_second) F.left F.faults
        (model_path (job_of words.now) words.now) (second_path (job_of words.now) words.now)
        (λ model second. HasRun (job_of words.now) model second (output K.taken K.settled K.faults out.old out.new) result) }
{
    let paths = paths_of(words, &job_of(words));
    let mut model = open_model(paths.model);
    let mut second = open_second(paths.second);
    run(alloc, words, &mut model, &mut second, out)
}
