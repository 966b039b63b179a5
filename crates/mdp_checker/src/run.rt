ghost use Rattle.std.specs.{Fn.{FnOnceReturnsAt}, Prelude.{◌≡◌}};
ghost use Rattle.mdp_command.specs.{Opened.{OnFiles}, Prelude.{said, input, output}};
ghost use Rattle.mdp_checker.specs.Run.{IsDecided, IsAnswered, IsYesTrue, IsYesTrueOfText, IsComplete, HasRun};
ghost use Rattle.mdp_checker.specs.Words.{asked, model_path, cert_path};

use mdp_command::{check_files, check_law, write_answer};
use mdp_drn::{model_law, written_law};
use mdp_edge::{Sink, Source};
use mdp_job::{Paths, Refusal, Status, rows_of};
use std::alloc::Global;

/// The answer to the words.
fn answer_to_words<S: Source, C: Source>(
    alloc: Global,
    words: &[String],
    model: &mut S,
    cert: &mut C,
) -> Result<Vec<u8>, Refusal>
    ensures { IsDecided (asked words.now) (input S.left S.faults model.old model.new) (input C.left C.faults cert.old cert.new) (said result) }
{
    match rows_of(words) {
        Ok(rule) => check_files(alloc, rule, None, model, cert),
        Err(error) => Err(Refusal::Words(error)),
    }
}

/// Does all that the program does: judges the words, reads the model and then the certificate, holds the one against the other, and writes `yes` or
/// the line of a refusal. All of the text is in memory before the first write.
pub fn run<S: Source, C: Source, K: Sink>(
    alloc: Global,
    words: &[String],
    model: &mut S,
    cert: &mut C,
    out: &mut K,
) -> Status
    // The answer is due to the bytes of the sources, or one of them failed, or memory is wanting; and it was written.
    ensures answer { IsAnswered (asked words.now) (input S.left S.faults model.old model.new) (input C.left C.faults cert.old cert.new)
        (output K.taken K.settled K.faults out.old out.new) result }

    // Where the work was done, yes was written, and the claim of the certificate is true of the model.
    ensures done { result ≡ Status.Done → IsYesTrue (asked words.now) (input S.left S.faults model.old model.new)
        (input C.left C.faults cert.old cert.new)
        (output K.taken K.settled K.faults out.old out.new) }

    // The same of a model in the one text that is written of it, with no word of how other texts are read.
    ensures done_of_text { result ≡ Status.Done → IsYesTrueOfText (asked words.now) (input S.left S.faults model.old model.new)
        (input C.left C.faults cert.old cert.new)
        (output K.taken K.settled K.faults out.old out.new) }

    // To bytes that are accepted yes is said, but for faults that were counted and want of memory.
    ensures complete { IsComplete (asked words.now) (input S.left S.faults model.old model.new) (input C.left C.faults cert.old cert.new)
        (output K.taken K.settled K.faults out.old out.new) result }
{
    check_law();
    model_law();
    written_law();
    let answer = answer_to_words(alloc, words, model, cert);
    write_answer(alloc, answer, out)
}

/// The words that name the files of the model and of the certificate.
fn paths_of<'a>(words: &'a [String]) -> Paths<'a>
    ensures model { result.model.now ≡ model_path words.now }
    ensures cert { result.second.now ≡ cert_path words.now }
{
    match (rows_of(words), words) {
        (Ok(_), [model, _, cert]) => Paths {
            model: model.as_str(),
            second: cert.as_str(),
        },
        _ => Paths {
            model: "",
            second: "",
        },
    }
}

/// Opens the files that the words name, and runs the program on them.
pub fn run_on_files<F: Source + Drop, M: FnOnce(&str) -> F, O: FnOnce(&str) -> F, K: Sink>(
    alloc: Global,
    words: &[String],
    open_model: M,
    open_cert: O,
    out: &mut K,
) -> Status
    requires model { M.IsAlwaysCallable open_model }
    requires cert { O.IsAlwaysCallable open_cert }
    ensures { OnFiles (FnOnceReturnsAt M.FnOnce open_model) (FnOnceReturnsAt O.FnOnce open_cert) F.left F.faults (model_path words.now)
        (cert_path words.now)
        (λ model cert. HasRun (asked words.now) model cert (output K.taken K.settled K.faults out.old out.new) result) }
{
    let paths = paths_of(words);
    let mut model = open_model(paths.model);
    let mut cert = open_cert(paths.second);
    run(alloc, words, &mut model, &mut cert, out)
}
