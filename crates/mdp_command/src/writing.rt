ghost use Rattle.std.specs.Prelude.{◌≡◌, Err};
ghost use Rattle.mdp_job.specs.Refusal.{plain_refusal};
ghost use Rattle.mdp_command.specs.{Said.{said}, Streams.{output}, Written.{WroteText, EndsWith}};

use mdp_edge::{Sink, WriteFault, write_all};
use mdp_job::{MEMORY_TEXT, Refusal, Status, push_refusal};
use mdp_num::Memory;
use std::alloc::Global;

/// Writes a text to end with a status.
fn write_text<K: Sink>(out: &mut K, text: &[u8], status: Status) -> Status
    ensures { WroteText result (output K.taken K.settled K.faults out.old out.new) status text.now }
{
    match write_all(out, text) {
        Ok(()) => status,
        Err(WriteFault) => Status::WriteFault,
    }
}

/// Writes a refusal's line, or that of want of memory, which takes none.
fn write_refusal<K: Sink>(alloc: Global, refusal: &Refusal, out: &mut K) -> Status
    ensures { EndsWith result (output K.taken K.settled K.faults out.old out.new) (Err (plain_refusal refusal.now)) }
{
    let mut text = Vec::new(alloc);
    match push_refusal(refusal, &mut text) {
        Ok(()) => write_text(out, &text, refusal.status()),
        Err(Memory) => write_text(out, MEMORY_TEXT, Status::Memory),
    }
}

/// Writes what a run says, the text of its work or the line of a refusal, and ends with its status. All of the text is in memory before the first
/// write.
pub fn write_answer<K: Sink>(alloc: Global, answer: Result<Vec<u8>, Refusal>, out: &mut K) -> Status
    ensures { EndsWith result (output K.taken K.settled K.faults out.old out.new) (said answer) }
{
    match answer {
        Ok(text) => write_text(out, &text, Status::Done),
        Err(refusal) => write_refusal(alloc, &refusal, out),
    }
}
