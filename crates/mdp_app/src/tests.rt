//! What the rows in data/ can't say: pieces, faults and stores.

use crate::opened;
use crate::run::{run, run_on_files};
use mdp_edge::{ListSink, ListSource, Source};
use mdp_job::Status;
use std::alloc::{AllocError, Global};
use std::fs;
use std::test::Fail;

/// 0 init: [0 1] [1 1/3, 2 2/3]; 1 goal: [1 1]; 2: [2 1]
pub(crate) const COIN: &str =
    "@type: MDP\n@nr_states\n3\n@model\nstate 0 init\naction a\n0 : 1\naction b\n1 : 1/3\n2 : 2/3\nstate 1 goal\naction\n1 : 1\nstate 2\naction\n2 : 1\n";

/// A policy of the coin.
pub(crate) const COIN_POLICY: &str =
    "mdp-policy 1\nstates 3\nchoose 0 1\nchoose 1 0\nchoose 2 0\nend\n";

/// That 1 bounds state 0.
const UPPER: &str =
    "mdp-certificate 1\nclaim upper reach \"goal\"\nstates 3\ninit 0 1\nstate 0 1\nstate 1 1\nstate 2 0\nend\n";

/// The words of a check.
const CHECK: &str = "check MODEL exact CERT";

/// A source: its bytes, how many it gives a call at most, and the numbers of the calls that fail.
#[derive(Clone, Copy)]
pub(crate) struct Given<'a> {
    pub bytes: &'a [u8],
    pub chunk: usize,
    pub fails: &'a [u64],
}

/// A sink: its room, how many bytes it takes a call at most, and the numbers of the calls that fail.
#[derive(Clone, Copy)]
pub(crate) struct Room<'a> {
    pub room: usize,
    pub chunk: usize,
    pub fails: &'a [u64],
}

/// A sink that never fails, with room for the text of each test.
pub(crate) const ROOM: Room<'static> = Room {
    room: 300,
    chunk: 16,
    fails: &[],
};

fn source(alloc: Global, given: &Given<'_>) -> Result<ListSource, AllocError> {
    let bytes = given.bytes.to_vec(alloc)?;
    Ok(ListSource::new(bytes, given.chunk.max(1), given.fails.to_vec(alloc)?))
}

pub(crate) fn sink(alloc: Global, room: &Room<'_>) -> Result<ListSink, AllocError> {
    let store = vec![in alloc; 0; room.room]?;
    Ok(ListSink::new(store, room.chunk.max(1), room.fails.to_vec(alloc)?))
}

fn push_words(alloc: Global, command: &str, words: &mut Vec<String>) -> Result<(), AllocError> {
    for word in command.split(' ') {
        words.push(String::from_str(alloc, word)?)?;
    }
    Ok(())
}

/// The words of a command, between blanks. Its files are given otherwise.
fn words_of(alloc: Global, command: &str) -> Result<Vec<String>, AllocError> {
    let mut words = Vec::new(alloc);
    push_words(alloc, command, &mut words)?;
    Ok(words)
}

/// How words end on two sources and a sink.
fn ended_on(
    alloc: Global,
    words: &[String],
    model: &mut ListSource,
    second: &Given<'_>,
    out: &mut ListSink,
) -> Option<Status> {
    let Ok(mut second) = source(alloc, second) else {
        return None;
    };
    Some(run(alloc, words, model, &mut second, out))
}

/// How a command ends on two sources and a sink; none where memory is wanting.
pub(crate) fn ended(
    alloc: Global,
    command: &str,
    model: &Given<'_>,
    second: &Given<'_>,
    out: &mut ListSink,
) -> Option<Status> {
    let Ok(words) = words_of(alloc, command) else {
        return None;
    };
    let Ok(mut model) = source(alloc, model) else {
        return None;
    };
    ended_on(alloc, &words, &mut model, second, out)
}

/// Whether a command ends so on two sources and a sink, which takes these bytes.
pub(crate) fn ends(
    alloc: Global,
    command: &str,
    model: &Given<'_>,
    second: &Given<'_>,
    room: &Room<'_>,
    status: Status,
    taken: &[u8],
) -> bool {
    let Ok(mut out) = sink(alloc, room) else {
        return false;
    };
    let Some(end) = ended(alloc, command, model, second, &mut out) else {
        return false;
    };
    end.code() == status.code() && out.bytes() == taken
}

/// Whether a check of the bound ends so, on sources that give so many bytes a call.
fn check_ends(alloc: Global, chunk: usize, room: &Room<'_>, status: Status, taken: &str) -> bool {
    let model = Given {
        bytes: COIN.as_bytes(),
        chunk,
        fails: &[],
    };
    let second = Given {
        bytes: UPPER.as_bytes(),
        chunk,
        fails: &[],
    };
    ends(
        alloc,
        CHECK,
        &model,
        &second,
        room,
        status,
        taken.as_bytes(),
    )
}

/// Whether the answer is `yes` where the sources give so many bytes a call.
fn accepts(alloc: Global, chunk: usize) -> bool {
    check_ends(alloc, chunk, &ROOM, Status::Done, "yes\n")
}

/// The answer is the same in whatever pieces the sources give their bytes.
#[test]
fn reads_in_pieces(rt: HostRuntime) {
    let alloc = rt.alloc();
    assert!(rt; accepts(alloc, 1) && accepts(alloc, 7) && accepts(alloc, 65_536));
}

/// Whether a write fault is answered, of a sink that takes this text.
fn write_faults(alloc: Global, room: usize, chunk: usize, fails: &[u64], taken: &str) -> bool {
    let room = Room { room, chunk, fails };
    check_ends(alloc, 7, &room, Status::WriteFault, taken)
}

/// A sink that fails at a write or a flush, or has no room left.
#[test]
fn answers_write_faults(rt: HostRuntime) {
    let alloc = rt.alloc();
    assert!(rt; write_faults(alloc, 100, 2, &[1], "ye"));
    assert!(rt; write_faults(alloc, 100, 2, &[2], "yes\n"));
    assert!(rt; write_faults(alloc, 100, 16, &[0], ""));
    assert!(rt; write_faults(alloc, 100, 16, &[1], "yes\n"));
    assert!(rt; write_faults(alloc, 3, 16, &[], "yes"));
}

/// How a command ends on the files that these open, and a sink.
fn ended_on_files<F: Source + Drop, M: FnOnce(&str) -> F, O: FnOnce(&str) -> F>(
    alloc: Global,
    command: &str,
    open_model: M,
    open_second: O,
    out: &mut ListSink,
) -> Option<Status>
    requires model { M.IsAlwaysCallable open_model }
    requires second { O.IsAlwaysCallable open_second }
{
    let Ok(words) = words_of(alloc, command) else {
        return None;
    };
    Some(run_on_files(alloc, &words, open_model, open_second, out))
}

/// Whether a command ends so on the files that these open, and what it writes.
fn files_end<F: Source + Drop, M: FnOnce(&str) -> F, O: FnOnce(&str) -> F>(
    alloc: Global,
    command: &str,
    open_model: M,
    open_second: O,
    status: Status,
    taken: &[u8],
) -> bool
    requires model { M.IsAlwaysCallable open_model }
    requires second { O.IsAlwaysCallable open_second }
{
    let Ok(mut out) = sink(alloc, &ROOM) else {
        return false;
    };
    let Some(end) = ended_on_files(alloc, command, open_model, open_second, &mut out) else {
        return false;
    };
    end.code() == status.code() && out.bytes() == taken
}

/// The files that the words name, opened as `main` opens them.
#[test]
fn opens_files(rt: HostRuntime) -> Result<(), Fail> {
    fs::write(&rt, "MODEL", COIN.as_bytes())?;
    fs::write(&rt, "CERT", UPPER.as_bytes())?;
    let open = |path: &str| opened(&rt, path, Some(1));
    assert!(rt; files_end(rt.alloc(), CHECK, open, open, Status::Done, b"yes\n"));
    fs::remove_file(&rt, "MODEL")?;
    assert!(rt;
        files_end(
            rt.alloc(),
            CHECK,
            open,
            open,
            Status::ReadFault,
            b"read-fault model\n"
        )
    );
    fs::remove_file(&rt, "CERT")?;
    Ok(())
}

/// What `main` opens where no word names a file has ended: it has no byte, and reading it is no fault. `drill` needs no more.
#[test]
fn opens_what_has_ended(rt: HostRuntime) {
    let open = |path: &str| opened(&rt, path, None);
    let line = b"model line 1 end\n";
    let drilled = b"drill 7 2 2 states 6 choices 10 value 1/2 yes\n";
    assert!(rt; files_end(rt.alloc(), CHECK, open, open, Status::Model, line));
    assert!(rt; files_end(rt.alloc(), "drill 7 2 2", open, open, Status::Done, drilled));
}
