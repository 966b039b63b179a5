use mdp_edge::{
    InError, ListSink, ListSource, Sink, Source, StdSink, StdSource, SureSink, SureSource,
    read_all, write_all,
};
use std::alloc::{AllocError, Global};
use std::fs;
use std::fs::File;
use std::test::Fail;

/// A text of 45 bytes.
const TEXT: &[u8] = b"mdp-certificate 1\nclaim max reach \"goal\"\nend\n";

fn source(
    alloc: Global,
    bytes: &[u8],
    chunk: usize,
    fails: &[u64],
) -> Result<ListSource, AllocError> {
    let bytes = bytes.to_vec(alloc)?;
    Ok(ListSource::new(bytes, chunk.max(1), fails.to_vec(alloc)?))
}

/// Whether these bytes are read to the end of a source.
fn gives<S: Source>(alloc: Global, source: &mut S, limit: usize, due: &[u8]) -> bool {
    let Ok(bytes) = read_all(alloc, source, limit) else {
        return false;
    };
    bytes.as_slice() == due
}

/// A source of as many bytes as the limit.
fn reads_four(alloc: Global, chunk: usize) -> bool {
    let Ok(mut four) = source(alloc, b"abcd", chunk, &[]) else {
        return false;
    };
    gives(alloc, &mut four, 4, b"abcd")
}

/// A source of one byte more.
fn refuses_five(alloc: Global, chunk: usize) -> bool {
    let Ok(mut five) = source(alloc, b"abcde", chunk, &[]) else {
        return false;
    };
    matches!(read_all(alloc, &mut five, 4), Err(InError::Long))
}

/// A source that fails at its second call.
fn reads_behind_a_fault(alloc: Global) -> bool {
    let Ok(mut failing) = source(alloc, b"abcd", 2, &[1]) else {
        return false;
    };
    matches!(read_all(alloc, &mut failing, 4), Err(InError::ReadFault))
        && gives(alloc, &mut failing, 4, b"cd")
}

/// A source that never fails.
fn reads_surely(alloc: Global) -> bool {
    let Ok(text) = TEXT.to_vec(alloc) else {
        return false;
    };
    gives(alloc, &mut SureSource::new(text), 100, TEXT)
}

/// What `read_all` gives within the limit, at each chunk.
#[test]
fn reads_to_the_end(rt: HostRuntime) {
    for chunk in [1, 2, 3, 9] {
        assert!(rt; refuses_five(rt.alloc(), chunk) && reads_four(rt.alloc(), chunk));
    }
    assert!(rt; reads_behind_a_fault(rt.alloc()) && reads_surely(rt.alloc()));
}

/// A sink of so much room that takes 16 bytes a call, and fails at the call of this number.
fn sink(alloc: Global, room: usize, fails: u64) -> Result<ListSink, AllocError> {
    let store = vec![in alloc; 0; room]?;
    Ok(ListSink::new(store, 16, [fails].to_vec(alloc)?))
}

/// Whether such a sink takes so many bytes of the text, and whether that is all.
fn takes(alloc: Global, room: usize, fails: u64, taken: usize, is_all: bool) -> bool {
    let Ok(mut sink) = sink(alloc, room, fails) else {
        return false;
    };
    write_all(&mut sink, TEXT).is_ok() == is_all && Some(sink.bytes()) == TEXT.get(..taken)
}

/// A sink that never fails.
fn writes_surely() -> bool {
    let mut sure = SureSink::new();
    write_all(&mut sure, TEXT).is_ok() && sure.count() == 45
}

/// What a sink over a store has taken, and whether all was.
#[test]
fn writes_to_the_end(rt: HostRuntime) {
    let alloc = rt.alloc();
    assert!(rt; takes(alloc, 100, 9, 45, true) && takes(alloc, 100, 1, 16, false));
    assert!(rt; takes(alloc, 40, 9, 40, false) && takes(alloc, 100, 3, 45, false));
    assert!(rt; writes_surely());
}

/// Whether the text is written to a file.
fn is_stored(file: File) -> bool {
    write_all(&mut StdSink::new(file), TEXT).is_ok()
}

/// Whether the text is read from a file.
fn is_kept(alloc: Global, file: File) -> bool {
    gives(alloc, &mut StdSource::new(Some(file)), 100, TEXT)
}

/// Whether the want of a file is a fault.
fn is_missed(alloc: Global, file: Option<File>) -> bool {
    matches!(
        read_all(alloc, &mut StdSource::new(file), 100),
        Err(InError::ReadFault)
    )
}

/// What is written to a file is read back from it.
#[test]
fn files(rt: HostRuntime) -> Result<(), Fail> {
    assert!(rt; is_stored(fs::create(&rt, "mdp_edge_test")?));
    assert!(rt; is_kept(rt.alloc(), fs::open(&rt, "mdp_edge_test")?));
    fs::remove_file(&rt, "mdp_edge_test")?;
    assert!(rt; is_missed(rt.alloc(), fs::open(&rt, "mdp_edge_test").ok()));
    Ok(())
}
