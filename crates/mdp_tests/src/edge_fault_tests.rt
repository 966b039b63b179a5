//! A call that is interrupted is made again, up to a thousand times. One that fails for another reason is not.
use mdp_edge::{Sink, Source, StdSink, StdSource};
use std::io;
use std::io::{ErrorKind, Read, Write};

/// A reader and a writer that fail so often, by this error, before each call.
#[derive(Drop)]
struct Failing {
    kind: ErrorKind,
    times: u32,
    left: u32,
}

impl Failing {
    fn new(kind: ErrorKind, times: u32) -> Failing {
        Failing {
            kind,
            times,
            left: times,
        }
    }

    fn call(&mut self) -> io::Result<()> {
        if self.left == 0 {
            self.left = self.times;
            return Ok(());
        }
        self.left -= 1;
        Err(io::Error::from(self.kind))
    }
}

impl Read for Failing {
    fn read(&mut self, buf: &mut [u8]) -> io::Result<usize> {
        self.call()?;
        Ok(buf.len().min(1))
    }
}

impl Write for Failing {
    fn write(&mut self, piece: &[u8]) -> io::Result<usize> {
        self.call()?;
        Ok(piece.len().min(1))
    }

    fn flush(&mut self) -> io::Result<()> {
        self.call()
    }
}

/// What a read of a source over such a reader gives.
fn read(kind: ErrorKind, times: u32) -> Option<usize> {
    let mut source = StdSource::new(Some(Failing::new(kind, times)));
    source.read(&mut [0; 4]).ok()
}

/// What a write to a sink over such a writer takes.
fn written(kind: ErrorKind, times: u32) -> Option<usize> {
    StdSink::new(Failing::new(kind, times)).write(b"ab").ok()
}

/// Whether a sink over such a writer is flushed.
fn is_flushed(kind: ErrorKind, times: u32) -> bool {
    StdSink::new(Failing::new(kind, times)).flush().is_ok()
}

/// Whether each call succeeds.
fn passes(kind: ErrorKind, times: u32) -> bool {
    read(kind, times) == Some(1) && written(kind, times) == Some(1) && is_flushed(kind, times)
}

/// Whether each call fails.
fn faults(kind: ErrorKind, times: u32) -> bool {
    read(kind, times).is_none() && written(kind, times).is_none() && !is_flushed(kind, times)
}

/// A writer with no room.
fn full_faults() -> bool {
    let mut full: [u8; 0] = [];
    StdSink::new(full.as_mut_slice()).write(b"a").is_err()
}

/// Interrupted 999 times, a call succeeds at the thousandth try.
#[test]
fn interruptions(rt: HostRuntime) {
    assert!(rt; passes(ErrorKind::Interrupted, 0) && passes(ErrorKind::Interrupted, 999));
    assert!(rt; faults(ErrorKind::Interrupted, 1000) && full_faults());
}

/// A failure is answered at the call that met it.
#[test]
fn failures(rt: HostRuntime) {
    assert!(rt; faults(ErrorKind::Other, 1));
}
