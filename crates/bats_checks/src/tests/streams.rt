//! Sources and sinks: those over std's readers and writers, and those in memory. How many calls of a reader or a writer
//! are made is counted in a cell beside it. How many faults are counted, and what is flushed, is said by contracts.
use bats_io::{Failed, MemSink, MemSource, Sink, Source, StdSink, StdSource, write_whole};
use std::cell::Cell;
use std::io::{self, Read, Write};
use std::test::Fail;

// Counts a call, and gives its number.
fn count(calls: &Cell<u8>) -> u8 {
    let number = calls.get().saturating_add(1);
    calls.set(number);
    number
}

// Fails at the first read, with an error of this kind, and gives the byte 7 at each later one.
#[derive(Drop)]
struct LateReader<'a> {
    kind: io::ErrorKind,
    calls: &'a Cell<u8>,
}

impl<'a> Read for LateReader<'a> {
    fn read(&mut self, buf: &mut [u8]) -> io::Result<usize> {
        if count(self.calls) == 1 {
            return Err(io::Error::from(self.kind));
        }
        let Some(first) = buf.first_mut() else {
            return Ok(0);
        };
        *first = 7;
        Ok(1)
    }
}

// Fails at the first write and the first flush, with an error of this kind, or takes no byte at the first write, and
// does each later one.
#[derive(Drop)]
struct LateWriter<'a> {
    kind: io::ErrorKind,
    takes_nothing: bool,
    writes: &'a Cell<u8>,
    flushes: &'a Cell<u8>,
}

impl<'a> Write for LateWriter<'a> {
    fn write(&mut self, piece: &[u8]) -> io::Result<usize> {
        if count(self.writes) > 1 {
            return Ok(piece.len());
        }
        if self.takes_nothing {
            return Ok(0);
        }
        Err(io::Error::from(self.kind))
    }

    fn flush(&mut self) -> io::Result<()> {
        if count(self.flushes) > 1 {
            return Ok(());
        }
        Err(io::Error::from(self.kind))
    }
}

#[test]
fn reads_to_the_end(rt: HostRuntime) {
    let mut buf = [0; 4];
    let mut source = StdSource::new(b"abc".as_slice());
    assert_eq!(rt; source.read(&mut buf), Ok(3));
    assert_eq!(rt; &buf, b"abc\0");
    assert_eq!(rt; source.read(&mut buf), Ok(0));
}

#[test]
fn reads_once_a_call(rt: HostRuntime) {
    let calls = Cell::new(0);
    let mut buf = [0; 4];
    let mut source = StdSource::new(LateReader {
        kind: io::ErrorKind::TimedOut,
        calls: &calls,
    });
    assert_eq!(rt; source.read(&mut buf), Err(Failed));
    assert_eq!(rt; calls.get(), 1);
    assert_eq!(rt; source.read(&mut buf), Ok(1));
    assert_eq!(rt; &buf, b"\x07\0\0\0");
    assert_eq!(rt; calls.get(), 2);
}

#[test]
fn writes_what_is_given(rt: HostRuntime) -> Result<(), Fail> {
    let mut written = Vec::new(rt.alloc());
    let mut sink = StdSink::new(&mut written);
    assert_eq!(rt; sink.write(b"abc"), Ok(3));
    assert_eq!(rt; sink.flush(), Ok(()));
    drop(sink);
    assert_eq!(rt; written.as_slice(), b"abc".as_slice());
    Ok(())
}

#[test]
fn writes_once_a_call(rt: HostRuntime) {
    for takes_nothing in [false, true] {
        let writes = Cell::new(0);
        let flushes = Cell::new(0);
        let mut sink = StdSink::new(LateWriter {
            kind: io::ErrorKind::TimedOut,
            takes_nothing,
            writes: &writes,
            flushes: &flushes,
        });
        assert_eq!(rt; sink.write(b"abc"), Err(Failed));
        assert_eq!(rt; writes.get(), 1);
        assert_eq!(rt; sink.write(b"abc"), Ok(3));
        assert_eq!(rt; writes.get(), 2);
        assert_eq!(rt; flushes.get(), 0);
    }
}

#[test]
fn flushes_once_a_call(rt: HostRuntime) {
    let writes = Cell::new(1);
    let flushes = Cell::new(0);
    let mut sink = StdSink::new(LateWriter {
        kind: io::ErrorKind::TimedOut,
        takes_nothing: false,
        writes: &writes,
        flushes: &flushes,
    });
    assert_eq!(rt; sink.write(b"abc"), Ok(3));
    assert_eq!(rt; sink.flush(), Err(Failed));
    assert_eq!(rt; flushes.get(), 1);
    assert_eq!(rt; sink.flush(), Ok(()));
    assert_eq!(rt; flushes.get(), 2);
    assert_eq!(rt; writes.get(), 2);
}

#[test]
fn reads_again_when_interrupted(rt: HostRuntime) {
    let calls = Cell::new(0);
    let mut buf = [0; 4];
    let mut source = StdSource::new(LateReader {
        kind: io::ErrorKind::Interrupted,
        calls: &calls,
    });
    assert_eq!(rt; source.read(&mut buf), Ok(1));
    assert_eq!(rt; &buf, b"\x07\0\0\0");
    assert_eq!(rt; calls.get(), 2);
}

#[test]
fn writes_and_flushes_again_when_interrupted(rt: HostRuntime) {
    let writes = Cell::new(0);
    let flushes = Cell::new(0);
    let mut sink = StdSink::new(LateWriter {
        kind: io::ErrorKind::Interrupted,
        takes_nothing: false,
        writes: &writes,
        flushes: &flushes,
    });
    assert_eq!(rt; sink.write(b"abc"), Ok(3));
    assert_eq!(rt; writes.get(), 2);
    assert_eq!(rt; sink.flush(), Ok(()));
    assert_eq!(rt; flushes.get(), 2);
}

#[test]
fn goes_on_after_a_failed_read(rt: HostRuntime) -> Result<(), Fail> {
    let alloc = rt.alloc();
    let mut source = MemSource::new(b"abcde".to_vec(alloc)?, 2, vec![in alloc; 2]?);
    let mut buf = [0; 4];
    assert_eq!(rt; source.read(&mut buf), Ok(2));
    assert_eq!(rt; &buf, b"ab\0\0");
    assert_eq!(rt; source.read(&mut buf), Err(Failed));
    assert_eq!(rt; &buf, b"ab\0\0");
    assert_eq!(rt; source.read(&mut buf), Ok(2));
    assert_eq!(rt; &buf, b"cd\0\0");
    assert_eq!(rt; source.read(&mut buf[..1]), Ok(1));
    assert_eq!(rt; &buf, b"ed\0\0");
    assert_eq!(rt; source.read(&mut buf), Ok(0));
    Ok(())
}

#[test]
fn goes_on_after_a_failed_call(rt: HostRuntime) -> Result<(), Fail> {
    let alloc = rt.alloc();
    let mut sink = MemSink::with_room(alloc, 9, 3, vec![in alloc; 2, 4]?)?;
    assert_eq!(rt; sink.write(b"abcd"), Ok(3));
    assert_eq!(rt; sink.write(b"d"), Err(Failed));
    assert_eq!(rt; sink.written(), b"abc".as_slice());
    assert_eq!(rt; sink.write(b"d"), Ok(1));
    assert_eq!(rt; sink.flush(), Err(Failed));
    assert_eq!(rt; sink.flush(), Ok(()));
    assert_eq!(rt; sink.write(b"e"), Ok(1));
    assert_eq!(rt; sink.written(), b"abcde".as_slice());
    Ok(())
}

#[test]
fn fails_where_no_room_is_left(rt: HostRuntime) -> Result<(), Fail> {
    let alloc = rt.alloc();
    let mut sink = MemSink::with_room(alloc, 4, 9, Vec::new(alloc))?;
    assert_eq!(rt; sink.write(b"abcde"), Ok(4));
    assert_eq!(rt; sink.write(b"e"), Err(Failed));
    assert_eq!(rt; sink.flush(), Ok(()));
    assert_eq!(rt; sink.written(), b"abcd".as_slice());
    Ok(())
}

#[test]
fn writes_in_pieces(rt: HostRuntime) -> Result<(), Fail> {
    let alloc = rt.alloc();
    let mut sink = MemSink::with_room(alloc, 10, 3, Vec::new(alloc))?;
    assert_eq!(rt; write_whole(&mut sink, b"0123456789"), Ok(()));
    assert_eq!(rt; write_whole(&mut sink, b""), Ok(()));
    assert_eq!(rt; sink.written(), b"0123456789".as_slice());
    Ok(())
}

#[test]
fn stops_at_a_failed_write(rt: HostRuntime) -> Result<(), Fail> {
    let alloc = rt.alloc();
    let mut sink = MemSink::with_room(alloc, 9, 2, vec![in alloc; 2]?)?;
    assert_eq!(rt; write_whole(&mut sink, b"abcdef"), Err(Failed));
    assert_eq!(rt; sink.written(), b"ab".as_slice());
    assert_eq!(rt; write_whole(&mut sink, b"cd"), Ok(()));
    assert_eq!(rt; sink.written(), b"abcd".as_slice());
    Ok(())
}
