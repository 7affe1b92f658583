// The edge to std's readers and writers. A source or a sink here tells nothing of the bytes. Where the reader or
// the writer below tells them, its clauses are passed on.
ghost use Rattle.std.specs.Prelude.{◌≡◌, ◌<◌, ◌≤◌, None, true, false, length, IfOk, OnOk, OnErr};
ghost use Rattle.std.specs.Io.KnownBytes.{Keeps, ReadConsumes, WriteAppends};
ghost use Rattle.bats_io.specs.Faults.{Rose, raised};
ghost use Rattle.bats_io.specs.Standard.{reader_of, source_faults, writer_of, sink_faults, sink_flushed};

use crate::retried::{flush_retried, read_retried, write_retried};
use crate::{Failed, Sink, Source};
use std::io::{Read, Write};

/// A source over a reader. It counts the reader's errors, up to `u64::MAX`. A call that a signal interrupted is made
/// again, and is an error once it was tried 65,536 times.
#[derive(Drop)]
pub struct StdSource<R> {
    inner: R,
    faults: u64,
}

impl<R: Read> StdSource<R> {
    /// A source over this reader, with no fault yet.
    pub fn new(inner: R) -> Self
        ensures reader { reader_of result ≡ inner }
        ensures no_fault { source_faults result ≡ 0 }
    {
        StdSource { inner, faults: 0 }
    }
}

impl<R: Read> Source for StdSource<R> {
    ghost state = { λ source. record { left = None; faults = source_faults source } };

    fn read(&mut self, buf: &mut [u8]) -> Result<usize, Failed>
        requires { 0 < length buf.old }

        // As each source.
        ensures within { IfOk result (λ n. n ≤ length buf.old) }
        ensures no_fault { OnOk result (source_faults self.new ≡ source_faults self.old) }
        ensures failed { OnErr result (Rose (source_faults self.old) (source_faults self.new)) }

        // How many faults there are.
        ensures counted { OnErr result (source_faults self.new ≡ raised (source_faults self.old)) }

        // What the reader did.
        ensures passed_on { ReadConsumes (R.remaining (reader_of self.old))
            (R.remaining (reader_of self.new)) result buf.new }
    {
        match read_retried(&mut self.inner, buf) {
            Ok(n) => Ok(n),
            Err(_) => {
                self.faults = self.faults.saturating_add(1);
                Err(Failed)
            }
        }
    }
}

/// A sink over a writer. It counts the writer's errors, and each write that took no byte, up to `u64::MAX`. A call
/// that a signal interrupted is made again, and is an error once it was tried 65,536 times.
#[derive(Drop)]
pub struct StdSink<W> {
    inner: W,
    faults: u64,
    flushed: bool,
}

impl<W: Write> StdSink<W> {
    /// A sink over this writer, with no fault yet and not flushed.
    pub fn new(inner: W) -> Self
        ensures writer { writer_of result ≡ inner }
        ensures no_fault { sink_faults result ≡ 0 }
        ensures unflushed { sink_flushed result ≡ false }
    {
        StdSink {
            inner,
            faults: 0,
            flushed: false,
        }
    }
}

impl<W: Write> Sink for StdSink<W> {
    ghost state = { λ sink. record {
      written = None;
      flushed = sink_flushed sink;
      faults = sink_faults sink;
    } };

    fn write(&mut self, piece: &[u8]) -> Result<usize, Failed>
        requires { 0 < length piece.now }

        // As each sink.
        ensures some { IfOk result (λ n. 1 ≤ n) }
        ensures within { IfOk result (λ n. n ≤ length piece.now) }
        ensures unflushed { OnOk result (sink_flushed self.new ≡ false) }
        ensures no_fault { OnOk result (sink_faults self.new ≡ sink_faults self.old) }
        ensures failed { OnErr result (Rose (sink_faults self.old) (sink_faults self.new)) }

        // How many faults there are, and what a failure keeps.
        ensures counted { OnErr result (sink_faults self.new ≡ raised (sink_faults self.old)) }
        ensures flushed_kept { OnErr result (sink_flushed self.new ≡ sink_flushed self.old) }

        // What the writer did.
        ensures passed_on { WriteAppends (W.contents (writer_of self.old))
            (W.contents (writer_of self.new)) result piece.now }
    {
        match write_retried(&mut self.inner, piece) {
            Ok(n) if n > 0 => {
                self.flushed = false;
                Ok(n)
            }
            _ => {
                self.faults = self.faults.saturating_add(1);
                Err(Failed)
            }
        }
    }

    fn flush(&mut self) -> Result<(), Failed>
        // As each sink.
        ensures flushed { OnOk result (sink_flushed self.new ≡ true) }
        ensures no_fault { OnOk result (sink_faults self.new ≡ sink_faults self.old) }
        ensures failed { OnErr result (Rose (sink_faults self.old) (sink_faults self.new)) }

        // How many faults there are, and what a failure keeps.
        ensures counted { OnErr result (sink_faults self.new ≡ raised (sink_faults self.old)) }
        ensures flushed_kept { OnErr result (sink_flushed self.new ≡ sink_flushed self.old) }

        // What the writer did. That it was flushed too is in no clause, since std's `Write` names nothing that a
        // flush changes: a test counts the calls.
        ensures passed_on { Keeps (W.contents (writer_of self.old)) (W.contents (writer_of self.new)) }
    {
        match flush_retried(&mut self.inner) {
            Ok(()) => {
                self.flushed = true;
                Ok(())
            }
            Err(_) => {
                self.faults = self.faults.saturating_add(1);
                Err(Failed)
            }
        }
    }
}
