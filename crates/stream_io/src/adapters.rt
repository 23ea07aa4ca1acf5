//! std's readers and writers as sources and sinks: the trusted edge. A call that a signal interrupts is made again, as
//! std's own adapters do.
ghost use Rattle.std.specs.Prelude.{◌≡◌, ◌≤◌, length, None, IfOk};
ghost use Rattle.std.specs.Io.{ReadsAtMost, WritesAtMost};
ghost use Rattle.std.specs.Io.KnownBytes.{ReadConsumes};

use counted_io::{Failed, Faults, Sink, Source};
use std::io::{self, ErrorKind, Read, Write};

/// A call is made so often at most.
const TURNS: u64 = u64::MAX;

/// One read, made again where a signal interrupts it.
#[tactic(auto, using(crate::proofs::AdapterLemmas::keeps_on, crate::proofs::AdapterLemmas::consumes_kept))]
fn read_again<R: Read>(reader: &mut R, buffer: &mut [u8]) -> io::Result<usize>
    ensures bound { ReadsAtMost result buffer.new }
    ensures bytes { ReadConsumes (R.remaining reader.old) (R.remaining reader.new) result buffer.new }
{
    for _ in 0..TURNS {
        match reader.read(buffer) {
            Ok(n) => return Ok(n),
            Err(error) if error.kind() == ErrorKind::Interrupted => {}
            Err(error) => return Err(error),
        }
    }
    Err(ErrorKind::TimedOut.into())
}

/// One write, made again where a signal interrupts it.
fn write_again<W: Write>(writer: &mut W, bytes: &[u8]) -> io::Result<usize>
    ensures bound { WritesAtMost result bytes.now }
{
    for _ in 0..TURNS {
        match writer.write(bytes) {
            Err(error) if error.kind() == ErrorKind::Interrupted => {}
            done => return done,
        }
    }
    Err(ErrorKind::TimedOut.into())
}

/// A flush, made again where a signal interrupts it.
fn flush_again<W: Write>(writer: &mut W) -> io::Result<()> {
    for _ in 0..TURNS {
        match writer.flush() {
            Err(error) if error.kind() == ErrorKind::Interrupted => {}
            done => return done,
        }
    }
    Err(ErrorKind::TimedOut.into())
}

/// A reader as a source. Each error of the reader is a fault, but that a signal came.
#[derive(Drop)]
pub struct ReadSource<R> {
    reader: R,
    faults: Faults,
}

impl<R: Read> ReadSource<R> {
    /// A source of what the reader gives.
    pub fn new(reader: R) -> ReadSource<R>
        ensures { (result.reader ≡ reader) × (result.faults.count ≡ 0) }
    {
        ReadSource {
            reader,
            faults: Faults::new(),
        }
    }
}

impl<R: Read> Source for ReadSource<R> {
    ghost left = { λ s. R.remaining s.reader };

    ghost faults = { λ s. s.faults.count };

    fn read(&mut self, buffer: &mut [u8]) -> Result<usize, Failed> {
        match read_again(&mut self.reader, buffer) {
            Ok(n) => Ok(n),
            Err(_) => {
                self.faults.rise();
                Err(Failed)
            }
        }
    }
}

/// A writer as a sink, flushed after each write. Each error of the writer is a fault, but that a signal came, and so is a
/// write of nothing. It reports no bytes.
#[derive(Drop)]
pub struct WriteSink<W> {
    writer: W,
    faults: Faults,
}

impl<W: Write> WriteSink<W> {
    /// A sink that hands its bytes to the writer.
    pub fn new(writer: W) -> WriteSink<W>
        ensures { (result.writer ≡ writer) × (result.faults.count ≡ 0) }
    {
        WriteSink {
            writer,
            faults: Faults::new(),
        }
    }

    fn pass(&mut self, bytes: &[u8]) -> io::Result<usize>
        ensures bound { IfOk result (λ n. n ≤ length bytes.now) }
        ensures keeps { self.new.faults ≡ self.old.faults }
    {
        let n = write_again(&mut self.writer, bytes)?;
        flush_again(&mut self.writer)?;
        Ok(n)
    }
}

impl<W: Write> Sink for WriteSink<W> {
    ghost taken = { λ _. None };

    ghost faults = { λ s. s.faults.count };

    fn write(&mut self, bytes: &[u8]) -> Result<usize, Failed> {
        match self.pass(bytes) {
            Ok(n) if n > 0 => Ok(n),
            _ => {
                self.faults.rise();
                Err(Failed)
            }
        }
    }
}
