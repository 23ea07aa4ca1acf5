//! Reading the whole of a source, and writing the whole of a text.
ghost use Rattle.std.specs.Prelude.{◌≡◌, ◌≢◌, ℕ, ◌+◌, ◌<◌, ◌≤◌, List, ◌++◌, length, vec_len, IfOk, IfErr, OnOk, OnErr};
ghost use Rattle.std.specs.Io.KnownBytes.{Consumes, IsAtEnd, Appends, ReadConsumes};
ghost use Rattle.counted_io.specs.declared.transfer.ReadError.TheVariants.{OutOfMemory};
ghost use Rattle.counted_io.specs.Transfer.{CountsFailure, CountsReadFailure, input_limit, GaveTooMuch, ReadAtMost, TookPart, Grew};

use crate::sink::Sink;
use crate::source::{Failed, Source};
use std::alloc::{AllocError, Global};

/// The most bytes of input that are read: 16 MiB.
pub const INPUT_LIMIT: usize = 16_777_216;

/// How many bytes a read asks for at most.
const CHUNK: usize = 65_536;

/// Why a source was not read whole.
#[derive(Clone, Copy, Debug, PartialEq, Eq)]
pub enum ReadError {
    /// There are more bytes than the limit. One more than that was read.
    TooLong,
    /// A read failed.
    Fault,
    /// Memory ran out.
    OutOfMemory,
}

impl From<AllocError> for ReadError {
    ghost from_gives = { λ _ e. e ≡ OutOfMemory };

    fn from(_error: AllocError) -> ReadError {
        ReadError::OutOfMemory
    }
}

/// Reads the source to its end.
pub fn read_all<S: Source>(alloc: Global, source: &mut S) -> Result<Vec<u8>, ReadError>
    ensures value { IfOk result (λ bytes. Consumes (S.left source.old) (S.left source.new) bytes.items) }
    ensures ended { OnOk result (IsAtEnd (S.left source.new)) }
    ensures within { IfOk result (λ bytes. length bytes.items ≤ input_limit) }
    ensures long { result ≡ Err ReadError.TooLong → GaveTooMuch (S.left source.old) (S.left source.new) }
    ensures stops { ReadAtMost (input_limit + 1) (S.left source.old) (S.left source.new) }
    ensures count { CountsReadFailure (S.faults source.old) (S.faults source.new) result }
{
    let mut bytes = Vec::new(alloc);
    let mut chunk = blank(alloc, CHUNK)?;
    'parts: while bytes.len() <= INPUT_LIMIT {
        let want = (INPUT_LIMIT + 1 - bytes.len()).min(CHUNK);
        let n = take_part(source, &mut bytes, &mut chunk[..want])?;
        if n == 0 {
            return Ok(bytes);
        }
    }
    Err(ReadError::TooLong)
}

/// A buffer of this size.
fn blank(alloc: Global, size: usize) -> Result<Vec<u8>, AllocError>
    ensures { IfOk result (λ buffer. vec_len buffer ≡ size) }
{
    vec![in alloc; 0; size]
}

/// Reads once into the chunk, and appends what was given to the bytes. 0 is the end.
fn take_part<S: Source>(
    source: &mut S,
    bytes: &mut Vec<u8>,
    chunk: &mut [u8],
) -> Result<usize, ReadError>
    requires { 0 < length chunk.old }
    ensures len { IfOk result (λ n. vec_len bytes.new ≡ vec_len bytes.old + n) }
    ensures bound { IfOk result (λ n. n ≤ length chunk.old) }
    ensures given { OnOk result
        (Grew (S.left source.old) (S.left source.new) bytes.old.items bytes.new.items) }
    ensures ended { IfOk result (λ n. n ≡ 0 → IsAtEnd (S.left source.new)) }
    ensures refused { IfErr result (λ e. e ≢ ReadError.TooLong) }
    ensures stops { ReadAtMost (length chunk.old) (S.left source.old) (S.left source.new) }
    ensures count { CountsReadFailure (S.faults source.old) (S.faults source.new) result }
{
    let n = read_part(source, chunk)?;
    bytes.extend_from_slice(&chunk[..n])?;
    Ok(n)
}

/// One read, whose failure is that of the whole.
fn read_part<S: Source>(source: &mut S, buffer: &mut [u8]) -> Result<usize, ReadError>
    requires { 0 < length buffer.old }
    ensures bound { IfOk result (λ n. n ≤ length buffer.new) }
    ensures bytes { ReadConsumes (S.left source.old) (S.left source.new) result buffer.new }
    ensures count { CountsFailure (S.faults source.old) (S.faults source.new) result }
    ensures failed { IfErr result (λ e. e ≡ ReadError.Fault) }
    ensures stops { ReadAtMost (length buffer.old) (S.left source.old) (S.left source.new) }
{
    source.read(buffer).map_err(|_| ReadError::Fault)
}

/// Writes the bytes whole. After a failure what was written is a part from their front.
pub fn write_all<K: Sink>(sink: &mut K, bytes: &[u8]) -> Result<(), Failed>
    ensures whole { OnOk result (Appends (K.taken sink.old) (K.taken sink.new) bytes.now) }
    ensures part { OnErr result (TookPart (K.taken sink.old) (K.taken sink.new) bytes.now) }
    ensures count { CountsFailure (K.faults sink.old) (K.faults sink.new) result }
{
    let mut at = 0;
    'rest: while at < bytes.len() {
        let n = sink.write(&bytes[at..])?;
        at += n;
    }
    Ok(())
}
