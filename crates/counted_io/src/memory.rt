//! A source and a sink in memory, which fail at the calls that are listed.
ghost use Rattle.std.specs.Prelude.{◌≡◌, ℕ, ◌+◌, ◌-◌, ◌^◌, ◌<◌, ◌≤◌, ◌&&◌, ◌||◌, ◌==◌, min, List, [], ◌∷◌, length, Some, IfOk, is_err, OnErr};
ghost use Rattle.std.specs.Io.KnownBytes.{ReadConsumes, WriteAppends};
ghost use Rattle.counted_io.specs.Transfer.{CountsFailure};
ghost use Rattle.counted_io.specs.Memory.{is_listed, next_call};

use crate::faults::Faults;
use crate::sink::Sink;
use crate::source::{Failed, Source};
use std::alloc::{AllocError, Global};
use std::marker::Model;

/// The calls so far: the next one's number, those that fail, and how many have failed.
#[derive(Drop)]
struct Calls {
    next: u64,
    failing: Vec<u64>,
    faults: Faults,
}

impl Calls {
    fn new(failing: Vec<u64>) -> Calls
        ensures { (result.next ≡ 0) × (result.failing ≡ failing) × (result.faults.count ≡ 0) }
    {
        Calls {
            next: 0,
            failing,
            faults: Faults::new(),
        }
    }

    /// Counts one call, which fails where it is listed.
    fn make(&mut self) -> Result<(), Failed>
        ensures failed { is_err result ≡ is_listed self.old.next self.old.failing.items }
        ensures next { self.new.next ≡ next_call self.old.next }
        ensures listed { self.new.failing ≡ self.old.failing }
        ensures count { CountsFailure self.old.faults.count self.new.faults.count result }
    {
        let fails = self.failing.contains(&self.next);
        self.next = self.next.saturating_add(1);
        if fails {
            self.faults.rise();
            return Err(Failed);
        }
        Ok(())
    }
}

/// A source of bytes in memory.
#[derive(Drop)]
pub struct MemorySource {
    bytes: Vec<u8>,
    at: usize,
    piece: usize,
    calls: Calls,
}

impl Model for MemorySource {
    ghost use Rattle.std.specs.Prelude.{◌<◌, ◌≤◌, length, drop};
    ghost use Rattle.counted_io.specs.Memory.{GivenBytes};

    ghost Value = { GivenBytes };

    ghost view = { λ s. record {
      left = drop s.at s.bytes.items;
      piece = s.piece;
      next = s.calls.next;
      failing = s.calls.failing.items;
      faults = s.calls.faults.count;
    } };

    ghost invariant = { λ s. (s.at ≤ length s.bytes.items) × (0 < s.piece) };
}

impl MemorySource {
    /// A source of these bytes. A read gives at most `piece` of them; calls are numbered from 0,
    /// and a listed one fails.
    pub fn new(bytes: Vec<u8>, piece: usize, failing_calls: Vec<u64>) -> MemorySource
        requires { 0 < piece }
        ensures { result ≡ record {
          left = bytes.items;
          piece = piece;
          next = 0;
          failing = failing_calls.items;
          faults = 0;
        } }
    {
        MemorySource {
            bytes,
            at: 0,
            piece,
            calls: Calls::new(failing_calls),
        }
    }

    /// The bytes that were not read yet.
    pub fn left(&self) -> &[u8]
        ensures { result.now ≡ self.now.left }
    {
        &self.bytes[self.at..]
    }
}

impl Source for MemorySource {
    ghost left = { λ s. Some s.left };

    ghost faults = { λ s. s.faults };

    fn read(&mut self, buffer: &mut [u8]) -> Result<usize, Failed>
        requires { 0 < length buffer.old }
        ensures bound { IfOk result (λ n. n ≤ length buffer.new) }
        ensures bytes { ReadConsumes (Some self.old.left) (Some self.new.left) result buffer.new }
        ensures count { CountsFailure self.old.faults self.new.faults result }
        ensures failed { is_err result ≡ is_listed self.old.next self.old.failing }
        ensures piece { IfOk result
            (λ n. n ≡ min (min self.old.piece (length buffer.new)) (length self.old.left)) }
        ensures next { self.new.next ≡ next_call self.old.next }
        ensures keeps { (self.new.piece ≡ self.old.piece) × (self.new.failing ≡ self.old.failing) }
    {
        self.calls.make()?;
        let left = self.bytes.len() - self.at;
        let n = self.piece.min(buffer.len()).min(left);
        buffer[..n].copy_from_slice(&self.bytes[self.at..self.at + n]);
        self.at += n;
        Ok(n)
    }
}

/// A sink in memory. Its room is made at the start and never grows.
#[derive(Drop)]
pub struct MemorySink {
    buffer: Vec<u8>,
    len: usize,
    piece: usize,
    calls: Calls,
}

impl Model for MemorySink {
    ghost use Rattle.std.specs.Prelude.{◌<◌, ◌≤◌, length, take};
    ghost use Rattle.counted_io.specs.Memory.{TakenBytes};

    ghost Value = { TakenBytes };

    ghost view = { λ s. record {
      taken = take s.len s.buffer.items;
      room = length s.buffer.items;
      piece = s.piece;
      next = s.calls.next;
      failing = s.calls.failing.items;
      faults = s.calls.faults.count;
    } };

    ghost invariant = { λ s. (s.len ≤ length s.buffer.items) × (0 < s.piece) };
}

impl MemorySink {
    /// A sink with room for `room` bytes, of which a write takes at most `piece`. Calls are
    /// numbered from 0, and a listed one fails.
    pub fn new(
        alloc: Global,
        room: usize,
        piece: usize,
        failing_calls: Vec<u64>,
    ) -> Result<MemorySink, AllocError>
        requires { 0 < piece }
        ensures { IfOk result (λ s. s ≡ record {
          taken = [];
          room = room;
          piece = piece;
          next = 0;
          failing = failing_calls.items;
          faults = 0;
        }) }
    {
        Ok(MemorySink {
            buffer: vec![in alloc; 0; room]?,
            len: 0,
            piece,
            calls: Calls::new(failing_calls),
        })
    }

    /// The bytes taken so far.
    pub fn taken(&self) -> &[u8]
        ensures { result.now ≡ self.now.taken }
    {
        &self.buffer[..self.len]
    }
}

impl Sink for MemorySink {
    ghost taken = { λ s. Some s.taken };

    ghost faults = { λ s. s.faults };

    fn write(&mut self, bytes: &[u8]) -> Result<usize, Failed>
        requires { 0 < length bytes.now }
        ensures bound { IfOk result (λ n. (0 < n) × (n ≤ length bytes.now)) }
        ensures bytes { WriteAppends (Some self.old.taken) (Some self.new.taken) result bytes.now }
        ensures count { CountsFailure self.old.faults self.new.faults result }
        ensures failed { is_err result ≡ (is_listed self.old.next self.old.failing
            || (length self.old.taken == self.old.room)) }
        ensures piece { IfOk result (λ n. n ≡ min (min self.old.piece (length bytes.now))
            (self.old.room - length self.old.taken)) }
        ensures next { self.new.next ≡ next_call self.old.next }
        ensures keeps { (self.new.piece ≡ self.old.piece) × (self.new.room ≡ self.old.room)
            × (self.new.failing ≡ self.old.failing) }
    {
        self.calls.make()?;
        let room = self.buffer.len() - self.len;
        if room == 0 {
            self.calls.faults.rise();
            return Err(Failed);
        }
        let n = self.piece.min(bytes.len()).min(room);
        self.buffer[self.len..self.len + n].copy_from_slice(&bytes[..n]);
        self.len += n;
        Ok(n)
    }
}
