ghost use Rattle.std.specs.Prelude.{◌≡◌, ◌≤◌, ◌<◌, ◌+◌, ◌++◌, ◌↔◌, [], IsTrue, IfOk, OnOk, OnErr, Contains, length, min, take, drop, flat_map, vec_len, vec_capacity};
ghost use Rattle.svc_io.specs.Bytes.{Gave, Got, IsEmpty};
ghost use Rattle.svc_io.specs.Calls.{first_calls};
ghost use Rattle.svc_io.specs.Faults.{HasCause, nothing_beside};
ghost use Rattle.svc_io.specs.Memory.{TakesFront, PutsFront, bytes_left, bytes_given, joined, with_bytes};

use crate::calls::Calls;
use crate::{Failed, Sink, Source};
use std::alloc::{AllocError, Global};
use std::marker::Model;

// Copies as many bytes as both have, and answers how many.
fn copy_front(from: &[u8], into: &mut [u8]) -> usize
    ensures count { result ≡ min (length from.now) (length into.old) }
    ensures front { take result into.new ≡ take result from.now }
    ensures bytes { into.new ≡ take result from.now ++ drop result into.old }
{
    let count = from.len().min(into.len());
    into[..count].copy_from_slice(&from[..count]);
    count
}

// Appends bytes for which there is room.
fn append_in_room(bytes: &mut Vec<u8>, front: &[u8])
    requires { vec_len bytes.old + length front.now ≤ vec_capacity bytes.old }
    ensures bytes { bytes.new.items ≡ bytes.old.items ++ front.now }
    ensures capacity { vec_capacity bytes.old ≤ vec_capacity bytes.new }
{
    if bytes.extend_from_slice(front).is_err() {
        unreachable!()
    }
}

/// A source in memory. It gives its pieces one by one, the front of one piece at a call, and
/// passes over empty ones. It fails at the calls of `take` that are listed, which are numbered
/// from 1, and at no other.
#[derive(Drop)]
pub struct MemSource {
    pieces: Vec<Vec<u8>>,
    piece: usize,
    offset: usize,
    calls: Calls,
}

impl Model for MemSource {
    ghost use Rattle.std.specs.Prelude.{drop};
    ghost use Rattle.svc_io.specs.Memory.{SourceState, with_bytes_from};

    ghost Value = { SourceState };

    ghost view = { λ s. record {
      pieces = with_bytes_from s.offset (drop s.piece s.pieces.items);
      calls = s.calls;
    } };
}

impl MemSource {
    /// A source of these pieces. It takes no memory.
    pub fn new(pieces: Vec<Vec<u8>>, failing: Vec<u64>) -> MemSource
        ensures pieces { result.pieces ≡ with_bytes pieces.items }
        ensures bytes { joined result.pieces ≡ flat_map (λ piece. piece.items) pieces.items }
        ensures calls { result.calls ≡ first_calls failing.items }
    {
        MemSource {
            pieces,
            piece: 0,
            offset: 0,
            calls: Calls::new(failing),
        }
    }
}

impl Source for MemSource {
    ghost left = { bytes_left };

    ghost faults = { λ s. s.calls.faults };

    ghost beside = { λ _. nothing_beside };

    fn take(&mut self, into: &mut [u8]) -> Result<usize, Failed>
        ensures takes { TakesFront self.old into.old into.new self.new result }

        ensures bound { IfOk result (λ count. count ≤ length into.new) }
        ensures bytes { IfOk result (λ count.
            Gave (bytes_left self.old) (take count into.new) (bytes_left self.new)) }
        ensures end { IfOk result (λ count.
            count ≡ 0 → 0 < length into.new → IsEmpty (bytes_left self.new)) }
        ensures err { OnErr result (bytes_left self.new ≡ bytes_left self.old) }
        ensures cause { HasCause self.old.calls.faults self.new.calls.faults result }
        ensures unfailed { OnOk result (self.new.calls.faults ≡ self.old.calls.faults) }
    {
        self.calls.make()?;
        while self.piece < self.pieces.len() {
            let piece = &self.pieces[self.piece];
            if self.offset < piece.len() {
                let count = copy_front(&piece[self.offset..], into);
                self.offset += count;
                return Ok(count);
            }
            self.piece += 1;
            self.offset = 0;
        }
        Ok(0)
    }
}

/// A sink in memory. It takes at most `most` bytes at a call, and `room` bytes in all. It fails at
/// the calls of `put` that are listed, which are numbered from 1, and where it is given bytes and
/// no room is left, and at no other.
#[derive(Drop)]
pub struct MemSink {
    bytes: Vec<u8>,
    most: usize,
    room: usize,
    calls: Calls,
}

impl Model for MemSink {
    ghost use Rattle.std.specs.Prelude.{◌≤◌, vec_len, vec_capacity};
    ghost use Rattle.svc_io.specs.Memory.{SinkState};

    ghost Value = { SinkState };

    ghost view = { λ s. record {
      given = s.bytes.items;
      most = s.most;
      room = s.room;
      calls = s.calls;
    } };

    ghost invariant = { λ s. (1 ≤ s.most) × (vec_len s.bytes ≤ s.room) × (s.room ≤ vec_capacity s.bytes) };
}

impl MemSink {
    /// An empty sink. It reserves `room` bytes, so that `put` takes no memory.
    pub fn new(
        alloc: Global,
        most: usize,
        room: usize,
        failing: Vec<u64>,
    ) -> Result<MemSink, AllocError>
        requires { 1 ≤ most }
        ensures given { IfOk result (λ sink. sink.given ≡ []) }
        ensures most { IfOk result (λ sink. sink.most ≡ most) }
        ensures room { IfOk result (λ sink. sink.room ≡ room) }
        ensures calls { IfOk result (λ sink. sink.calls ≡ first_calls failing.items) }
    {
        Ok(MemSink {
            bytes: Vec::with_capacity(alloc, room)?,
            most,
            room,
            calls: Calls::new(failing),
        })
    }

    /// The bytes that it was given. It takes no memory.
    pub fn bytes(&self) -> &[u8]
        ensures { result.now ≡ self.now.given }
    {
        &self.bytes
    }
}

impl Sink for MemSink {
    ghost given = { bytes_given };

    ghost faults = { λ s. s.calls.faults };

    ghost beside = { λ _. nothing_beside };

    fn put(&mut self, piece: &[u8]) -> Result<usize, Failed>
        ensures puts { PutsFront self.old piece.now self.new result }

        ensures bound { IfOk result (λ count. count ≤ length piece.now) }
        ensures some { IfOk result (λ count. 0 < length piece.now → 0 < count) }
        ensures bytes { IfOk result (λ count.
            Got (bytes_given self.old) (take count piece.now) (bytes_given self.new)) }
        ensures err { OnErr result (bytes_given self.new ≡ bytes_given self.old) }
        ensures cause { HasCause self.old.calls.faults self.new.calls.faults result }
        ensures unfailed { OnOk result (self.new.calls.faults ≡ self.old.calls.faults) }
    {
        self.calls.make()?;
        let free = self.room - self.bytes.len();
        if free == 0 && !piece.is_empty() {
            return Err(self.calls.fail());
        }
        let count = piece.len().min(self.most).min(free);
        append_in_room(&mut self.bytes, &piece[..count]);
        Ok(count)
    }
}
