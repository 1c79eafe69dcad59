// Sinks in memory.
ghost use Rattle.std.specs.Prelude.{◌≡◌, ◌↔◌, ◌≤◌, ◌<◌, ◌-◌, [], ◌++◌, ◌⊎◌, min, length, take, Some, None, IfOk, OnErr, IsErr, Ok};
ghost use Rattle.std.specs.Io.{WritesAtMost};
ghost use Rattle.std.specs.Io.KnownBytes.{WriteAppends};
ghost use Rattle.obd_base.specs.Causes.{HasCause, one_more};
ghost use Rattle.obd_base.specs.Tape.{next_count, IsListed};

use crate::{Failed, NoMemory, Sink};
use std::alloc::Global;
use std::marker::Model;

/// Room for some bytes, which are taken in pieces, with failures at chosen calls. Calls of `write` are
/// numbered from 1.
#[derive(Drop)]
pub struct MemSink {
    bytes: Vec<u8>,
    room: usize,
    piece: usize,
    failing: Vec<u32>,
    calls: u32,
    faults: u64,
}

impl Model for MemSink {
    ghost use Rattle.std.specs.Prelude.{◌≤◌, ◌+◌, vec_len, vec_capacity};
    ghost use Rattle.obd_base.specs.Tape.{SinkTape};

    ghost Value = { SinkTape };

    ghost view = { λ s. record { taken = s.bytes.items; room = s.room; piece = s.piece; failing = s.failing.items; calls = s.calls; faults = s.faults } };

    ghost invariant = { λ s. (1 ≤ s.piece) × (vec_len s.bytes + s.room ≤ vec_capacity s.bytes) };
}

impl MemSink {
    /// A sink with room for `room` bytes that takes at most `piece` of them in a call, and fails at the
    /// calls whose numbers are listed in `failing`.
    pub fn new(
        alloc: Global,
        room: usize,
        piece: usize,
        failing: Vec<u32>,
    ) -> Result<MemSink, NoMemory>
        requires { 1 ≤ piece }
        ensures { IfOk result (λ sink. sink ≡ record { taken = []; room = room; piece = piece; failing = failing.items; calls = 0; faults = 0 }) }
    {
        Ok(MemSink {
            bytes: Vec::with_capacity(alloc, room)?,
            room,
            piece,
            failing,
            calls: 0,
            faults: 0,
        })
    }

    /// The bytes that were taken so far. Takes no memory.
    pub fn taken(&self) -> &[u8]
        ensures { result.now ≡ self.now.taken }
    {
        self.bytes.as_slice()
    }
}

impl Sink for MemSink {
    ghost written = { λ s. Some s.taken };

    ghost faults = { λ s. s.faults };

    /// Fails exactly at the listed calls and where no room is left, and counts both. A call past number
    /// 4,294,967,295 counts as not listed. Linear in the bytes that are taken and the length of the list.
    /// Takes no memory.
    fn write(&mut self, piece: &[u8]) -> Result<usize, Failed>
        ensures bound { WritesAtMost result piece.now }
        ensures some { IfOk result (λ count. 0 < length piece.now → 0 < count) }
        ensures bytes { WriteAppends (Some self.old.taken) (Some self.new.taken) result piece.now }
        ensures cause { HasCause self.old.faults self.new.faults result }

        ensures failed { IsErr result ↔ (IsListed self.old.failing self.old.calls ⊎ (self.old.room ≡ 0)) }
        ensures counted { OnErr result (self.new ≡ record self.old { calls = next_count self.old.calls; faults = one_more self.old.faults }) }
        ensures count { IfOk result (λ count. count ≡ min self.old.piece (min (length piece.now) self.old.room)) }
        ensures after { IfOk result (λ count. self.new ≡ record self.old { taken = self.old.taken ++ take count piece.now; room = self.old.room - count; calls = next_count self.old.calls }) }
    {
        let listed = match self.calls.checked_add(1) {
            Some(number) => {
                self.calls = number;
                self.failing.contains(&number)
            }
            None => false,
        };
        if listed || self.room == 0 {
            self.faults = self.faults.saturating_add(1);
            return Err(Failed);
        }
        let count = self.piece.min(piece.len()).min(self.room);
        self.bytes.extend_from_slice(&piece[..count]).unwrap();
        self.room -= count;
        Ok(count)
    }
}

/// Takes every piece whole, tells nothing, and never fails.
#[derive(Drop)]
pub struct NullSink;

impl NullSink {
    /// The one value of this type. Takes no memory.
    pub fn new() -> NullSink
        ensures { result ≡ record {} }
    {
        NullSink
    }
}

impl Sink for NullSink {
    ghost written = { λ s. None };

    ghost faults = { λ s. 0 };

    /// Never fails. Takes no memory.
    fn write(&mut self, piece: &[u8]) -> Result<usize, Failed>
        ensures bound { WritesAtMost result piece.now }
        ensures some { IfOk result (λ count. 0 < length piece.now → 0 < count) }
        ensures bytes { WriteAppends (None) (None) result piece.now }
        ensures cause { HasCause 0 0 result }

        ensures taken { result ≡ Ok (length piece.now) }
    {
        Ok(piece.len())
    }
}
