// Sources in memory.
ghost use Rattle.std.specs.Prelude.{◌≡◌, ◌↔◌, ◌≤◌, ◌+◌, ◌++◌, min, length, take, drop, Some, Ok, IfOk, OnErr, IsErr};
ghost use Rattle.std.specs.Io.{ReadsAtMost};
ghost use Rattle.std.specs.Io.KnownBytes.{ReadConsumes};
ghost use Rattle.obd_base.specs.Causes.{HasCause, one_more};
ghost use Rattle.obd_base.specs.Tape.{next_count, IsListed};

use crate::{Failed, Source};
use std::marker::Model;

/// Bytes that are given in pieces, with failures at chosen calls. Calls of `read` are numbered from 1.
#[derive(Drop)]
pub struct MemSource {
    bytes: Vec<u8>,
    at: usize,
    piece: usize,
    failing: Vec<u32>,
    calls: u32,
    faults: u64,
}

impl Model for MemSource {
    ghost use Rattle.std.specs.Prelude.{◌≤◌, length, drop};
    ghost use Rattle.obd_base.specs.Tape.{SourceTape};

    ghost Value = { SourceTape };

    ghost view = { λ s. record { left = drop s.at s.bytes.items; piece = s.piece; failing = s.failing.items; calls = s.calls; faults = s.faults } };

    ghost invariant = { λ s. (s.at ≤ length s.bytes.items) × (1 ≤ s.piece) };
}

impl MemSource {
    /// A source of these bytes that gives at most `piece` of them in a call, and fails at the calls whose
    /// numbers are listed in `failing`. Takes no memory.
    pub fn new(bytes: Vec<u8>, piece: usize, failing: Vec<u32>) -> MemSource
        requires { 1 ≤ piece }
        ensures { result ≡ record { left = bytes.items; piece = piece; failing = failing.items; calls = 0; faults = 0 } }
    {
        MemSource {
            bytes,
            at: 0,
            piece,
            failing,
            calls: 0,
            faults: 0,
        }
    }
}

impl Source for MemSource {
    ghost left = { λ s. Some s.left };

    ghost faults = { λ s. s.faults };

    /// Fails exactly at the listed calls, and counts them. A call past number 4,294,967,295 counts as not
    /// listed. Linear in the bytes that are given and the length of the list. Takes no memory.
    fn read(&mut self, into: &mut [u8]) -> Result<usize, Failed>
        ensures bound { ReadsAtMost result into.new }
        ensures bytes { ReadConsumes (Some self.old.left) (Some self.new.left) result into.new }
        ensures cause { HasCause self.old.faults self.new.faults result }

        ensures failed { IsErr result ↔ IsListed self.old.failing self.old.calls }
        ensures counted { OnErr result (self.new ≡ record self.old { calls = next_count self.old.calls; faults = one_more self.old.faults }) }
        ensures count { IfOk result (λ count. count ≡ min self.old.piece (min (length into.new) (length self.old.left))) }
        ensures after { IfOk result (λ count. self.new ≡ record self.old { left = drop count self.old.left; calls = next_count self.old.calls }) }
    {
        let listed = match self.calls.checked_add(1) {
            Some(number) => {
                self.calls = number;
                self.failing.contains(&number)
            }
            None => false,
        };
        if listed {
            self.faults = self.faults.saturating_add(1);
            return Err(Failed);
        }
        let count = copy_next(&self.bytes, self.at, self.piece, into);
        self.at += count;
        Ok(count)
    }
}

// Copies the bytes from `at` on into the front of `into`, at most `most` of them, and answers how many.
fn copy_next(bytes: &[u8], at: usize, most: usize, into: &mut [u8]) -> usize
    requires { at ≤ length bytes.now }
    ensures count { result ≡ min most (min (length into.new) (length (drop at bytes.now))) }
    ensures copied { drop at bytes.now ≡ take result into.new ++ drop (at + result) bytes.now }
{
    let rest = &bytes[at..];
    let count = most.min(into.len()).min(rest.len());
    into[..count].copy_from_slice(&rest[..count]);
    count
}

/// Bytes that are given at once and never fail. Contracts see it as the bytes that are left.
#[derive(Drop)]
pub struct SureSource {
    bytes: Vec<u8>,
    at: usize,
}

impl Model for SureSource {
    ghost use Rattle.std.specs.Prelude.{◌≤◌, length, drop, List, ℕ};

    ghost Value = { List ℕ };

    ghost view = { λ s. drop s.at s.bytes.items };

    ghost invariant = { λ s. s.at ≤ length s.bytes.items };
}

impl SureSource {
    /// A source of these bytes. Takes no memory.
    pub fn new(bytes: Vec<u8>) -> SureSource
        ensures { result ≡ bytes.items }
    {
        SureSource { bytes, at: 0 }
    }
}

impl Source for SureSource {
    ghost left = { λ s. Some s };

    ghost faults = { λ s. 0 };

    /// Never fails. Takes no memory.
    fn read(&mut self, into: &mut [u8]) -> Result<usize, Failed>
        ensures bound { ReadsAtMost result into.new }
        ensures bytes { ReadConsumes (Some self.old) (Some self.new) result into.new }
        ensures cause { HasCause 0 0 result }

        ensures count { result ≡ Ok (min (length into.new) (length self.old)) }
        ensures after { self.new ≡ drop (min (length into.new) (length self.old)) self.old }
    {
        let count = copy_next(&self.bytes, self.at, into.len(), into);
        self.at += count;
        Ok(count)
    }
}
