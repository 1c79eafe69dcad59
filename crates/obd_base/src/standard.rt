// The program's own input and output. This is the trusted edge: no clause says what bytes go through.
ghost use Rattle.std.specs.Prelude.{◌≡◌, ◌<◌, length, None, IfOk};
ghost use Rattle.std.specs.Io.{WritesAtMost};

use crate::{Failed, Sink, Source};
use std::io::{Read, Write};
use std::marker::Model;

/// A reader of the runtime as a source. It tells no bytes, and counts each error in 64 bits, where the
/// count stays at its last value. Contracts see it as this count.
#[derive(Drop)]
pub struct StdSource<R> {
    reader: R,
    faults: u64,
}

impl<R> Model for StdSource<R> {
    ghost use Rattle.std.specs.Prelude.{ℕ};

    ghost Value = { ℕ };

    ghost view = { λ s. s.faults };
}

impl<R: Read + Drop> StdSource<R> {
    /// A source that reads from this reader and has not failed. Takes no memory.
    pub fn new(reader: R) -> Self
        ensures { result ≡ 0 }
    {
        StdSource { reader, faults: 0 }
    }
}

impl<R: Read + Drop> Source for StdSource<R> {
    ghost left = { λ s. None };

    ghost faults = { λ s. s };

    /// Fails exactly where the reader does.
    fn read(&mut self, into: &mut [u8]) -> Result<usize, Failed> {
        match self.reader.read(into) {
            Ok(count) => Ok(count),
            Err(_) => {
                self.faults = self.faults.saturating_add(1);
                Err(Failed)
            }
        }
    }
}

/// A writer of the runtime as a sink, flushed after each write. It tells no bytes, and counts each error
/// in 64 bits, where the count stays at its last value. Contracts see it as this count.
#[derive(Drop)]
pub struct StdSink<W> {
    writer: W,
    faults: u64,
}

impl<W> Model for StdSink<W> {
    ghost use Rattle.std.specs.Prelude.{ℕ};

    ghost Value = { ℕ };

    ghost view = { λ s. s.faults };
}

impl<W: Write + Drop> StdSink<W> {
    /// A sink that writes to this writer and has not failed. Takes no memory.
    pub fn new(writer: W) -> Self
        ensures { result ≡ 0 }
    {
        StdSink { writer, faults: 0 }
    }
}

impl<W: Write + Drop> Sink for StdSink<W> {
    ghost written = { λ s. None };

    ghost faults = { λ s. s };

    /// Fails where the writer does, and where it takes no byte of a piece that is not empty.
    fn write(&mut self, piece: &[u8]) -> Result<usize, Failed> {
        let written = write_and_flush(&mut self.writer, piece);
        if written.is_err() {
            self.faults = self.faults.saturating_add(1);
        }
        written
    }
}

// Writes once and flushes. A write of 0 bytes of a piece that is not empty is a failure.
fn write_and_flush<W: Write>(writer: &mut W, piece: &[u8]) -> Result<usize, Failed>
    ensures bound { WritesAtMost result piece.now }
    ensures some { IfOk result (λ count. 0 < length piece.now → 0 < count) }
{
    match writer.write(piece) {
        Ok(count) if count == 0 && !piece.is_empty() => Err(Failed),
        Ok(count) if writer.flush().is_ok() => Ok(count),
        _ => Err(Failed),
    }
}
