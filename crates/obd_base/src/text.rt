// A text that grows at its end.
ghost use Rattle.std.specs.Prelude.{◌≡◌, [], ◌++◌, if◌then◌else◌, is_ok, decimal};
ghost use Rattle.std.specs.Fmt.{signed_decimal};

use crate::NoMemory;
use itoa::Buffer;
use std::alloc::Global;
use std::marker::Model;

/// A text under construction. Contracts see it as its bytes. Each put is linear in what it appends, but
/// for the growth of the text's memory, and a refused put leaves the text as it was.
#[derive(Drop)]
pub struct Text {
    bytes: Vec<u8>,
}

impl Model for Text {
    ghost use Rattle.std.specs.Prelude.{List, ℕ};

    ghost Value = { List ℕ };

    ghost view = { λ t. t.bytes.items };
}

impl Text {
    /// The empty text. Takes no memory.
    pub fn new(alloc: Global) -> Text
        ensures { result ≡ [] }
    {
        Text {
            bytes: Vec::new(alloc),
        }
    }

    /// Appends a word.
    pub fn put(&mut self, word: &str) -> Result<(), NoMemory>
        ensures { self.new ≡ (if is_ok result then self.old ++ word.now else self.old) }
    {
        self.put_bytes(word.as_bytes())
    }

    /// Appends the decimal digits of a number, with no leading zero.
    pub fn put_number(&mut self, n: u64) -> Result<(), NoMemory>
        ensures { self.new ≡ (if is_ok result then self.old ++ decimal n else self.old) }
    {
        let mut buffer = Buffer::new();
        self.put(buffer.format(n))
    }

    /// Appends the decimal digits of a number, behind `-` where it is below 0.
    pub fn put_signed(&mut self, n: i64) -> Result<(), NoMemory>
        ensures { self.new ≡ (if is_ok result then self.old ++ signed_decimal n else self.old) }
    {
        let mut buffer = Buffer::new();
        self.put(buffer.format(n))
    }

    /// Appends bytes as they are.
    pub fn put_bytes(&mut self, piece: &[u8]) -> Result<(), NoMemory>
        ensures { self.new ≡ (if is_ok result then self.old ++ piece.now else self.old) }
    {
        self.bytes.extend_from_slice(piece)?;
        Ok(())
    }

    /// The text so far. Takes no memory.
    pub fn bytes(&self) -> &[u8]
        ensures { result.now ≡ self.now }
    {
        self.bytes.as_slice()
    }
}
