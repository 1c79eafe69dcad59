// A source without an end.
ghost use Rattle.std.specs.Prelude.{◌≡◌, length, Ok, None, All};
ghost use Rattle.std.specs.Io.{ReadsAtMost};
ghost use Rattle.std.specs.Io.KnownBytes.{ReadConsumes};
ghost use Rattle.obd_base.specs.Causes.{HasCause};

use crate::{Failed, Source};

/// Gives one byte for ever, tells no bytes, and never fails.
#[derive(Drop)]
pub struct Endless {
    byte: u8,
}

impl Endless {
    /// A source of this byte. Takes no memory.
    pub fn new(byte: u8) -> Endless
        ensures { result ≡ record { byte = byte } }
    {
        Endless { byte }
    }
}

impl Source for Endless {
    ghost left = { λ s. None };

    ghost faults = { λ s. 0 };

    /// Fills `into` with the byte. Never fails. Takes no memory.
    fn read(&mut self, into: &mut [u8]) -> Result<usize, Failed>
        ensures bound { ReadsAtMost result into.new }
        ensures bytes { ReadConsumes (None) (None) result into.new }
        ensures cause { HasCause 0 0 result }

        ensures count { result ≡ Ok (length into.new) }
        ensures filled { All (λ b. b ≡ self.old.byte) into.new }
        ensures same { self.new ≡ self.old }
    {
        into.fill(self.byte);
        Ok(into.len())
    }
}
