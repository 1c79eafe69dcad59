// A text that contracts see as its bytes.
ghost use Rattle.std.specs.Prelude.{◌≡◌, string_bytes, IfOk};

use crate::NoMemory;
use std::alloc::Global;
use std::marker::Model;

/// The name of a label or a curve. Contracts see it as its bytes.
#[derive(Drop, Debug)]
pub struct Name {
    text: String,
}

impl Model for Name {
    ghost use Rattle.std.specs.Prelude.{List, ℕ, string_bytes};

    ghost Value = { List ℕ };

    ghost view = { λ s. string_bytes s.text };
}

impl Name {
    /// The name that a string holds, which is taken over. Takes no memory.
    pub fn from_string(text: String) -> Name
        ensures { result ≡ string_bytes text }
    {
        Name { text }
    }

    /// A name of its own with this text.
    pub fn from_str(alloc: Global, text: &str) -> Result<Name, NoMemory>
        ensures { IfOk result (λ name. name ≡ text.now) }
    {
        Ok(Name {
            text: String::from_str(alloc, text)?,
        })
    }

    pub fn as_str(&self) -> &str
        ensures { result.now ≡ self.now }
    {
        self.text.as_str()
    }
}
