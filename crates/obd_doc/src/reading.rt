// Values of some kind, read from JSON.
ghost use Rattle.std.specs.Prelude.{◌≡◌};
ghost use Rattle.serde_json.specs.View.{view};
ghost use Rattle.obd_doc.specs.Reading.{Kind, Reads, array_of};

use obd_base::{Items, NoMemory};
use serde_json::Value;
use std::alloc::Global;

// Why a value isn't read: it lacks its form, or a number in it isn't whole or not in its range.
#[derive(Clone, Copy, Debug, PartialEq, Eq)]
pub(crate) enum Unread {
    Form,
    Number,
    NoMemory,
}

impl From<NoMemory> for Unread {
    ghost use Rattle.std.specs.Prelude.{◌≡◌};
    ghost use Rattle.obd_doc.specs.declared.reading.Unread.TheVariants as unread;

    ghost from_gives = { λ _ reason. reason ≡ unread.NoMemory };

    fn from(_: NoMemory) -> Self {
        Unread::NoMemory
    }
}

/// What can be read from a value.
pub(crate) trait Readable: Drop {
    /// What kind of values it is read from.
    ghost kind: { Kind Self };

    /// Reads the value once.
    fn read(alloc: Global, value: &Value) -> Result<Self, Unread>
        ensures { Reads kind (view value.now) result };
}

impl<T: Readable> Readable for Items<T> {
    ghost kind = { array_of T.kind };

    fn read(alloc: Global, value: &Value) -> Result<Self, Unread> {
        let Some(values) = value.as_array() else {
            return Err(Unread::Form);
        };
        let mut items = Items::new(alloc);
        let mut is_whole = true;
        for value in values.as_slice() {
            match T::read(alloc, value) {
                Ok(item) => items.push(item)?,
                Err(Unread::Number) => is_whole = false,
                Err(Unread::Form) => return Err(Unread::Form),
                Err(Unread::NoMemory) => return Err(Unread::NoMemory),
            }
        }
        if is_whole {
            Ok(items)
        } else {
            Err(Unread::Number)
        }
    }
}
