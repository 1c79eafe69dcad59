// Curves and entries of the twist word by name.

use crate::Cross;
use obd_base::{Items, Name};

/// A curve by its name and its crossings in order.
pub struct NamedPath {
    pub name: Name,
    pub path: Items<Cross>,
}

// By hand, so that a caller's proof holds one call and not the drop of each field.
impl Drop for NamedPath {
    fn drop(self) {
        let NamedPath {
            name: _name,
            path: _path,
        } = self;
    }
}

/// An entry of the twist word: a curve by its name, and the power, from -64 to 64 and not 0. A power `n` is
/// `|n|` single twists, positive ones where `n` is above 0.
pub struct NamedTwist {
    pub name: Name,
    pub power: i32,
}

// By hand, so that a caller's proof holds one call and not the drop of each field.
impl Drop for NamedTwist {
    fn drop(self) {
        let NamedTwist {
            name: _name,
            power: _power,
        } = self;
    }
}
