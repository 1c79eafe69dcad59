// Sets of pieces by numbers.
ghost use Rattle.std.specs.Prelude.{◌≡◌, ◌<◌, ◌≤◌, length, IfOk};
ghost use Rattle.boundary_map.specs.Sets.{chosen, doubled};

use obd_base::{Items, NoMemory, PieceNo};
use std::alloc::Global;

// How many sets of so many pieces there are.
pub(crate) fn set_count(pieces: usize) -> u32
    requires { pieces ≤ 16 }
    ensures { result ≡ doubled pieces }
{
    1 << pieces
}

// The set with a number. A piece is in it where what is left of the number, after the pieces before, is in the upper half.
pub(crate) fn set_of(
    alloc: Global,
    pieces: &[PieceNo],
    number: u32,
) -> Result<Items<PieceNo>, NoMemory>
    requires few { length pieces.now ≤ 16 }
    requires number { number < doubled (length pieces.now) }
    ensures { IfOk result (λ set. set ≡ chosen pieces.now number) }
{
    let mut set = Items::new(alloc);
    let mut rest = number;
    let mut half = set_count(pieces.len());
    for piece in pieces {
        half /= 2;
        if rest >= half {
            rest -= half;
            set.push(*piece)?;
        }
    }
    Ok(set)
}
