// The other end of the chord at each number of the place order.
ghost use Rattle.std.specs.Prelude.{◌≡◌, ℕ, ◌<◌, map, IfOk};
ghost use Rattle.obd_base.specs.Lists.{Mem, below};
ghost use Rattle.page_surface.specs.Drawing.{Chord as Shown};
ghost use Rattle.drawing.specs.Round.{other_end};

use crate::chords::Chord;
use obd_base::NoMemory;
use std::alloc::Global;

// The numbers below a count.
fn numbers(alloc: Global, count: u32) -> Result<Vec<u32>, NoMemory>
    ensures { IfOk result (λ numbers. numbers.items ≡ below count) }
{
    let mut numbers = Vec::new(alloc);
    for number in 0..count {
        numbers.push(number)?;
    }
    Ok(numbers)
}

// The other end of the chord at each number, and the number itself where none ends. The chords are read from the
// last to the first. Linear in the chords and numbers.
pub(crate) fn mates(alloc: Global, chords: &[Chord], count: u32) -> Result<Vec<u32>, NoMemory>
    requires from { (chord : Shown) → Mem chord chords.now → chord.from < count }
    requires to { (chord : Shown) → Mem chord chords.now → chord.to < count }
    ensures { IfOk result (λ mates. mates.items ≡ map (other_end chords.now) (below count)) }
{
    let mut mates = numbers(alloc, count)?;
    let mut left = chords.len();
    while left > 0 {
        left -= 1;
        let chord = chords[left];
        mates[chord.to as usize] = chord.from;
        mates[chord.from as usize] = chord.to;
    }
    Ok(mates)
}
