// Names of pieces: each span has the number of its piece, and the pieces are numbered in the order of their first spans.
ghost use Rattle.std.specs.Prelude.{◌≡◌, ℕ, ◌<◌, ◌^◌, cond, map, length, nat_eq, slice_index, IfOk};
ghost use Rattle.page_surface.specs.Drawing.{IsEmbedded, chords};
ghost use Rattle.drawing.specs.Pieces.{span_count, spans};
ghost use Rattle.drawing.specs.Round.{other_end};
ghost use Rattle.region_table.specs.Naming.{fresh_names};
ghost use Rattle.region_table.specs.Counted.{AreCounted};

use drawing::Drawing;
use obd_base::NoMemory;
use std::alloc::Global;

// The number of the piece of each span.
pub(crate) fn number_pieces(
    alloc: Global,
    drawing: &Drawing,
    mates: &[u32],
) -> Result<Vec<u32>, NoMemory>
    requires embedded { IsEmbedded drawing.now.drawing }
    requires mates { mates.now ≡ map (other_end (chords drawing.now.drawing)) (spans drawing.now.drawing) }
    requires few { span_count drawing.now.drawing < 2 ^ 30 }
    ensures { IfOk result (λ names. names.items ≡ fresh_names drawing.now.drawing) }
{
    let mut names: Vec<u32> = Vec::new(alloc);
    names.push(0)?;
    let mut count: u32 = 1;
    for at in 1..mates.len() {
        let mate = mates[at - 1];
        if mate >= at as u32 {
            names.push(count)?;
            count += 1;
        } else {
            let name = names[mate as usize];
            names.push(name)?;
        }
    }
    Ok(names)
}

// The first span with a name where so many were met, and another one is now.
fn first_met(size: u32, first: u32, now: u32) -> u32
    ensures { result ≡ cond (nat_eq size 0) now first }
{
    if size == 0 { now } else { first }
}

// How many spans have each name, and the first of them. Before it the sizes are 0. Each span is written the same way,
// since about half of them are the first with their name, and a branch would be guessed wrong as often.
pub(crate) fn count_spans(names: &[u32], sizes: &mut [u32], firsts: &mut [u32])
    requires few { length names.now < 2 ^ 30 }
    requires told { (s : ℕ) → s < length names.now → slice_index names.now s < length sizes.old }
    requires as_many { length firsts.old ≡ length sizes.old }
    requires none { (p : ℕ) → slice_index sizes.old p ≡ 0 }
    ensures counted { AreCounted (λ s. slice_index names.now s) (length names.now) sizes.new firsts.new }
    ensures size { length sizes.new ≡ length sizes.old }
    ensures first_size { length firsts.new ≡ length firsts.old }
{
    for at in 0..names.len() {
        let name = names[at] as usize;
        let size = sizes[name];
        firsts[name] = first_met(size, firsts[name], at as u32);
        sizes[name] = size + 1;
    }
}
