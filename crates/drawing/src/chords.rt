// The chords of a written drawing, and whether two of them cross.
ghost use Rattle.std.specs.Prelude.{◌≡◌, ℕ, ◌<◌, ◌≤◌, ◌^◌, [], ◌++◌, length, map, slice_index, slice_index_or, IfOk, OnOk};
ghost use Rattle.obd_base.specs.Lists.{Mem, below};
ghost use Rattle.page_surface.specs.Drawing.{Chord as Shown, IsPlaced, chords, no_two_cross, spot, strand_chords, points_on};
ghost use Rattle.page_surface.specs.Polygon.{arc_count, sides};
ghost use Rattle.drawing.specs.Pieces.{separates, span_count};
ghost use Rattle.drawing.specs.Round.{other_end};
ghost use Rattle.drawing.specs.Sweep.{swept};

use crate::layout::Layout;
use obd_base::{ArcNo, Exit, NoMemory, StrandNo};
use std::alloc::Global;
use std::marker::Model;

// A chord by the numbers of its two ends.
#[derive(Clone, Copy)]
pub(crate) struct Chord {
    from: u32,
    to: u32,
}

impl Model for Chord {
    ghost use Rattle.page_surface.specs.Drawing.{Chord as Shown};

    ghost Value = { Shown };

    ghost view = { λ c. record { from = c.from; to = c.to } };

    ghost inverse = { λ c. record { from = c.from; to = c.to } };
}

impl Chord {
    // The number of its first end, and of the span just before that.
    pub(crate) fn start(self) -> u32
        ensures { result ≡ self.from }
    {
        self.from
    }

    // Whether exactly one of two spans is met on the way between the chord's ends.
    pub(crate) fn separates(self, one: u32, other: u32) -> bool
        ensures { result ≡ separates self one other }
    {
        ((self.from < one) != (self.to < one)) != ((self.from < other) != (self.to < other))
    }
}

// The chord between two places.
pub(crate) fn chord_between(layout: &Layout, from: Exit, to: Exit) -> Chord
    requires from_side { from.side < sides layout.now.drawing.polygon }
    requires from_place { from.place ≤ points_on layout.now.drawing from.side }
    requires to_side { to.side < sides layout.now.drawing.polygon }
    requires to_place { to.place ≤ points_on layout.now.drawing to.side }
    ensures { result ≡ record { from = spot layout.now.drawing from; to = spot layout.now.drawing to } }
{
    Chord {
        from: layout.spot(from),
        to: layout.spot(to),
    }
}

// Puts the chords of a strand last.
fn push_chords(layout: &Layout, strand: StrandNo, chords: &mut Vec<Chord>) -> Result<(), NoMemory>
    requires placed { IsPlaced layout.now.drawing }
    requires strand { strand < arc_count layout.now.drawing.polygon }
    ensures { OnOk result (chords.new.items ≡ chords.old.items ++ strand_chords layout.now.drawing strand) }
{
    let polygon = layout.polygon();
    let first_side = polygon.first_side(ArcNo::new(strand.number()));
    let mut from = layout.end_of(polygon.pair(first_side));
    for exit in layout.exits(strand) {
        chords.push(chord_between(layout, from, *exit))?;
        from = layout.entry(*exit);
    }
    chords.push(chord_between(layout, from, layout.end_of(first_side)))?;
    Ok(())
}

// The chords of all strands. Linear in the exits and sides.
fn all_chords(alloc: Global, layout: &Layout) -> Result<Vec<Chord>, NoMemory>
    requires { IsPlaced layout.now.drawing }
    ensures { IfOk result (λ all. all.items ≡ chords layout.now.drawing) }
{
    let mut all = Vec::new(alloc);
    for strand in 0..layout.polygon().sides() / 2 {
        push_chords(layout, StrandNo::new(strand), &mut all)?;
    }
    Ok(all)
}

// The numbers below a count.
fn numbers(alloc: Global, count: u32) -> Result<Vec<u32>, NoMemory>
    ensures { IfOk result (λ numbers. numbers.items ≡ below count) }
{
    let mut numbers = Vec::new(alloc);
    for number in 0..count {
        numbers.push(number)?;
    }
    Ok(numbers)
}

// The other end of the chord at each number, and the number itself where none ends. The chords are read from the
// last to the first. Linear in the chords and numbers.
fn mates(alloc: Global, chords: &[Chord], count: u32) -> Result<Vec<u32>, NoMemory>
    requires from { (chord : Shown) → Mem chord chords.now → chord.from < count }
    requires to { (chord : Shown) → Mem chord chords.now → chord.to < count }
    ensures { IfOk result (λ mates. mates.items ≡ map (other_end chords.now) (below count)) }
{
    let mut mates = numbers(alloc, count)?;
    let mut left = chords.len();
    while left > 0 {
        left -= 1;
        let chord = chords[left];
        mates[chord.to as usize] = chord.from;
        mates[chord.from as usize] = chord.to;
    }
    Ok(mates)
}

// Whether a sweep over the numbers finds each chord's lesser end on top of the stack where it comes to its greater
// end. Linear in the numbers.
fn is_swept(alloc: Global, mates: &[u32]) -> Result<bool, NoMemory>
    requires { length mates.now < 2 ^ 32 }
    ensures { IfOk result (λ passed. passed ≡ swept (λ x. slice_index_or mates.now x x) (length mates.now) [] 0) }
{
    let mut open = Vec::new(alloc);
    for at in 0..mates.len() {
        let mate = mates[at];
        if mate > at as u32 {
            open.push(at as u32)?;
        } else if mate < at as u32 && open.pop() != Some(mate) {
            return Ok(false);
        }
    }
    Ok(true)
}

// Whether no two chords cross: one pass over the place order. Linear in the exits and sides.
pub(crate) fn is_uncrossed(alloc: Global, layout: &Layout) -> Result<bool, NoMemory>
    requires { IsPlaced layout.now.drawing }
    ensures { IfOk result (λ uncrossed. uncrossed ≡ no_two_cross (chords layout.now.drawing)) }
{
    let chords = all_chords(alloc, layout)?;
    let mates = mates(alloc, &chords, layout.span_count())?;
    is_swept(alloc, &mates)
}
