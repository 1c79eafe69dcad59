// The chords of the strands and of the curve by merged numbers.
ghost use Rattle.std.specs.Prelude.{◌≡◌, ◌<◌, ◌++◌, map, IfOk, OnOk};
ghost use Rattle.obd_base.specs.Lists.{Mem, below};
ghost use Rattle.page_surface.specs.Drawing.{Chord as Shown, beyond};
ghost use Rattle.page_surface.specs.Polygon.{arc_count};
ghost use Rattle.drawing.specs.Round.{other_end};
ghost use Rattle.dehn_twist.specs.Surgery.{goes_up, inner_end, merged_chords};
ghost use Rattle.dehn_twist.specs.Tables.{merged_mates, merged_strand};

use crate::order::Merged;
use obd_base::{ArcNo, NoMemory, StrandNo};
use std::alloc::Global;
use std::marker::Model;

// A chord by the numbers of its two ends.
#[derive(Clone, Copy)]
pub(crate) struct Chord {
    from: u32,
    to: u32,
}

impl Model for Chord {
    ghost use Rattle.page_surface.specs.Drawing.{Chord as Shown};

    ghost Value = { Shown };

    ghost view = { λ c. record { from = c.from; to = c.to } };

    ghost inverse = { λ c. record { from = c.from; to = c.to } };
}

impl Chord {
    pub(crate) fn new(from: u32, to: u32) -> Chord
        ensures { result ≡ record { from = from; to = to } }
    {
        Chord { from, to }
    }

    // Whether the chord's end has the greater number.
    pub(crate) fn goes_up(self) -> bool
        ensures { result ≡ goes_up self }
    {
        self.from < self.to
    }

    // Whether a number lies between the chord's ends.
    pub(crate) fn beyond(self, number: u32) -> bool
        ensures { result ≡ beyond self number }
    {
        (self.from < number) != (self.to < number)
    }

    // The end of a second chord that lies between the ends of this one.
    pub(crate) fn inner_end(self, other: Chord) -> u32
        ensures { result ≡ inner_end self other }
    {
        if self.beyond(other.from) {
            other.from
        } else {
            other.to
        }
    }
}

// Puts the chords of a strand last.
fn push_chords(merged: &Merged, strand: StrandNo, chords: &mut Vec<Chord>) -> Result<(), NoMemory>
    requires { strand < arc_count merged.now.drawing.polygon }
    ensures { OnOk result (chords.new.items ≡ chords.old.items ++ merged_strand merged.now.drawing merged.now.curve strand) }
{
    let polygon = merged.polygon();
    let first_side = polygon.first_side(ArcNo::new(strand.number()));
    let mut from = merged.end_of(polygon.pair(first_side));
    for exit in merged.strand(strand) {
        chords.push(Chord::new(merged.strand_number(from), merged.strand_number(*exit)))?;
        from = merged.entry(*exit);
    }
    let to = merged.end_of(first_side);
    chords.push(Chord::new(merged.strand_number(from), merged.strand_number(to)))?;
    Ok(())
}

// The chords of all strands. Linear in the exits and sides.
fn all_chords(alloc: Global, merged: &Merged) -> Result<Vec<Chord>, NoMemory>
    ensures { IfOk result (λ all. all.items ≡ merged_chords merged.now.drawing merged.now.curve) }
{
    let mut all = Vec::new(alloc);
    for strand in 0..merged.polygon().sides() / 2 {
        push_chords(merged, StrandNo::new(strand), &mut all)?;
    }
    Ok(all)
}

// The numbers below a count.
fn numbers(alloc: Global, count: u32) -> Result<Vec<u32>, NoMemory>
    ensures { IfOk result (λ numbers. numbers.items ≡ below count) }
{
    let mut numbers = Vec::new(alloc);
    for number in 0..count {
        numbers.push(number)?;
    }
    Ok(numbers)
}

// The other end of the chord at each number, and the number itself where none ends. The chords are read from the
// last to the first.
fn other_ends(alloc: Global, chords: &[Chord], count: u32) -> Result<Vec<u32>, NoMemory>
    requires from { (chord : Shown) → Mem chord chords.now → chord.from < count }
    requires to { (chord : Shown) → Mem chord chords.now → chord.to < count }
    ensures { IfOk result (λ mates. mates.items ≡ map (other_end chords.now) (below count)) }
{
    let mut mates = numbers(alloc, count)?;
    let mut left = chords.len();
    while left > 0 {
        left -= 1;
        let chord = chords[left];
        mates[chord.to as usize] = chord.from;
        mates[chord.from as usize] = chord.to;
    }
    Ok(mates)
}

// The other end of the strand's chord at each number of the merged order. Linear in the exits and sides.
pub(crate) fn mates(alloc: Global, merged: &Merged) -> Result<Vec<u32>, NoMemory>
    ensures { IfOk result (λ mates. mates.items ≡ merged_mates merged.now.drawing merged.now.curve) }
{
    let chords = all_chords(alloc, merged)?;
    let _ = merged.polygon();
    other_ends(alloc, &chords, merged.size())
}
