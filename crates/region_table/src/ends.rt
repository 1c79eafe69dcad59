// Which chord ends at each number of the place order.
ghost use Rattle.std.specs.Prelude.{◌≡◌, ◌≢◌, ℕ, ◌+◌, ◌<◌, ◌≤◌, ◌^◌, [], cond, length, map, nat_eq, slice_index_or, vec_capacity, vec_len, IfOk};
ghost use Rattle.region_table.specs.Ends.{IsEnd, IsInside, IsNoted, KnowsEnds, end_at};
ghost use Rattle.region_table.specs.FingerLists.{AreEndsAfter, renumbered, part_of};
ghost use Rattle.region_table.specs.Room.{KeepsCapacity};

use crate::entries::{Entries, Push, put_entries};
use crate::rows::Rows;
use obd_base::{NoMemory, StrandNo};
use std::alloc::Global;
use std::marker::Model;

// A chord by its strand and its number on it.
#[derive(Clone, Copy)]
pub(crate) struct ChordNo {
    pub(crate) strand: StrandNo,
    pub(crate) chord: u32,
}

impl Model for ChordNo {
    ghost use Rattle.region_table.specs.Ends.{ChordNo as Shown};

    ghost Value = { Shown };

    ghost view = { λ c. record { strand = c.strand; chord = c.chord } };

    ghost inverse = { λ c. record { strand = c.strand; chord = c.chord } };
}

impl ChordNo {
    // The part of a pushed chord that is so many parts behind its beginning.
    fn part(self, behind: u32) -> ChordNo
        requires { self.chord + behind < 2 ^ 32 }
        ensures { result ≡ part_of self behind }
    {
        ChordNo {
            strand: self.strand,
            chord: self.chord + behind,
        }
    }

    // A chord as it is named after a finger that pushes a chord. What stands where no chord ends may be any number.
    fn renumbered(self, pushed: ChordNo) -> ChordNo
        ensures { result ≡ renumbered pushed self }
    {
        if self.strand == pushed.strand && pushed.chord < self.chord {
            ChordNo {
                strand: self.strand,
                chord: self.chord.saturating_add(2),
            }
        } else {
            self
        }
    }
}

// Names chords as they are named after a finger that pushes one of them. Linear in them.
fn renumber_all(ends: &mut [ChordNo], pushed: ChordNo)
    ensures { ends.new ≡ map (renumbered pushed) ends.old }
{
    for at in 0..ends.len() {
        ends[at] = ends[at].renumbered(pushed);
    }
}

// The chord that ends at each number after a finger that pushes one of them. It takes no memory. Linear in the numbers.
pub(crate) fn write_ends(ends: &mut Vec<ChordNo>, push: Push, pushed: ChordNo)
    requires apart { push.entry.entered ≢ push.entry.beyond }
    requires ends_apart { push.near ≢ push.far }
    requires entered { push.entry.entered < length ends.old.items }
    requires beyond { push.entry.beyond < length ends.old.items }
    requires near { push.near < length ends.old.items }
    requires far { push.far < length ends.old.items }
    requires few { length ends.old.items < 2 ^ 30 }
    requires chord { pushed.chord + 2 < 2 ^ 32 }
    requires room { vec_len ends.old + 4 ≤ vec_capacity ends.old }
    ensures size { length ends.new.items ≡ length ends.old.items + 4 }
    ensures ends { AreEndsAfter (length ends.old.items) push.entry.entered push.entry.beyond push.near push.far pushed (part_of pushed (cond (nat_eq push.out 0) 0 2)) (part_of pushed 1) (part_of pushed (cond (nat_eq push.out 0) 2 0)) ends.old.items ends.new.items }
    ensures room { KeepsCapacity ends.old ends.new }
{
    let near = push.entry.shifted(push.near);
    let far = push.entry.shifted(push.far);
    let here = pushed.part(push.near_part());
    let beyond = pushed.part(1);
    let there = pushed.part(push.far_part());
    renumber_all(ends, pushed);
    put_entries(
        ends,
        push.entry,
        Entries {
            front: here,
            middle: there,
            beyond,
            tip: beyond,
        },
    );
    ends[near as usize] = here;
    ends[far as usize] = there;
}

// Notes the chords of a strand at their ends.
fn note_strand(begins: &Rows, mates: &[u32], strand: usize, ends: &mut [ChordNo])
    requires strand { strand < length begins.now.lists }
    requires few { length begins.now.lists < 2 ^ 32 }
    requires few_chords { length (slice_index_or begins.now.lists strand []) < 2 ^ 32 }
    requires inside { (c : ℕ) → c < length (slice_index_or begins.now.lists strand []) → IsInside begins.now.lists mates.now strand c }
    requires size { length ends.old ≡ length mates.now }
    ensures size { length ends.new ≡ length ends.old }
    ensures kept { (x : ℕ) → IsEnd begins.now.lists mates.now x (end_at ends.old x) → IsEnd begins.now.lists mates.now x (end_at ends.new x) }
    ensures noted { (c : ℕ) → c < length (slice_index_or begins.now.lists strand []) → IsNoted begins.now.lists mates.now ends.new strand c }
{
    let froms = begins.row(strand);
    for chord in 0..froms.len() {
        let from = froms[chord];
        let name = ChordNo {
            strand: StrandNo::new(strand as u32),
            chord: chord as u32,
        };
        ends[from as usize] = name;
        ends[mates[from as usize] as usize] = name;
    }
}

// What stands at a number before a chord is noted there.
fn no_chord() -> ChordNo {
    ChordNo {
        strand: StrandNo::new(0),
        chord: 0,
    }
}

// Notes all chords at their ends. Linear in them.
fn note_strands(begins: &Rows, mates: &[u32], ends: &mut [ChordNo])
    requires few { length begins.now.lists < 2 ^ 32 }
    requires few_chords { (i : ℕ) → i < length begins.now.lists → length (slice_index_or begins.now.lists i []) < 2 ^ 32 }
    requires inside { (i c : ℕ) → i < length begins.now.lists → c < length (slice_index_or begins.now.lists i []) → IsInside begins.now.lists mates.now i c }
    requires size { length ends.old ≡ length mates.now }
    ensures size { length ends.new ≡ length ends.old }
    ensures known { KnowsEnds begins.now.lists mates.now ends.new }
{
    for strand in 0..begins.len() {
        note_strand(begins, mates, strand, ends);
    }
}

// The chord that ends at each number. Linear in the chords and numbers.
pub(crate) fn chord_ends(
    alloc: Global,
    begins: &Rows,
    mates: &[u32],
) -> Result<Vec<ChordNo>, NoMemory>
    requires few { length begins.now.lists < 2 ^ 32 }
    requires few_chords { (i : ℕ) → i < length begins.now.lists → length (slice_index_or begins.now.lists i []) < 2 ^ 32 }
    requires inside { (i c : ℕ) → i < length begins.now.lists → c < length (slice_index_or begins.now.lists i []) → IsInside begins.now.lists mates.now i c }
    ensures size { IfOk result (λ ends. length ends.items ≡ length mates.now) }
    ensures known { IfOk result (λ ends. KnowsEnds begins.now.lists mates.now ends.items) }
{
    let mut ends = vec![in alloc; no_chord(); mates.len()]?;
    note_strands(begins, mates, &mut ends);
    Ok(ends)
}
