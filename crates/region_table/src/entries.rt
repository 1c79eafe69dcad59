// The lists of a table by numbers of the place order, after a finger.
ghost use Rattle.std.specs.Prelude.{◌≡◌, ◌≢◌, ℕ, ◌+◌, ◌<◌, ◌≤◌, ◌^◌, cond, length, nat_eq, slice_index, vec_capacity, vec_len};
ghost use Rattle.region_table.specs.FingerLists.{AreMatesAfter, ArePut, IsNamedByFinger, comes_in_front, put_two, renamed_part};
ghost use Rattle.region_table.specs.Room.{KeepsCapacity};

use crate::entry::{Entry, shift_all};

// A finger by numbers of the place order: the first end of its chord, the end that is nearer to the segment, the other
// one, the spans before which numbers are put in, and 1 where the strand passes the later new point first, else 0.
#[derive(Clone, Copy)]
pub(crate) struct Push {
    pub(crate) from: u32,
    pub(crate) near: u32,
    pub(crate) far: u32,
    pub(crate) entry: Entry,
    pub(crate) out: u32,
}

impl Push {
    // Which of the three parts of the pushed chord has the nearer end.
    pub(crate) fn near_part(self) -> u32
        ensures { result ≡ cond (nat_eq self.out 0) 0 2 }
    {
        if self.out == 0 { 0 } else { 2 }
    }

    // Which of them has the other one.
    pub(crate) fn far_part(self) -> u32
        ensures { result ≡ cond (nat_eq self.out 0) 2 0 }
    {
        if self.out == 0 { 2 } else { 0 }
    }
}

// The entries of the four new numbers: of the part in front of the span entered and the one between the new points, of
// the part of the span beyond that comes first and of the tip.
#[derive(Clone, Copy)]
pub(crate) struct Entries<T> {
    pub(crate) front: T,
    pub(crate) middle: T,
    pub(crate) beyond: T,
    pub(crate) tip: T,
}

// How a piece is split: the piece, the chord's first end and the span entered, by which its two parts are told apart,
// and the name of the part that doesn't come in front.
#[derive(Clone, Copy)]
struct Split {
    piece: u32,
    from: u32,
    entered: u32,
    part: u32,
}

impl Split {
    // Whether a span of the piece comes in front.
    fn comes_in_front(self, span: u32) -> bool
        ensures { result ≡ comes_in_front self.from self.entered span }
    {
        ((self.from < span) != !(span < self.entered)) != !(self.from < self.entered)
    }

    // The name of a span afterwards.
    fn renamed(self, name: u32, span: u32) -> u32
        ensures { result ≡ renamed_part self.piece self.part (comes_in_front self.from self.entered) (λ s. name) span }
    {
        if name == self.piece && !self.comes_in_front(span) {
            self.part
        } else {
            name
        }
    }
}

// Gives the part that doesn't come in front its name. Linear in the spans.
fn rename_part(names: &mut [u32], split: Split)
    requires { length names.old < 2 ^ 30 }
    ensures size { length names.new ≡ length names.old }
    ensures renamed { (s : ℕ) → s < length names.old → slice_index names.new s ≡ renamed_part split.piece split.part (comes_in_front split.from split.entered) (λ s. slice_index names.old s) s }
{
    for span in 0..names.len() {
        names[span] = split.renamed(names[span], span as u32);
    }
}

// Puts two entries in before a place. There is room for them.
pub(crate) fn put_two<T: Copy + Drop>(entries: &mut Vec<T>, place: usize, first: T, second: T)
    requires place { place ≤ length entries.old.items }
    requires room { vec_len entries.old + 2 ≤ vec_capacity entries.old }
    ensures put { entries.new.items ≡ put_two place first second entries.old.items }
    ensures room { KeepsCapacity entries.old entries.new }
{
    let _ = entries.insert(place, second);
    let _ = entries.insert(place, first);
}

// Puts in the entries of the four new numbers, the later ones first. There is room for them.
pub(crate) fn put_entries<T: Copy + Drop>(entries: &mut Vec<T>, entry: Entry, new: Entries<T>)
    requires apart { entry.entered ≢ entry.beyond }
    requires entered { entry.entered < length entries.old.items }
    requires beyond { entry.beyond < length entries.old.items }
    requires room { vec_len entries.old + 4 ≤ vec_capacity entries.old }
    ensures put { ArePut entry.entered entry.beyond new.front new.middle new.beyond new.tip entries.old.items entries.new.items }
    ensures room { KeepsCapacity entries.old entries.new }
{
    if entry.entered < entry.beyond {
        put_two(entries, entry.beyond as usize, new.beyond, new.tip);
        put_two(entries, entry.entered as usize, new.front, new.middle);
    } else {
        put_two(entries, entry.entered as usize, new.front, new.middle);
        put_two(entries, entry.beyond as usize, new.beyond, new.tip);
    }
}

// The names of the pieces of all spans after a finger, where the pieces had so many names. Linear in the spans.
pub(crate) fn write_names(names: &mut Vec<u32>, push: Push, count: u32)
    requires apart { push.entry.entered ≢ push.entry.beyond }
    requires entered { push.entry.entered < length names.old.items }
    requires beyond { push.entry.beyond < length names.old.items }
    requires near { push.near < length names.old.items }
    requires few { length names.old.items < 2 ^ 30 }
    requires few_pieces { count < 2 ^ 31 }
    requires room { vec_len names.old + 4 ≤ vec_capacity names.old }
    ensures size { length names.new.items ≡ length names.old.items + 4 }
    ensures named { IsNamedByFinger (length names.old.items) push.entry.entered push.entry.beyond push.near count (comes_in_front push.from push.entry.entered) (λ s. slice_index names.old.items s) (λ s. slice_index names.new.items s) }
    ensures room { KeepsCapacity names.old names.new }
{
    let piece = names[push.entry.entered as usize];
    let behind = names[push.near as usize];
    let past = names[push.entry.beyond as usize];
    rename_part(
        names,
        Split {
            piece,
            from: push.from,
            entered: push.entry.entered,
            part: count,
        },
    );
    put_entries(
        names,
        push.entry,
        Entries {
            front: piece,
            middle: behind,
            beyond: past,
            tip: count + 1,
        },
    );
}

// The other ends of chords after a finger. Linear in the numbers.
pub(crate) fn write_mates(mates: &mut Vec<u32>, push: Push)
    requires apart { push.entry.entered ≢ push.entry.beyond }
    requires ends_apart { push.near ≢ push.far }
    requires entered { push.entry.entered < length mates.old.items }
    requires beyond { push.entry.beyond < length mates.old.items }
    requires near { push.near < length mates.old.items }
    requires far { push.far < length mates.old.items }
    requires few { length mates.old.items < 2 ^ 30 }
    requires small { (p : ℕ) → slice_index mates.old.items p < 2 ^ 30 }
    requires room { vec_len mates.old + 4 ≤ vec_capacity mates.old }
    ensures size { length mates.new.items ≡ length mates.old.items + 4 }
    ensures mates { AreMatesAfter (length mates.old.items) push.entry.entered push.entry.beyond push.near push.far (λ s. slice_index mates.old.items s) (λ s. slice_index mates.new.items s) }
    ensures room { KeepsCapacity mates.old mates.new }
{
    let near = push.entry.shifted(push.near);
    let far = push.entry.shifted(push.far);
    let front = push.entry.first_new();
    let past = push.entry.first_beyond();
    shift_all(mates, push.entry);
    put_entries(
        mates,
        push.entry,
        Entries {
            front: near,
            middle: far,
            beyond: past + 1,
            tip: past,
        },
    );
    mates[near as usize] = front;
    mates[far as usize] = front + 1;
}
