// What a finger makes of the strands, written in place.
ghost use Rattle.std.specs.Prelude.{◌≡◌, ℕ, suc, ◌+◌, ◌-◌, ◌<◌, ◌≤◌, ◌^◌, [], List, cond, length, map, nat_lt, slice_index_or, vec_capacity, vec_len};
ghost use Rattle.obd_base.specs.Lists.{Mem};
ghost use Rattle.obd_base.specs.declared.points.Exit.{Exit as Shown};
ghost use Rattle.page_surface.specs.Drawing.{IsEmbedded, chords};
ghost use Rattle.drawing.specs.Fingers.{InRange, IsLegal, chord_at, entered, glued_to};
ghost use Rattle.drawing.specs.Pieces.{same_piece};
ghost use Rattle.drawing.specs.PushTables.{pushed_rows, raised, raised_by, raised_side, with_two};
ghost use Rattle.drawing.specs.Room.{HaveRoom, rows};

use crate::Finger;
use crate::finger::segment_of;
use crate::layout::Layout;
use crate::pieces::chord_of;
use obd_base::Exit;

// The segment that is glued to it.
pub(crate) fn beyond(layout: &Layout, finger: &Finger) -> Exit
    requires { InRange layout.now.drawing finger.now }
    ensures { result ≡ glued_to layout.now.drawing finger.now }
{
    Exit {
        side: layout.polygon().pair(finger.side),
        place: layout.points_on(finger.side) - finger.segment,
    }
}

// From which place on the points of each side move on when two new points are put into a segment, and two into another: past
// all places on the other sides.
fn limits(near: &Exit, far: &Exit) -> [u32; 16]
    requires near { near.now.side < 16 }
    requires far { far.now.side < 16 }
    ensures size { length result ≡ 16 }
    ensures told { (e : Shown) → e.side < 16 → e.place < 2 ^ 30 → raised_by result e ≡ raised near.now far.now e }
{
    let mut limits = [1 << 30; 16];
    limits[far.side.number() as usize] = far.place;
    limits[near.side.number() as usize] = near.place;
    limits
}

// Where a point stands then: two places further on, or where it was.
fn raised(limits: &[u32; 16], exit: &Exit) -> Exit
    requires side { exit.now.side < 16 }
    requires place { exit.now.place < 2 ^ 30 }
    ensures { result ≡ raised_by limits.now exit.now }
{
    let stays = exit.place < limits[exit.side.number() as usize];
    let step = if stays { 0 } else { 2 };
    Exit {
        side: exit.side,
        place: exit.place + step,
    }
}

// Moves the exits of a strand to where they stand then.
fn raise_exits(near: &Exit, far: &Exit, exits: &mut [Exit])
    requires near { near.now.side < 16 }
    requires far { far.now.side < 16 }
    requires sides { (e : Shown) → Mem e exits.old → e.side < 16 }
    requires places { (e : Shown) → Mem e exits.old → e.place < 2 ^ 30 }
    ensures { exits.new ≡ map (raised near.now far.now) exits.old }
{
    let limits = limits(near, far);
    for exit in exits.iter_mut() {
        *exit = raised(&limits, exit);
    }
}

// The same for all strands. Linear in the exits.
fn raise_strands(near: &Exit, far: &Exit, strands: &mut [Vec<Exit>])
    requires near { near.now.side < 16 }
    requires far { far.now.side < 16 }
    requires sides { (strand : List Shown) → Mem strand (rows strands.old) → (e : Shown) → Mem e strand → e.side < 16 }
    requires places { (strand : List Shown) → Mem strand (rows strands.old) → (e : Shown) → Mem e strand → e.place < 2 ^ 30 }
    ensures strands { rows strands.new ≡ map (map (raised near.now far.now)) (rows strands.old) }
    ensures room { (room : ℕ) → HaveRoom room strands.old → HaveRoom room strands.new }
{
    for strand in 0..strands.len() {
        raise_exits(near, far, &mut strands[strand]);
    }
}

// Puts two exits into a strand, behind so many others.
fn put_two(exits: &mut Vec<Exit>, count: usize, out: Exit, back: Exit)
    requires count { count ≤ length exits.old.items }
    requires room { 2 ≤ vec_capacity exits.old - vec_len exits.old }
    ensures exits { exits.new.items ≡ with_two count out back exits.old.items }
    ensures room { vec_capacity exits.old - vec_len exits.old ≤ vec_capacity exits.new - vec_len exits.new + 2 }
{
    exits.insert(count, back).unwrap();
    exits.insert(count, out).unwrap();
}

// Puts the two new points of a finger into the strands, the later one first where `out` is 1. Linear in the exits.
pub(crate) fn push_strands(
    near: &Exit,
    far: &Exit,
    finger: &Finger,
    out: u32,
    strands: &mut [Vec<Exit>],
)
    requires strand { finger.now.strand < length strands.old }
    requires chord { finger.now.chord ≤ length (slice_index_or (rows strands.old) finger.now.strand []) }
    requires sides { (strand : List Shown) → Mem strand (rows strands.old) → (e : Shown) → Mem e strand → e.side < 16 }
    requires places { (strand : List Shown) → Mem strand (rows strands.old) → (e : Shown) → Mem e strand → e.place < 2 ^ 30 }
    requires near_side { near.now.side < 16 }
    requires far_side { far.now.side < 16 }
    requires near { near.now.place < 2 ^ 30 }
    requires far { far.now.place < 2 ^ 30 }
    requires out { out ≤ 1 }
    requires room { HaveRoom 1 strands.old }
    ensures strands { rows strands.new ≡ pushed_rows near.now far.now finger.now out (rows strands.old) }
    ensures room { (room : ℕ) → HaveRoom (suc room) strands.old → HaveRoom room strands.new }
{
    raise_strands(near, far, strands);
    let way_out = Exit {
        side: near.side,
        place: near.place + out,
    };
    let way_back = Exit {
        side: far.side,
        place: far.place + out,
    };
    put_two(
        &mut strands[finger.strand.number() as usize],
        finger.chord as usize,
        way_out,
        way_back,
    );
}

// By how many numbers the start of a side moves: by two for each of two sides that come before it.
fn step(near: &Exit, far: &Exit, side: usize) -> u32
    ensures value { result ≡ cond (nat_lt near.now.side side) 2 0 + cond (nat_lt far.now.side side) 2 0 }
    ensures few { result ≤ 4 }
{
    let for_near = if (near.side.number() as usize) < side {
        2
    } else {
        0
    };
    let for_far = if (far.side.number() as usize) < side {
        2
    } else {
        0
    };
    for_near + for_far
}

// Moves the starts of the sides.
pub(crate) fn raise_sides(near: &Exit, far: &Exit, offsets: &mut [u32])
    requires { (k : ℕ) → k < length offsets.old → slice_index_or offsets.old k 0 < 2 ^ 30 }
    ensures { (k : ℕ) → k < length offsets.old → slice_index_or offsets.new k 0 ≡ raised_side near.now.side far.now.side k (slice_index_or offsets.old k 0) }
{
    for side in 0..offsets.len() {
        offsets[side] += step(near, far, side);
    }
}

// Which of the two new points the strand leaves by, 0 for the earlier one: the later one where the segment lies in the
// piece just before the chord's first end. The chord borders the segment's piece, so that is where it doesn't separate the
// two spans itself. Constant time.
pub(crate) fn order(layout: &Layout, finger: &Finger) -> u32
    requires embedded { IsEmbedded layout.now.drawing }
    requires legal { IsLegal layout.now.drawing finger.now }
    ensures { result ≡ cond (same_piece (chords layout.now.drawing) (chord_at layout.now.drawing finger.now.strand finger.now.chord).from (entered layout.now.drawing finger.now)) 1 0 }
{
    let chord = chord_of(layout, finger.strand, finger.chord);
    let segment = layout.spot(segment_of(finger));
    if chord.separates(chord.start(), segment) {
        0
    } else {
        1
    }
}
