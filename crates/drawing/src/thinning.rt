// A drawing without the points that are gone: the new places, and the tables in which they are written.
ghost use Rattle.std.specs.Prelude.{◌≡◌, ℕ, suc, ◌+◌, ◌-◌, ◌<◌, ◌≤◌, ◌^◌, List, length, map, slice_index_or};
ghost use Rattle.std.specs.List.{sum_by};
ghost use Rattle.obd_base.specs.Lists.{Mem, below};
ghost use Rattle.obd_base.specs.declared.points.Exit.{Exit as Shown};
ghost use Rattle.page_surface.specs.Polygon.{sides};
ghost use Rattle.drawing.specs.Pieces.{span_count};
ghost use Rattle.drawing.specs.Room.{rows};
ghost use Rattle.drawing.specs.ThinTables.{AreNumbered, IsKnown, is_gone, moved_offsets, points_left, thinned_by};

use crate::layout::Layout;
use obd_base::{Exit, SideNo};

// Numbers the points of a side that stay, and sets the number of each at the number of the point in the place order.
// What is gone takes the number of the next one that stays, and the end of the side how many stay.
fn number_side(layout: &Layout, side: SideNo, gone: &[bool], places: &mut [u32])
    requires side { side < sides layout.now.drawing.polygon }
    requires gone_size { span_count layout.now.drawing ≤ length gone.now }
    requires size { span_count layout.now.drawing ≤ length places.old }
    requires before { AreNumbered layout.now.drawing (is_gone gone.now) side places.old }
    ensures { AreNumbered layout.now.drawing (is_gone gone.now) (suc side) places.new }
{
    let mut place = 0;
    for old in 0..layout.points_on(side) {
        let number = layout.spot(Exit { side, place: old }) as usize;
        places[number] = place;
        if !gone[number] {
            place += 1;
        }
    }
    places[layout.spot(layout.end_of(side)) as usize] = place;
}

// The new places of all points. Linear in the exits and sides.
pub(crate) fn number_points(layout: &Layout, gone: &[bool], places: &mut [u32])
    requires gone_size { span_count layout.now.drawing ≤ length gone.now }
    requires size { span_count layout.now.drawing ≤ length places.old }
    ensures { AreNumbered layout.now.drawing (is_gone gone.now) (sides layout.now.drawing.polygon) places.new }
{
    for side in 0..layout.polygon().sides() {
        number_side(layout, SideNo::new(side), gone, places);
    }
}

// Keeps the exits of a strand that stay, at their new places.
fn thin_strand(offsets: &[u32], gone: &[bool], places: &[u32], exits: &mut Vec<Exit>)
    requires { (e : Shown) → Mem e exits.old.items → IsKnown offsets.now gone.now places.now e }
    ensures { exits.new.items ≡ thinned_by offsets.now gone.now places.now exits.old.items }
{
    let mut kept = 0;
    for at in 0..exits.len() {
        let exit = exits[at];
        let number = offsets[exit.side.number() as usize] as usize + exit.place as usize;
        if !gone[number] {
            exits[kept] = Exit {
                side: exit.side,
                place: places[number],
            };
            kept += 1;
        }
    }
    exits.truncate(kept);
}

// The same for all strands. Linear in the exits.
pub(crate) fn thin_strands(
    offsets: &[u32],
    gone: &[bool],
    places: &[u32],
    strands: &mut [Vec<Exit>],
)
    requires { (strand : List Shown) → Mem strand (rows strands.old) → (e : Shown) → Mem e strand → IsKnown offsets.now gone.now places.now e }
    ensures { rows strands.new ≡ map (thinned_by offsets.now gone.now places.now) (rows strands.old) }
{
    for strand in 0..strands.len() {
        thin_strand(offsets, gone, places, &mut strands[strand]);
    }
}

// Where each side begins when the points are gone: a side takes two numbers more than it has points.
pub(crate) fn move_sides(places: &[u32], offsets: &mut [u32])
    requires first { slice_index_or offsets.old 0 0 ≡ 0 }
    requires ends { (k : ℕ) → suc k < length offsets.old → 2 ≤ slice_index_or offsets.old (suc k) 0 }
    requires there { (k : ℕ) → suc k < length offsets.old → slice_index_or offsets.old (suc k) 0 - 2 < length places.now }
    requires few { (k : ℕ) → suc k < length offsets.old → sum_by (λ i. points_left places.now offsets.old i + 2) (below (suc k)) < 2 ^ 30 }
    ensures { offsets.new ≡ moved_offsets places.now offsets.old }
{
    for side in 1..offsets.len() {
        let points = places[offsets[side] as usize - 2];
        offsets[side] = offsets[side - 1] + points + 2;
    }
}
