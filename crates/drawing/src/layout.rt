// A written drawing with its place order.
ghost use Rattle.std.specs.Prelude.{◌≡◌, ℕ, ◌+◌, ◌<◌, ◌≤◌, ◌^◌, suc, true, length, nat_lt, IfOk, OnErr, OnOk};
ghost use Rattle.std.specs.List.{list_all};
ghost use Rattle.page_surface.specs.Drawing.{IsEmbedded, all_exits, end_of, entry, points_on, spot, strand_exits};
ghost use Rattle.page_surface.specs.Polygon.{arc_count, sides};
ghost use Rattle.drawing.specs.Fingers.{InRange, with_letters};
ghost use Rattle.drawing.specs.Layout.{IsWritten, drawn};
ghost use Rattle.drawing.specs.Pieces.{span_count};
ghost use Rattle.drawing.specs.Room.{HaveRoom, rows};
ghost use Rattle.drawing.specs.ThinTables.{is_gone};
ghost use Rattle.drawing.specs.Thinned.{IsAlike, thinned};

use crate::Finger;
use crate::counts::{joined, offsets, side_counts};
use crate::finger::segment_of;
use crate::push::{beyond, push_strands, raise_sides};
use crate::thinning::{move_sides, number_points, thin_strands};
use obd_base::{Exit, NoMemory, SideNo, StrandNo};
use page_surface::Polygon;
use std::alloc::Global;
use std::marker::Model;

// A drawing as it is written, right or not: a strand for each arc, with exits on sides of the polygon, fewer than
// 2^28 of them. It knows where each side begins in the place order, so that a point has its number in constant
// time. No call but `of` and `reserve` takes memory. Contracts see the drawing
// and its room.
pub(crate) struct Layout {
    polygon: Polygon,
    strands: Vec<Vec<Exit>>,
    offsets: Vec<u32>,
    room: u32,
}

// By hand, so that a caller's proof holds one call and not the drop of each field.
impl Drop for Layout {
    fn drop(self) {
        let Layout {
            polygon: _polygon,
            strands: _strands,
            offsets: _offsets,
            room: _room,
        } = self;
    }
}

impl Model for Layout {
    ghost use Rattle.drawing.specs.Layout.{IsLaidOut, drawn};
    ghost use Rattle.drawing.specs.Room.{HaveRoom, Roomy, rows};

    ghost Value = { Roomy };

    ghost view = { λ l. record { drawing = drawn l.polygon (rows l.strands.items); room = l.room } };

    ghost invariant = { λ l. IsLaidOut (drawn l.polygon (rows l.strands.items)) l.offsets.items × HaveRoom l.room l.strands.items };
}

// Takes memory so that each strand can take two exits more for each of so many fingers.
fn widen(strands: &mut [Vec<Exit>], fingers: u32) -> Result<(), NoMemory>
    ensures strands { rows strands.new ≡ rows strands.old }
    ensures room { OnOk result (HaveRoom fingers strands.new) }
    ensures kept { (room : ℕ) → HaveRoom room strands.old → HaveRoom room strands.new }
{
    for strand in 0..strands.len() {
        strands[strand].reserve(2 * fingers as usize)?;
    }
    Ok(())
}

impl Layout {
    // Linear in the exits and sides.
    pub(crate) fn of(
        alloc: Global,
        polygon: Polygon,
        strands: Vec<Vec<Exit>>,
    ) -> Result<Layout, NoMemory>
        requires strands { length (rows strands.items) ≡ arc_count polygon }
        requires on_sides { list_all (λ e. nat_lt e.side (sides polygon)) (all_exits (drawn polygon (rows strands.items))) ≡ true }
        requires few { length (all_exits (drawn polygon (rows strands.items))) < 2 ^ 28 }
        ensures drawing { IfOk result (λ made. made.drawing ≡ drawn polygon (rows strands.items)) }
        ensures room { IfOk result (λ made. made.room ≡ 0) }
    {
        let _ = polygon.sides();
        let exits = joined(alloc, &strands)?;
        let counts = side_counts(alloc, &polygon, &exits)?;
        let offsets = offsets(alloc, &counts)?;
        Ok(Layout {
            polygon,
            strands,
            offsets,
            room: 0,
        })
    }

    pub(crate) fn polygon(&self) -> &Polygon
        ensures value { result.now ≡ self.now.drawing.polygon }
        ensures written { IsWritten self.now.drawing }
    {
        &self.polygon
    }

    // The exits of each strand.
    pub(crate) fn strands(&self) -> &[Vec<Exit>]
        ensures { rows result.now ≡ self.now.drawing.strands }
    {
        &self.strands
    }

    pub(crate) fn exits(&self, strand: StrandNo) -> &[Exit]
        requires { strand < arc_count self.now.drawing.polygon }
        ensures { result.now ≡ strand_exits self.now.drawing strand }
    {
        self.strands.as_slice()[strand.number() as usize].as_slice()
    }

    // How many numbers the place order has.
    pub(crate) fn span_count(&self) -> u32
        ensures value { result ≡ span_count self.now.drawing }
        ensures few { result < 2 ^ 30 }
    {
        self.offsets.as_slice()[self.polygon.sides() as usize]
    }

    // The number of points on a side.
    pub(crate) fn points_on(&self, side: SideNo) -> u32
        requires { side < sides self.now.drawing.polygon }
        ensures value { result ≡ points_on self.now.drawing side }
        ensures few { result < 2 ^ 30 }
    {
        let offsets = self.offsets.as_slice();
        let side = side.number() as usize;
        offsets[side + 1] - offsets[side] - 2
    }

    // The number of a point, or of the end of a side.
    pub(crate) fn spot(&self, exit: Exit) -> u32
        requires side { exit.side < sides self.now.drawing.polygon }
        requires place { exit.place ≤ points_on self.now.drawing exit.side }
        ensures value { result ≡ spot self.now.drawing exit }
        ensures inside { result + 1 < span_count self.now.drawing }
        ensures few { result + 1 < 2 ^ 30 }
    {
        self.offsets.as_slice()[exit.side.number() as usize] + exit.place
    }

    // The entry that belongs to an exit.
    pub(crate) fn entry(&self, exit: Exit) -> Exit
        requires side { exit.side < sides self.now.drawing.polygon }
        requires place { exit.place < points_on self.now.drawing exit.side }
        ensures { result ≡ entry self.now.drawing exit }
    {
        Exit {
            side: self.polygon.pair(exit.side),
            place: self.points_on(exit.side) - 1 - exit.place,
        }
    }

    // Takes out the points that are gone, and numbers the others anew. The new places are written to the second
    // table. Leaves no room. Linear in the exits and sides.
    pub(crate) fn thin(&mut self, gone: &[bool], places: &mut [u32])
        requires embedded { IsEmbedded self.old.drawing }
        requires gone_size { span_count self.old.drawing ≤ length gone.now }
        requires places_size { span_count self.old.drawing ≤ length places.old }
        requires alike { IsAlike self.old.drawing (is_gone gone.now) }
        requires left { IsEmbedded (thinned self.old.drawing (is_gone gone.now)) }
        requires few { length (all_exits (thinned self.old.drawing (is_gone gone.now))) < 2 ^ 28 }
        ensures drawing { self.new.drawing ≡ thinned self.old.drawing (is_gone gone.now) }
        ensures room { self.new.room ≡ 0 }
    {
        number_points(self, gone, places);
        thin_strands(self.offsets.as_slice(), gone, places, &mut self.strands);
        move_sides(places, &mut self.offsets);
        self.room = 0;
    }

    // How many fingers can be pushed without memory.
    pub(crate) fn room(&self) -> u32
        ensures { result ≡ self.now.room }
    {
        self.room
    }

    // Takes memory for so many fingers.
    pub(crate) fn reserve(&mut self, fingers: u32) -> Result<(), NoMemory>
        requires { self.old.room ≤ fingers }
        ensures drawing { self.new.drawing ≡ self.old.drawing }
        ensures room { OnOk result (self.new.room ≡ fingers) }
        ensures kept { OnErr result (self.new.room ≡ self.old.room) }
    {
        widen(&mut self.strands, fingers)?;
        self.room = fingers;
        Ok(())
    }

    // Puts the two new points of a finger in. The strand leaves by the later one where `out` is 1. Linear in the exits and
    // sides.
    pub(crate) fn push(&mut self, finger: &Finger, out: u32)
        requires embedded { IsEmbedded self.old.drawing }
        requires finger { InRange self.old.drawing finger.now }
        requires out { out ≤ 1 }
        requires room { 1 ≤ self.old.room }
        requires after { IsEmbedded (with_letters self.old.drawing finger.now out) }
        requires few { length (all_exits self.old.drawing) + 2 < 2 ^ 28 }
        ensures drawing { self.new.drawing ≡ with_letters self.old.drawing finger.now out }
        ensures room { suc self.new.room ≡ self.old.room }
    {
        let near = segment_of(finger);
        let far = beyond(self, finger);
        push_strands(&near, &far, finger, out, &mut self.strands);
        raise_sides(&near, &far, &mut self.offsets);
        self.room -= 1;
    }

    // The end of a side.
    pub(crate) fn end_of(&self, side: SideNo) -> Exit
        requires { side < sides self.now.drawing.polygon }
        ensures { result ≡ end_of self.now.drawing side }
    {
        Exit {
            side,
            place: self.points_on(side),
        }
    }
}
