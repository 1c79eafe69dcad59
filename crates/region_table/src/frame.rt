// What of a table is read off the chords of a drawing.
ghost use Rattle.std.specs.Prelude.{◌≡◌, ℕ, suc, ◌+◌, ◌<◌, ◌≤◌, ◌^◌, cond, length, nat_lt, slice_index, vec_capacity, vec_len, IfOk, OnOk};
ghost use Rattle.page_surface.specs.Drawing.{Drawing as Shown, IsEmbedded};
ghost use Rattle.drawing.specs.Fingers.{IsLegal, pushed};
ghost use Rattle.region_table.specs.Ends.{IsFrameOf};
ghost use Rattle.region_table.specs.FingerLists.{IsPush, begins_later};
ghost use Rattle.region_table.specs.Room.{HasPlaces, KeepsCapacity, TookRoom};

use crate::chords::{read_chords, side_starts};
use crate::ends::{ChordNo, chord_ends, write_ends};
use crate::entries::{Push, write_mates};
use crate::mates::mates;
use crate::rows::Rows;
use drawing::{Drawing, Finger};
use obd_base::{NoMemory, SideNo};
use std::alloc::Global;

// Where sides begin in the place order, the other end of the chord at each number, where the chords of each strand
// begin, and the chord that ends at each number.
pub(crate) struct Frame {
    pub(crate) starts: Vec<u32>,
    pub(crate) mates: Vec<u32>,
    pub(crate) begins: Rows,
    pub(crate) ends: Vec<ChordNo>,
}

// By hand, so that a caller's proof holds one call and not the drop of each field.
impl Drop for Frame {
    fn drop(self) {
        let Frame {
            starts: _starts,
            mates: _mates,
            begins: _begins,
            ends: _ends,
        } = self;
    }
}

// Takes room for so many fingers in the lists that grow by numbers.
pub(crate) fn reserve_frame(frame: &mut Frame, fingers: u32) -> Result<(), NoMemory>
    ensures starts { frame.new.starts ≡ frame.old.starts }
    ensures mates { TookRoom frame.old.mates frame.new.mates }
    ensures ends { TookRoom frame.old.ends frame.new.ends }
    ensures begins { frame.new.begins.lists ≡ frame.old.begins.lists }
    ensures rows { frame.old.begins.room ≤ frame.new.begins.room }
    ensures ok { OnOk result (HasPlaces 4 fingers frame.new.mates × HasPlaces 4 fingers frame.new.ends × fingers ≤ frame.new.begins.room) }
{
    frame.mates.try_reserve(4 * fingers as usize)?;
    frame.ends.try_reserve(4 * fingers as usize)?;
    frame.begins.reserve(fingers)?;
    Ok(())
}

// Linear in the chords and sides.
pub(crate) fn frame_of(alloc: Global, drawing: &Drawing) -> Result<Frame, NoMemory>
    ensures frame { IfOk result (λ frame. IsFrameOf drawing.now.drawing frame.starts.items frame.mates.items frame.begins.lists frame.ends.items) }
    ensures room { IfOk result (λ frame. frame.begins.room ≡ 0) }
{
    let _ = drawing.points();
    let sides = drawing.polygon().sides() as usize;
    let starts = side_starts(alloc, drawing)?;
    let mut all = Vec::new(alloc);
    let mut begins = Rows::new(alloc);
    read_chords(alloc, drawing, &starts, &mut all, &mut begins)?;
    let count = starts[sides];
    let mates = mates(alloc, &all, count)?;
    let ends = chord_ends(alloc, &begins, &mates)?;
    Ok(Frame {
        starts,
        mates,
        begins,
        ends,
    })
}

// How much later a side begins after a finger that puts two points on another.
fn later(other: SideNo, side: usize) -> u32
    ensures { result ≡ cond (nat_lt other side) 2 0 }
{
    if (other.number() as usize) < side {
        2
    } else {
        0
    }
}

// Where sides begin after a finger that puts two points on each of two sides. Linear in the sides.
fn write_starts(starts: &mut [u32], one: SideNo, other: SideNo)
    requires { (k : ℕ) → slice_index starts.old k < 2 ^ 30 }
    ensures size { length starts.new ≡ length starts.old }
    ensures starts { (k : ℕ) → k < length starts.old → slice_index starts.new k ≡ slice_index starts.old k + begins_later one other k }
{
    for side in 0..starts.len() {
        starts[side] = starts[side] + (later(one, side) + later(other, side));
    }
}

// The frame of the drawing after a finger. It takes no memory, and uses up the room for a finger. Linear in the numbers:
// each list is passed once in order.
pub(crate) fn write_frame(frame: &mut Frame, drawing: &Drawing, finger: &Finger, push: Push)
    requires before { (d : Shown) × IsEmbedded d × IsLegal d finger.now × IsFrameOf d frame.old.starts.items frame.old.mates.items frame.old.begins.lists frame.old.ends.items × IsPush d finger.now push.from push.near push.far push.entry.entered push.entry.beyond push.out × (drawing.now.drawing ≡ pushed d finger.now) }
    requires mates_room { vec_len frame.old.mates + 4 ≤ vec_capacity frame.old.mates }
    requires ends_room { vec_len frame.old.ends + 4 ≤ vec_capacity frame.old.ends }
    requires rows_room { 1 ≤ frame.old.begins.room }
    ensures frame { IsFrameOf drawing.now.drawing frame.new.starts.items frame.new.mates.items frame.new.begins.lists frame.new.ends.items }
    ensures room { KeepsCapacity frame.old.mates frame.new.mates × KeepsCapacity frame.old.ends frame.new.ends }
    ensures rows { suc frame.new.begins.room ≡ frame.old.begins.room }
{
    let _ = drawing.points();
    let _ = drawing.polygon().sides();
    let other = drawing.polygon().pair(finger.side);
    write_starts(&mut frame.starts, finger.side, other);
    write_mates(&mut frame.mates, push);
    frame.begins.write(
        push.entry,
        finger.strand.number() as usize,
        finger.chord,
        push.entry.first_beyond() + 1 - push.out,
        push.entry.first_new() + 1 - push.out,
    );
    let pushed = ChordNo {
        strand: finger.strand,
        chord: finger.chord,
    };
    write_ends(&mut frame.ends, push, pushed);
}
