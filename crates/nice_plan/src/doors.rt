// Doors: the chords by which one comes from a piece to the base.
ghost use Rattle.std.specs.Prelude.{◌≡◌, ◌<◌, suc, map, IfOk};
ghost use Rattle.drawing.specs.Pieces.{distance};
ghost use Rattle.region_table.specs.Table.{name_at, region};
ghost use Rattle.nice_plan.specs.Burst.{chord_ending, named_chords};
ghost use Rattle.nice_plan.specs.Measured.{IsInner, home, segment_at};
ghost use Rattle.nice_plan.specs.Path.{before_door, doors_from};

use crate::ChordName;
use crate::measured::Measured;
use obd_base::{NoMemory, PieceNo};
use region_table::Edge;
use std::alloc::Global;

// A chord of a piece: the number of the segment before it, its name, and the piece behind it.
#[derive(Clone, Copy)]
pub(crate) struct Door {
    pub(crate) index: u32,
    pub(crate) chord: ChordName,
    pub(crate) behind: PieceNo,
}

// The chord after a segment of a piece that isn't base.
fn way_out(measured: &Measured, piece: PieceNo, index: u32) -> Door
    requires piece { IsInner measured.now piece }
    requires index { index < (region measured.now.table piece).size }
    ensures index { result.index ≡ index }
    ensures chord { result.chord ≡ chord_ending (named_chords measured.now.drawing) (segment_at measured.now piece index) }
    ensures behind { result.behind ≡ name_at measured.now.table (suc (segment_at measured.now piece index)) }
{
    match measured.regions.edge(piece, 2 * index + 1) {
        Edge::Chord { strand, chord } => {
            let [before, after] = measured.regions.beside(strand, chord);
            let behind = if before == piece { after } else { before };
            Door {
                index,
                chord: ChordName { strand, chord },
                behind,
            }
        }
        Edge::Segment { .. } => unreachable!(),
    }
}

// The door of a piece that isn't base: the first chord, counterclockwise from the piece's first segment, behind which
// lies a piece that is one nearer to the base. Linear in the piece.
pub(crate) fn first_door(measured: &Measured, piece: PieceNo) -> Door
    requires { IsInner measured.now piece }
    ensures inside { result.index < (region measured.now.table piece).size }
    ensures before { segment_at measured.now piece result.index ≡ before_door measured.now.drawing (home measured.now piece) }
    ensures chord { result.chord ≡ chord_ending (named_chords measured.now.drawing) (before_door measured.now.drawing (home measured.now piece)) }
    ensures behind { result.behind ≡ name_at measured.now.table (suc (before_door measured.now.drawing (home measured.now piece))) }
{
    let nearer = measured.distance(piece) - 1;
    let mut door = way_out(measured, piece, 0);
    while measured.distance(door.behind) != nearer {
        door = way_out(measured, piece, door.index + 1);
    }
    door
}

// The doors from a piece that isn't base to the base, one after another. Linear in the pieces on the way.
pub(crate) fn doors(
    alloc: Global,
    measured: &Measured,
    from: PieceNo,
) -> Result<Vec<ChordName>, NoMemory>
    requires { IsInner measured.now from }
    ensures { IfOk result (λ doors. doors.items ≡ map (chord_ending (named_chords measured.now.drawing)) (doors_from measured.now.drawing (distance measured.now.drawing (home measured.now from)) (home measured.now from))) }
{
    let far = measured.distance(from);
    let mut doors = Vec::with_capacity(alloc, far as usize)?;
    let mut piece = from;
    while !measured.is_base(piece) {
        let next = first_door(measured, piece);
        doors.push(next.chord)?;
        piece = next.behind;
    }
    Ok(doors)
}
