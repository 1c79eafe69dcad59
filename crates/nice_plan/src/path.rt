// The path of a burst.
ghost use Rattle.std.specs.Prelude.{◌≡◌, ◌<◌, length, map, IfOk};
ghost use Rattle.page_surface.specs.Drawing.{chords, spot};
ghost use Rattle.finger_move.specs.Glued.{segment_of};
ghost use Rattle.region_table.specs.Table.{name_at, region};
ghost use Rattle.nice_plan.specs.Measured.{IsInner, IsOn, goes_on, stops_at};
ghost use Rattle.nice_plan.specs.Path.{leaves_by, path_from};

use crate::doors::first_door;
use crate::measured::Measured;
use obd_base::{Exit, NoMemory, PieceNo};
use std::alloc::Global;

// Whether the path stops in a piece: whether it is base, has one segment, or is nearer to the base than the chosen one.
fn stops_at(measured: &Measured, far: u32, piece: PieceNo) -> bool
    requires { piece < length measured.now.table.regions }
    ensures { result ≡ stops_at measured.now far piece }
{
    if measured.is_base(piece) {
        return true;
    }
    measured.size(piece) == 1 || measured.distance(piece) < far
}

// Whether it leaves a piece by the next segment, counterclockwise, after the one by which it came: whether the piece has two
// segments, or its door doesn't lie between the two. Linear in the piece.
fn goes_on(measured: &Measured, piece: PieceNo, index: u32) -> bool
    requires piece { IsInner measured.now piece }
    requires index { index < (region measured.now.table piece).size }
    ensures { result ≡ goes_on measured.now piece index }
{
    let size = measured.size(piece);
    if size == 2 {
        return true;
    }
    let door = first_door(measured, piece);
    door.index != index
}

// The segment by which it leaves the piece that it enters by a segment. Linear in the piece.
fn leaves_by(measured: &Measured, piece: PieceNo, entered: &Exit) -> Exit
    requires piece { IsInner measured.now piece }
    requires there { IsOn measured.now.drawing entered.now }
    requires inside { name_at measured.now.table (spot measured.now.drawing entered.now) ≡ piece }
    ensures value { spot measured.now.drawing result ≡ leaves_by measured.now.drawing (spot measured.now.drawing entered.now) }
    ensures there { IsOn measured.now.drawing result }
{
    let index = measured.index_of(piece, entered);
    if goes_on(measured, piece, index) {
        let next = measured.next(piece, index);
        measured.segment(piece, next)
    } else {
        let previous = measured.previous(piece, index);
        measured.segment(piece, previous)
    }
}

// The path from a segment on, until it stops. It meets no piece twice, and so has at most as many segments as there are
// chords. Linear in the pieces on the way.
pub(crate) fn path(
    alloc: Global,
    measured: &Measured,
    far: u32,
    start: Exit,
) -> Result<Vec<Exit>, NoMemory>
    requires { IsOn measured.now.drawing start }
    ensures { IfOk result (λ path. path.items ≡ map (segment_of measured.now.drawing) (path_from measured.now.drawing far (length (chords measured.now.drawing)) (spot measured.now.drawing start))) }
{
    let mut left = measured.drawing.points() + measured.drawing.polygon().sides() / 2;
    let mut path = Vec::new(alloc);
    let mut segment = start;
    while left > 0 {
        path.push(segment)?;
        let entered = measured.beyond(&segment);
        let piece = measured.piece(&entered);
        if stops_at(measured, far, piece) {
            return Ok(path);
        }
        segment = leaves_by(measured, piece, &entered);
        left -= 1;
    }
    Ok(path)
}
