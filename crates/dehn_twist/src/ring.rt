// The points of a curve in order, each with its chord.
ghost use Rattle.std.specs.Prelude.{◌≡◌, ◌<◌, ◌≤◌, ◌++◌, length, map, IfOk, OnOk};
ghost use Rattle.obd_base.specs.Lists.{below};
ghost use Rattle.page_surface.specs.Drawing.{exit};
ghost use Rattle.page_surface.specs.Polygon.{sides};
ghost use Rattle.curve_paths.specs.Curves.{curve_entry, curve_points, previous};
ghost use Rattle.dehn_twist.specs.Surgery.{chord_at, chord_end, chord_start, curve_mate, curve_ring, entering_exit, is_chord_end, leaving_exit, next_exit};
ghost use Rattle.dehn_twist.specs.Tables.{curve_point};

use crate::order::Merged;
use obd_base::{Exit, NoMemory, SideNo};
use std::alloc::Global;

// A point of the curve: its merged number and that of the other end of its chord, which chord that is, and whether
// it ends there.
#[derive(Clone, Copy)]
pub(crate) struct CurvePoint {
    pub(crate) number: u32,
    pub(crate) mate: u32,
    pub(crate) chord: u32,
    pub(crate) ends: bool,
}

// The exit that leaves at a place of a side, and the number of exits where there is none.
fn leaving(exits: &[Exit], side: SideNo, place: u32) -> usize
    ensures { result ≡ leaving_exit exits.now (exit side place) }
{
    for (number, exit) in exits.iter().enumerate() {
        if exit.side == side && exit.place == place {
            return number;
        }
    }
    exits.len()
}

// The exit that enters at a place of a side, and the number of exits where there is none.
fn entering(merged: &Merged, side: SideNo, place: u32) -> usize
    ensures value { result ≡ entering_exit merged.now.drawing.polygon merged.now.curve (exit side place) }
    ensures few { result ≤ 32 }
{
    let exits = merged.curve();
    for (number, exit) in exits.iter().enumerate() {
        let entry = merged.curve_entry(*exit);
        if entry.side == side && entry.place == place {
            return number;
        }
    }
    exits.len()
}

// The exit before an exit, read round.
fn previous(count: usize, exit: usize) -> usize
    requires some { exit < count }
    ensures value { result ≡ previous count exit }
    ensures inside { result < count }
{
    if exit == 0 { count - 1 } else { exit - 1 }
}

// The exit after an exit, read round.
fn next(count: usize, exit: usize) -> usize
    requires few { exit ≤ 32 }
    ensures { result ≡ next_exit count exit }
{
    if exit + 1 == count { 0 } else { exit + 1 }
}

// Where a chord of the curve starts.
pub(crate) fn chord_start(merged: &Merged, chord: usize) -> Exit
    requires { chord < length merged.now.curve }
    ensures value { result ≡ chord_start merged.now.drawing.polygon merged.now.curve chord }
    ensures side { result.side < sides merged.now.drawing.polygon }
    ensures place { result.place < curve_points merged.now.drawing.polygon merged.now.curve result.side }
{
    let exits = merged.curve();
    merged.curve_entry(exits[previous(exits.len(), chord)])
}

// Where a chord of the curve ends.
pub(crate) fn chord_end(merged: &Merged, chord: usize) -> Exit
    requires { chord < length merged.now.curve }
    ensures value { result ≡ chord_end merged.now.curve chord }
    ensures side { result.side < sides merged.now.drawing.polygon }
    ensures place { result.place < curve_points merged.now.drawing.polygon merged.now.curve result.side }
{
    merged.curve()[chord]
}

// The chord at a point of the curve.
fn chord_at(merged: &Merged, side: SideNo, place: u32) -> usize
    requires side { side < sides merged.now.drawing.polygon }
    requires place { place < curve_points merged.now.drawing.polygon merged.now.curve side }
    ensures value { result ≡ chord_at merged.now.drawing.polygon merged.now.curve (exit side place) }
    ensures inside { result < length merged.now.curve }
    ensures few { result < 32 }
{
    let exits = merged.curve();
    let leaves = leaving(exits, side, place);
    if leaves < exits.len() {
        leaves
    } else {
        next(exits.len(), entering(merged, side, place))
    }
}

// Whether a chord of the curve ends at a point of it.
fn is_chord_end(merged: &Merged, side: SideNo, place: u32) -> bool
    ensures { result ≡ is_chord_end merged.now.curve (exit side place) }
{
    let exits = merged.curve();
    leaving(exits, side, place) < exits.len()
}

// The other end of the chord at a point of the curve.
fn mate(merged: &Merged, side: SideNo, place: u32) -> Exit
    requires side { side < sides merged.now.drawing.polygon }
    requires place { place < curve_points merged.now.drawing.polygon merged.now.curve side }
    ensures value { result ≡ curve_mate merged.now.drawing.polygon merged.now.curve (exit side place) }
    ensures side { result.side < sides merged.now.drawing.polygon }
    ensures place { result.place < curve_points merged.now.drawing.polygon merged.now.curve result.side }
{
    let chord = chord_at(merged, side, place);
    if is_chord_end(merged, side, place) {
        chord_start(merged, chord)
    } else {
        chord_end(merged, chord)
    }
}

// A point of the curve with its chord.
fn curve_point(merged: &Merged, side: SideNo, place: u32) -> CurvePoint
    requires side { side < sides merged.now.drawing.polygon }
    requires place { place < curve_points merged.now.drawing.polygon merged.now.curve side }
    ensures { result ≡ curve_point merged.now.drawing merged.now.curve (exit side place) }
{
    CurvePoint {
        number: merged.curve_number(Exit { side, place }),
        mate: merged.curve_number(mate(merged, side, place)),
        chord: chord_at(merged, side, place) as u32,
        ends: is_chord_end(merged, side, place),
    }
}

// Puts the points of a side last.
fn push_points(merged: &Merged, side: SideNo, ring: &mut Vec<CurvePoint>) -> Result<(), NoMemory>
    requires { side < sides merged.now.drawing.polygon }
    ensures { OnOk result (ring.new.items ≡ ring.old.items
        ++ map (curve_point merged.now.drawing merged.now.curve) (map (exit side) (below (curve_points merged.now.drawing.polygon merged.now.curve side)))) }
{
    for place in 0..merged.curve_points_on(side) {
        ring.push(curve_point(merged, side, place))?;
    }
    Ok(())
}

// All points of the curve. In no more steps than its points times its exits.
pub(crate) fn ring(alloc: Global, merged: &Merged) -> Result<Vec<CurvePoint>, NoMemory>
    ensures { IfOk result (λ ring. ring.items ≡ map (curve_point merged.now.drawing merged.now.curve) (curve_ring merged.now.drawing.polygon merged.now.curve)) }
{
    let mut ring = Vec::new(alloc);
    for side in 0..merged.polygon().sides() {
        push_points(merged, SideNo::new(side), &mut ring)?;
    }
    Ok(ring)
}
