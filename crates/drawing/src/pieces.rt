// Which chords border the piece of a segment.
ghost use Rattle.std.specs.Prelude.{◌≡◌, ◌<◌, ◌≤◌, length, nat_eq, not};
ghost use Rattle.std.specs.List.{list_any};
ghost use Rattle.page_surface.specs.Drawing.{IsEmbedded, IsPlaced, points_on, spot, strand_chords, strand_exits};
ghost use Rattle.page_surface.specs.Polygon.{arc_count, sides};
ghost use Rattle.drawing.specs.Fingers.{InRange, borders, chord_at, entered};
ghost use Rattle.drawing.specs.Pieces.{parts_from};
ghost use Rattle.drawing.specs.Window.{IsWindow};

use crate::Finger;
use crate::chords::{Chord, chord_between};
use crate::finger::segment_of;
use crate::layout::Layout;
use crate::window::Window;
use obd_base::{ArcNo, Exit, StrandNo};

// Where a chord of a strand begins: at the start of the strand, or where the strand enters after an exit.
pub(crate) fn chord_start(layout: &Layout, strand: StrandNo, chord: u32) -> Exit
    requires placed { IsPlaced layout.now.drawing }
    requires strand { strand < arc_count layout.now.drawing.polygon }
    requires chord { chord ≤ length (strand_exits layout.now.drawing strand) }
    ensures side { result.side < sides layout.now.drawing.polygon }
    ensures place { result.place ≤ points_on layout.now.drawing result.side }
    ensures value { spot layout.now.drawing result ≡ (chord_at layout.now.drawing strand chord).from }
{
    if chord == 0 {
        let polygon = layout.polygon();
        layout.end_of(polygon.pair(polygon.first_side(ArcNo::new(strand.number()))))
    } else {
        layout.entry(layout.exits(strand)[chord as usize - 1])
    }
}

// Where it ends: at an exit, and the last one at the end of the strand.
fn chord_end(layout: &Layout, strand: StrandNo, chord: u32) -> Exit
    requires placed { IsPlaced layout.now.drawing }
    requires strand { strand < arc_count layout.now.drawing.polygon }
    requires chord { chord ≤ length (strand_exits layout.now.drawing strand) }
    ensures side { result.side < sides layout.now.drawing.polygon }
    ensures place { result.place ≤ points_on layout.now.drawing result.side }
    ensures value { spot layout.now.drawing result ≡ (chord_at layout.now.drawing strand chord).to }
{
    let exits = layout.exits(strand);
    if (chord as usize) < exits.len() {
        exits[chord as usize]
    } else {
        layout.end_of(layout.polygon().first_side(ArcNo::new(strand.number())))
    }
}

// A chord of a strand. Constant time.
pub(crate) fn chord_of(layout: &Layout, strand: StrandNo, chord: u32) -> Chord
    requires placed { IsPlaced layout.now.drawing }
    requires strand { strand < arc_count layout.now.drawing.polygon }
    requires chord { chord ≤ length (strand_exits layout.now.drawing strand) }
    ensures { result ≡ chord_at layout.now.drawing strand chord }
{
    let from = chord_start(layout, strand, chord);
    let to = chord_end(layout, strand, chord);
    chord_between(layout, from, to)
}

// Whether a chord of a strand begins elsewhere than at a span.
fn begins_elsewhere(layout: &Layout, strand: StrandNo, chord: u32, start: u32) -> bool
    requires placed { IsPlaced layout.now.drawing }
    requires strand { strand < arc_count layout.now.drawing.polygon }
    requires chord { chord ≤ length (strand_exits layout.now.drawing strand) }
    ensures { result ≡ not (nat_eq (chord_at layout.now.drawing strand chord).from start) }
{
    layout.spot(chord_start(layout, strand, chord)) != start
}

// Whether a chord of a strand that begins elsewhere separates the two spans of a window.
fn strand_parts(layout: &Layout, window: &Window, strand: StrandNo) -> bool
    requires placed { IsPlaced layout.now.drawing }
    requires strand { strand < arc_count layout.now.drawing.polygon }
    requires window { IsWindow layout.now.drawing window.now.start window.now.segment window.now.exits window.now.entries window.now.count }
    ensures { result ≡ list_any (parts_from window.now.start window.now.segment) (strand_chords layout.now.drawing strand) }
{
    let first_side = layout.polygon().first_side(ArcNo::new(strand.number()));
    let second_side = layout.polygon().pair(first_side);
    let exits = layout.exits(strand);
    let mut inside = window.holds(layout.spot(layout.end_of(second_side)));
    for chord in 0..exits.len() {
        let exit = &exits[chord];
        if inside != window.leaves(exit)
            && begins_elsewhere(layout, strand, chord as u32, window.start())
        {
            return true;
        }
        inside = window.enters(exit);
    }
    inside != window.holds(layout.spot(layout.end_of(first_side)))
        && begins_elsewhere(layout, strand, exits.len() as u32, window.start())
}

// Whether a chord borders the piece of a segment, by their numbers: whether no other chord separates the two. One pass over
// the exits.
pub(crate) fn borders(layout: &Layout, finger: &Finger) -> bool
    requires embedded { IsEmbedded layout.now.drawing }
    requires finger { InRange layout.now.drawing finger.now }
    ensures { result ≡ borders layout.now.drawing (chord_at layout.now.drawing finger.now.strand finger.now.chord) (entered layout.now.drawing finger.now) }
{
    let start = layout.spot(chord_start(layout, finger.strand, finger.chord));
    let segment = layout.spot(segment_of(finger));
    let window = Window::of(layout, start, segment);
    for strand in 0..layout.polygon().sides() / 2 {
        if strand_parts(layout, &window, StrandNo::new(strand)) {
            return false;
        }
    }
    true
}
