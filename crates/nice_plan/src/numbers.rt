// By how much the segments and the rows of a burst raise numbers of the drawing before it.
ghost use Rattle.std.specs.Prelude.{◌≡◌, ◌+◌, ◌-◌, ◌*◌, ◌<◌, ◌≤◌, ◌^◌, ℕ, length, sum, IfOk};
ghost use Rattle.page_surface.specs.Drawing.{points_on, strand_exits};
ghost use Rattle.page_surface.specs.Polygon.{arc_count, sides};
ghost use Rattle.obd_base.specs.Lists.{Mem};
ghost use Rattle.obd_base.specs.declared.points.Exit.{Exit as Shown};
ghost use Rattle.nice_plan.specs.Counted.{HasRows, IsCounted, IsEmpty, before, both_marked, marked, row};
ghost use Rattle.nice_plan.specs.Measured.{IsOn};

use crate::ChordName;
use crate::counts::Counts;
use drawing::Drawing;
use obd_base::{Exit, NoMemory, SideNo, StrandNo};
use std::alloc::Global;

// Rows for the segments of each side, with nothing on them. Linear in the points.
pub(crate) fn segment_rows(alloc: Global, drawing: &Drawing) -> Result<Vec<Counts>, NoMemory>
    ensures { IfOk result (λ rows. IsEmpty (sides drawing.now.drawing.polygon) (points_on drawing.now.drawing) rows.items) }
{
    let mut rows = Vec::new(alloc);
    for side in 0..drawing.polygon().sides() {
        let segments = drawing.points_on(SideNo::new(side)) + 1;
        rows.push(Counts::of(alloc, segments)?)?;
    }
    Ok(rows)
}

// Rows for the chords of each strand, with nothing on them. Linear in the points.
pub(crate) fn chord_rows(alloc: Global, drawing: &Drawing) -> Result<Vec<Counts>, NoMemory>
    ensures { IfOk result (λ rows. IsEmpty (arc_count drawing.now.drawing.polygon) (λ i. length (strand_exits drawing.now.drawing i)) rows.items) }
{
    let _ = drawing.points();
    let mut rows = Vec::new(alloc);
    for strand in 0..drawing.polygon().sides() / 2 {
        let chords = drawing.chords(StrandNo::new(strand));
        rows.push(Counts::of(alloc, chords)?)?;
    }
    Ok(rows)
}

// Adds one at a place of a row. Logarithmic.
fn mark(rows: &mut [Counts], number: u32, place: u32)
    requires number { number < length rows.old }
    requires place { place < length (row rows.old number) }
    requires few { sum (row rows.old number) + 1 < 2 ^ 32 }
    ensures { rows.new ≡ marked rows.old number place }
{
    rows[number as usize].add(place);
}

// Counts a segment and the one that it is glued to. Logarithmic.
pub(crate) fn count_segment(drawing: &Drawing, rows: &mut [Counts], segment: &Exit)
    requires there { IsOn drawing.now.drawing segment.now }
    requires rows { HasRows (sides drawing.now.drawing.polygon) (points_on drawing.now.drawing) rows.old }
    requires few { (k : ℕ) → sum (row rows.old k) < 2 ^ 31 }
    ensures { rows.new ≡ both_marked drawing.now.drawing rows.old segment.now }
{
    // That a drawing has points says that it is embedded.
    let _ = drawing.points();
    let glued = drawing.polygon().pair(segment.side);
    let glued_place = drawing.points_on(segment.side) - segment.place;
    mark(rows, segment.side.number(), segment.place);
    mark(rows, glued.number(), glued_place);
}

// The rows on which some segments are counted, each with the one that it is glued to. Linear in them and the points, but
// for a logarithm.
pub(crate) fn counted(
    alloc: Global,
    drawing: &Drawing,
    segments: &[Exit],
) -> Result<Vec<Counts>, NoMemory>
    requires there { (e : Shown) → Mem e segments.now → IsOn drawing.now.drawing e }
    requires few { length segments.now < 2 ^ 30 }
    ensures { IfOk result (λ rows. IsCounted drawing.now.drawing segments.now rows.items) }
{
    let _ = drawing.points();
    let mut rows = segment_rows(alloc, drawing)?;
    for segment in segments {
        count_segment(drawing, &mut rows, segment);
    }
    Ok(rows)
}

// By how much the counted segments raise a segment: two for each that stands before it, or is glued to one that does.
// Logarithmic.
pub(crate) fn lifts(rows: &[Counts], segment: &Exit) -> u32
    requires side { segment.now.side < length rows.now }
    requires place { segment.now.place < length (row rows.now segment.now.side) }
    requires few { sum (row rows.now segment.now.side) < 2 ^ 31 }
    ensures { result ≡ before rows.now segment.now.side segment.now.place + before rows.now segment.now.side segment.now.place }
{
    2 * rows[segment.side.number() as usize].before(segment.place)
}

// A chord by its number after the rows of the counted chords, each of so many segments. It is counted then too.
// Logarithmic.
pub(crate) fn lifted(rows: &mut [Counts], chord: &ChordName, segments: u32) -> ChordName
    requires strand { chord.now.strand < length rows.old }
    requires chord { chord.now.chord < length (row rows.old chord.now.strand) }
    requires few { chord.now.chord + (segments + segments) * (sum (row rows.old chord.now.strand) + 1) < 2 ^ 32 }
    requires some { 1 ≤ segments }
    ensures strand { result.strand ≡ chord.now.strand }
    ensures chord { result.chord ≡ chord.now.chord + (segments + segments) * before rows.old chord.now.strand chord.now.chord }
    ensures counted { rows.new ≡ marked rows.old chord.now.strand chord.now.chord }
{
    let row = &mut rows[chord.strand.number() as usize];
    let before = row.before(chord.chord);
    row.add(chord.chord);
    ChordName {
        strand: chord.strand,
        chord: chord.chord + 2 * segments * before,
    }
}
