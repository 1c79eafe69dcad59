// The surgery: each strand with a copy of the curve at each meeting.
ghost use Rattle.std.specs.Prelude.{◌≡◌, ◌<◌, ◌≤◌, ◌++◌, length, IfOk, OnOk};
ghost use Rattle.obd_base.specs.Lists.{Mem};
ghost use Rattle.page_surface.specs.Drawing.{all_exits, end_of, points_on};
ghost use Rattle.page_surface.specs.Polygon.{arc_count, first_side, second_side, sides};
ghost use Rattle.curve_paths.specs.Curves.{IsCurve};
ghost use Rattle.dehn_twist.specs.Surgery.{loops, meeting_count, merged_chords, surgery};
ghost use Rattle.dehn_twist.specs.Tables.{merged_chord, surgery_row};

use crate::chords::Chord;
use crate::loops::put_loops;
use crate::meetings::Meetings;
use curve_paths::Curve;
use drawing::Drawing;
use obd_base::{ArcNo, Exit, Items, NoMemory, Sign, StrandNo};
use std::alloc::Global;

// Where a strand starts: the end of the second side of its arc.
fn strand_start(meetings: &Meetings, strand: StrandNo) -> Exit
    requires { strand < arc_count meetings.now.drawing.polygon }
    ensures value { result ≡ end_of meetings.now.drawing (second_side meetings.now.drawing.polygon strand) }
    ensures side { result.side < sides meetings.now.drawing.polygon }
    ensures place { result.place ≤ points_on meetings.now.drawing result.side }
{
    let merged = meetings.merged();
    let polygon = merged.polygon();
    merged.end_of(polygon.pair(polygon.first_side(ArcNo::new(strand.number()))))
}

// Where it ends: the end of the first side.
fn strand_end(meetings: &Meetings, strand: StrandNo) -> Exit
    requires { strand < arc_count meetings.now.drawing.polygon }
    ensures value { result ≡ end_of meetings.now.drawing (first_side meetings.now.drawing.polygon strand) }
    ensures side { result.side < sides meetings.now.drawing.polygon }
    ensures place { result.place ≤ points_on meetings.now.drawing result.side }
{
    let merged = meetings.merged();
    merged.end_of(merged.polygon().first_side(ArcNo::new(strand.number())))
}

// Appends the loops of the chord between two points of a strand.
fn put_chord(
    meetings: &Meetings,
    sign: Sign,
    from: Exit,
    to: Exit,
    row: &mut Vec<Exit>,
) -> Result<(), NoMemory>
    requires from_side { from.side < sides meetings.now.drawing.polygon }
    requires from_place { from.place ≤ points_on meetings.now.drawing from.side }
    requires to_side { to.side < sides meetings.now.drawing.polygon }
    requires to_place { to.place ≤ points_on meetings.now.drawing to.side }
    requires chord { Mem (merged_chord meetings.now.drawing meetings.now.curve from to) (merged_chords meetings.now.drawing meetings.now.curve) }
    ensures { OnOk result (row.new.items ≡ row.old.items
        ++ loops meetings.now.drawing meetings.now.curve sign (meeting_count meetings.now.drawing meetings.now.curve) from to) }
{
    let merged = meetings.merged();
    let chord = Chord::new(merged.strand_number(from), merged.strand_number(to));
    put_loops(meetings, sign, chord, row)
}

// Appends a strand with its loops. Linear in its chords times the curve's points, and in the exits put there.
fn put_strand(
    meetings: &Meetings,
    sign: Sign,
    strand: StrandNo,
    row: &mut Vec<Exit>,
) -> Result<(), NoMemory>
    requires { strand < arc_count meetings.now.drawing.polygon }
    ensures { OnOk result (row.new.items ≡ row.old.items ++ surgery_row meetings.now.drawing meetings.now.curve sign strand) }
{
    let merged = meetings.merged();
    let mut from = strand_start(meetings, strand);
    for exit in merged.strand(strand) {
        put_chord(meetings, sign, from, *exit, row)?;
        row.push(merged.kept_point(meetings.lines(), *exit))?;
        from = merged.entry(*exit);
    }
    put_chord(meetings, sign, from, strand_end(meetings, strand), row)
}

// The row of a strand with its loops.
fn strand_row(
    alloc: Global,
    meetings: &Meetings,
    sign: Sign,
    strand: StrandNo,
) -> Result<Items<Exit>, NoMemory>
    requires { strand < arc_count meetings.now.drawing.polygon }
    ensures { IfOk result (λ row. row ≡ surgery_row meetings.now.drawing meetings.now.curve sign strand) }
{
    let mut row = Vec::new(alloc);
    put_strand(meetings, sign, strand, &mut row)?;
    Ok(Items::from_vec(row))
}

// The rows of all strands.
fn strand_rows(alloc: Global, meetings: &Meetings, sign: Sign) -> Result<Vec<Items<Exit>>, NoMemory>
    ensures { IfOk result (λ rows. rows.items ≡ (surgery meetings.now.drawing meetings.now.curve sign).strands) }
{
    let mut rows = Vec::new(alloc);
    for strand in 0..meetings.merged().polygon().sides() / 2 {
        rows.push(strand_row(alloc, meetings, sign, StrandNo::new(strand))?)?;
    }
    Ok(rows)
}

// The strands of a drawing after the surgery of a single twist, not yet made tight. Linear in the exits that it makes;
// in the drawing's exits and sides, times the curve's exits, for the tables of the meetings.
pub(crate) fn surgery_of(
    alloc: Global,
    drawing: &Drawing,
    curve: &Curve,
    sign: Sign,
) -> Result<Vec<Items<Exit>>, NoMemory>
    requires curve { IsCurve drawing.now.drawing.polygon curve.now }
    requires few { length (all_exits drawing.now.drawing) ≤ 4000 }
    ensures { IfOk result (λ strands. strands.items ≡ (surgery drawing.now.drawing curve.now sign).strands) }
{
    let meetings = Meetings::of(alloc, drawing, curve)?;
    strand_rows(alloc, &meetings, sign)
}
