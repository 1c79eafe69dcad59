// The fingers of a burst, row after row.
ghost use Rattle.std.specs.Prelude.{◌≡◌, ◌+◌, ◌*◌, ◌<◌, ◌≤◌, ◌^◌, ◌++◌, suc, [], length, IfOk, OnOk};
ghost use Rattle.obd_base.specs.Lists.{Mem};
ghost use Rattle.obd_base.specs.declared.points.Exit.{Exit as Shown};
ghost use Rattle.page_surface.specs.Drawing.{all_exits};
ghost use Rattle.nice_plan.specs.Measured.{IsChordOn, IsOn};
ghost use Rattle.nice_plan.specs.Numbers.{burst_fingers};
ghost use Rattle.nice_plan.specs.Raised.{raised_from, raised_row, row_place};
ghost use Rattle.nice_plan.specs.declared.chord_name.ChordName.{ChordName as Named};
ghost use Rattle.nice_plan.specs.declared.raised.Raised.{Raised as RaisedSegment};

use crate::ChordName;
use crate::numbers::{chord_rows, count_segment, counted, lifted, lifts, segment_rows};
use crate::raised::Raised;
use drawing::{Drawing, Finger};
use obd_base::{Exit, NoMemory};
use std::alloc::Global;

// The segments of a path with their sums. Linear in the path and the points, but for a logarithm.
fn with_sums(alloc: Global, drawing: &Drawing, path: &[Exit]) -> Result<Vec<Raised>, NoMemory>
    requires there { (e : Shown) → Mem e path.now → IsOn drawing.now.drawing e }
    requires few { length path.now < 2 ^ 30 }
    ensures { IfOk result (λ raised. raised.items ≡ raised_from drawing.now.drawing path.now [] path.now) }
{
    let _ = drawing.points();
    let all = counted(alloc, drawing, path)?;
    let mut before = segment_rows(alloc, drawing)?;
    let mut raised = Vec::with_capacity(alloc, path.len())?;
    for segment in path {
        raised.push(Raised {
            segment: *segment,
            all: lifts(&all, segment),
            before: lifts(&before, segment),
        })?;
        count_segment(drawing, &mut before, segment);
    }
    Ok(raised)
}

// Puts the fingers of a row last.
fn push_row(
    raised: &[Raised],
    row: u32,
    chord: &ChordName,
    fingers: &mut Vec<Finger>,
) -> Result<(), NoMemory>
    requires places { (r : RaisedSegment) → Mem r raised.now → row_place row r < 2 ^ 32 }
    requires chords { chord.now.chord + length raised.now < 2 ^ 32 }
    ensures { OnOk result (fingers.new.items ≡ fingers.old.items ++ raised_row row chord.now.strand chord.now.chord raised.now) }
{
    let mut number = chord.chord;
    for entry in raised {
        fingers.push(Finger {
            strand: chord.strand,
            chord: number,
            side: entry.segment.side,
            segment: entry.segment.place + (row + (row * entry.all + entry.before)),
        })?;
        number += 1;
    }
    Ok(())
}

// The fingers that push some chords along some segments, one after another. Linear in them and the points, but for a
// logarithm.
pub(crate) fn burst_fingers(
    alloc: Global,
    drawing: &Drawing,
    chords: &[ChordName],
    segments: &[Exit],
) -> Result<Vec<Finger>, NoMemory>
    requires there { (e : Shown) → Mem e segments.now → IsOn drawing.now.drawing e }
    requires chords { (c : Named) → Mem c chords.now → IsChordOn drawing.now.drawing c }
    requires some_chords { 1 ≤ length chords.now }
    requires some_segments { 1 ≤ length segments.now }
    requires few { length (all_exits drawing.now.drawing) + 2 * (length chords.now * length segments.now) < 2 ^ 28 }
    ensures { IfOk result (λ fingers. fingers.items ≡ burst_fingers drawing.now.drawing chords.now segments.now) }
{
    let raised = with_sums(alloc, drawing, segments)?;
    let mut pushed = chord_rows(alloc, drawing)?;
    let mut fingers = Vec::with_capacity(alloc, chords.len() * segments.len())?;
    for row in 0..chords.len() {
        let chord = lifted(&mut pushed, &chords[row], segments.len() as u32);
        push_row(&raised, row as u32, &chord, &mut fingers)?;
    }
    Ok(fingers)
}
