// Where sides begin in the place order, and the chords of a drawing by the numbers of their ends.
ghost use Rattle.std.specs.Prelude.{◌≡◌, ◌+◌, ◌<◌, ◌^◌, [], length, map, slice_index, IfOk, OnOk};
ghost use Rattle.page_surface.specs.Drawing.{IsEmbedded, chords, end_of, entry, points_on, strand_chords};
ghost use Rattle.page_surface.specs.Polygon.{arc_count, sides};
ghost use Rattle.drawing.specs.Layout.{offsets_of};
ghost use Rattle.drawing.specs.Pieces.{span_count};
ghost use Rattle.region_table.specs.Table.{begins_of};

use crate::rows::Rows;
use drawing::Drawing;
use obd_base::{ArcNo, Exit, NoMemory, SideNo, StrandNo};
use std::alloc::Global;
use std::marker::Model;

// A chord by the numbers of its two ends.
#[derive(Clone, Copy)]
pub(crate) struct Chord {
    pub(crate) from: u32,
    pub(crate) to: u32,
}

impl Model for Chord {
    ghost use Rattle.page_surface.specs.Drawing.{Chord as Shown};

    ghost Value = { Shown };

    ghost view = { λ c. record { from = c.from; to = c.to } };

    ghost inverse = { λ c. record { from = c.from; to = c.to } };
}

// Where each side begins in the place order, and where the last one ends: a side takes two numbers more than it has
// points. Linear in the sides.
pub(crate) fn side_starts(alloc: Global, drawing: &Drawing) -> Result<Vec<u32>, NoMemory>
    requires { span_count drawing.now.drawing < 2 ^ 30 }
    ensures { IfOk result (λ starts. starts.items ≡ offsets_of drawing.now.drawing) }
{
    let mut starts = Vec::new(alloc);
    let mut start: u32 = 0;
    starts.push(start)?;
    for side in 0..drawing.polygon().sides() {
        start += drawing.points_on(SideNo::new(side)) + 2;
        starts.push(start)?;
    }
    Ok(starts)
}

// The number of a place.
pub(crate) fn spot(starts: &[u32], exit: Exit) -> u32
    requires side { exit.side < length starts.now }
    requires few { slice_index starts.now exit.side + exit.place < 2 ^ 30 }
    ensures { result ≡ slice_index starts.now exit.side + exit.place }
{
    starts[exit.side.number() as usize] + exit.place
}

// The chord between two places.
fn chord_between(starts: &[u32], from: Exit, to: Exit) -> Chord
    requires from_side { from.side < length starts.now }
    requires from_few { slice_index starts.now from.side + from.place < 2 ^ 30 }
    requires to_side { to.side < length starts.now }
    requires to_few { slice_index starts.now to.side + to.place < 2 ^ 30 }
    ensures { result ≡ record { from = slice_index starts.now from.side + from.place; to = slice_index starts.now to.side + to.place } }
{
    Chord {
        from: spot(starts, from),
        to: spot(starts, to),
    }
}

// The end of a side.
fn end_of(drawing: &Drawing, side: SideNo) -> Exit
    requires { side < sides drawing.now.drawing.polygon }
    ensures { result ≡ end_of drawing.now.drawing side }
{
    Exit {
        side,
        place: drawing.points_on(side),
    }
}

// The entry that belongs to an exit.
fn entry(drawing: &Drawing, exit: Exit) -> Exit
    requires side { exit.side < sides drawing.now.drawing.polygon }
    requires place { exit.place < points_on drawing.now.drawing exit.side }
    ensures { result ≡ entry drawing.now.drawing exit }
{
    Exit {
        side: drawing.polygon().pair(exit.side),
        place: drawing.points_on(exit.side) - 1 - exit.place,
    }
}

// The chords of a strand. Linear in them.
pub(crate) fn strand_chords(
    alloc: Global,
    drawing: &Drawing,
    starts: &[u32],
    strand: StrandNo,
) -> Result<Vec<Chord>, NoMemory>
    requires embedded { IsEmbedded drawing.now.drawing }
    requires few { span_count drawing.now.drawing < 2 ^ 30 }
    requires starts { starts.now ≡ offsets_of drawing.now.drawing }
    requires strand { strand < arc_count drawing.now.drawing.polygon }
    ensures { IfOk result (λ chords. chords.items ≡ strand_chords drawing.now.drawing strand) }
{
    let polygon = drawing.polygon();
    let first_side = polygon.first_side(ArcNo::new(strand.number()));
    let mut from = end_of(drawing, polygon.pair(first_side));
    let exits = drawing.exits(strand)?;
    let mut chords = Vec::new(alloc);
    for exit in exits.as_slice() {
        chords.push(chord_between(starts, from, *exit))?;
        from = entry(drawing, *exit);
    }
    chords.push(chord_between(starts, from, end_of(drawing, first_side)))?;
    Ok(chords)
}

// Where some chords begin.
fn beginnings(alloc: Global, chords: &[Chord]) -> Result<Vec<u32>, NoMemory>
    ensures { IfOk result (λ begins. begins.items ≡ map (λ c. c.from) chords.now) }
{
    let mut begins = Vec::new(alloc);
    for chord in chords {
        begins.push(chord.from)?;
    }
    Ok(begins)
}

// Puts the chords of all strands last in one list, and where they begin in a list for each strand. Linear in them.
pub(crate) fn read_chords(
    alloc: Global,
    drawing: &Drawing,
    starts: &[u32],
    all: &mut Vec<Chord>,
    begins: &mut Rows,
) -> Result<(), NoMemory>
    requires embedded { IsEmbedded drawing.now.drawing }
    requires few { span_count drawing.now.drawing < 2 ^ 30 }
    requires starts { starts.now ≡ offsets_of drawing.now.drawing }
    requires no_chords { all.old.items ≡ [] }
    requires no_begins { begins.old ≡ record { lists = []; room = 0 } }
    ensures chords { OnOk result (all.new.items ≡ chords drawing.now.drawing) }
    ensures begins { OnOk result (begins.new.lists ≡ begins_of drawing.now.drawing) }
    ensures room { begins.new.room ≡ 0 }
{
    for strand in 0..drawing.polygon().sides() / 2 {
        let chords = strand_chords(alloc, drawing, starts, StrandNo::new(strand))?;
        all.extend_from_slice(&chords)?;
        begins.push(beginnings(alloc, &chords)?)?;
    }
    Ok(())
}
