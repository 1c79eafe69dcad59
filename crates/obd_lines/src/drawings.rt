// What is told of drawings. Each function owns one value at most and lends the others: where a function may end early, its
// proof drops all that it owns there.
ghost use Rattle.std.specs.Prelude.{◌<◌};
ghost use Rattle.page_surface.specs.Polygon.{arc_count};

use crate::exits::{are_on_sides, joined, put_exits, strands_of};
use crate::pages::polygon_of;
use crate::stop::Stop;
use drawing::{DrawRefusal, Drawing};
use hkm_diagram::first;
use obd_base::{Exit, NoMemory, SideNo, StrandNo};
use page_surface::Polygon;
use std::alloc::Global;

// The drawing of these strands, or its refusal.
fn read_strands(
    alloc: Global,
    polygon: &Polygon,
    strands: &[Vec<Exit>],
) -> Result<Result<Drawing, DrawRefusal>, Stop> {
    let exits = joined(alloc, strands)?;
    if exits.len() > 1000
        || strands.len() != polygon.sides() as usize / 2
        || !are_on_sides(polygon, &exits)
    {
        return Err(Stop::NotRead);
    }
    Ok(Drawing::read(alloc, polygon, strands))
}

/// The drawing that is read, or its refusal.
pub(crate) fn read(
    alloc: Global,
    polygon: &Polygon,
    text: &str,
) -> Result<Result<Drawing, DrawRefusal>, Stop> {
    let strands = strands_of(alloc, text)?;
    read_strands(alloc, polygon, &strands)
}

// Puts the exits of one strand.
fn put_strand(text: &mut String, drawing: &Drawing, strand: StrandNo) -> Result<(), Stop>
    requires { strand < arc_count drawing.now.drawing.polygon }
{
    let exits = drawing.exits(strand)?;
    put_exits(text, &exits)?;
    Ok(())
}

// Puts the exits of a drawing, strand by strand.
fn put_strands(text: &mut String, drawing: &Drawing) -> Result<(), Stop> {
    let _ = drawing.points();
    for number in 0..drawing.polygon().sides() / 2 {
        if number > 0 {
            text.push_str("| ")?;
        }
        put_strand(text, drawing, StrandNo::new(number))?;
    }
    Ok(())
}

// Puts the chords and the word of one strand.
fn put_word(text: &mut String, drawing: &Drawing, strand: StrandNo) -> Result<(), Stop>
    requires { strand < arc_count drawing.now.drawing.polygon }
{
    write!(text, "; {} chords", drawing.chords(strand))?;
    let word = drawing.word(strand)?;
    for side in &word {
        write!(text, " {}", side.number())?;
    }
    Ok(())
}

// Puts the counts of a drawing and its words: the points, those on each side, and each strand's chords and word.
fn put_counts(text: &mut String, drawing: &Drawing) -> Result<(), Stop> {
    write!(text, "; {} points, on sides", drawing.points())?;
    for side in 0..drawing.polygon().sides() {
        write!(text, " {}", drawing.points_on(SideNo::new(side)))?;
    }
    for number in 0..drawing.polygon().sides() / 2 {
        put_word(text, drawing, StrandNo::new(number))?;
    }
    Ok(())
}

fn refused(alloc: Global, refusal: DrawRefusal) -> Result<String, Stop> {
    Ok(format!(in alloc; "{refusal:?}")?)
}

/// A drawing, `PAGE : EXITS`: its exits, its counts and its words; or its refusal.
pub(crate) fn drawing_told(alloc: Global, given: &str) -> Result<String, Stop> {
    let Some((page, exits)) = given.split_once(" : ") else {
        return Err(Stop::NotRead);
    };
    let polygon = polygon_of(alloc, page)?;
    match read(alloc, &polygon, exits)? {
        Ok(drawing) => counted(alloc, &drawing),
        Err(refusal) => refused(alloc, refusal),
    }
}

fn counted(alloc: Global, drawing: &Drawing) -> Result<String, Stop> {
    let mut text = String::new(alloc);
    put_strands(&mut text, drawing)?;
    put_counts(&mut text, drawing)?;
    Ok(text)
}

/// A drawing that is made tight, `PAGE : EXITS`: its exits then; or its refusal.
pub(crate) fn tight_told(alloc: Global, given: &str) -> Result<String, Stop> {
    let Some((page, exits)) = given.split_once(" : ") else {
        return Err(Stop::NotRead);
    };
    let polygon = polygon_of(alloc, page)?;
    match read(alloc, &polygon, exits)? {
        Ok(drawing) => tightened(alloc, drawing),
        Err(refusal) => refused(alloc, refusal),
    }
}

fn tightened(alloc: Global, mut drawing: Drawing) -> Result<String, Stop> {
    drawing.tighten();
    strands_told(alloc, &drawing)
}

/// The exits of a drawing, strand by strand.
pub(crate) fn strands_told(alloc: Global, drawing: &Drawing) -> Result<String, Stop> {
    let mut text = String::new(alloc);
    put_strands(&mut text, drawing)?;
    Ok(text)
}

/// The identity drawing of a page, `PAGE`: its exits and counts, and the exits of the diagram's drawing.
pub(crate) fn identity_told(alloc: Global, given: &str) -> Result<String, Stop> {
    let polygon = polygon_of(alloc, given)?;
    let mut text = String::new(alloc);
    put_identity(&mut text, alloc, &polygon)?;
    put_first(&mut text, alloc, &polygon)?;
    Ok(text)
}

fn put_identity(text: &mut String, alloc: Global, polygon: &Polygon) -> Result<(), Stop> {
    match Drawing::identity(alloc, polygon) {
        Ok(drawing) => {
            put_strands(text, &drawing)?;
            put_counts(text, &drawing)
        }
        Err(NoMemory) => Err(Stop::NoMemory),
    }
}

fn put_first(text: &mut String, alloc: Global, polygon: &Polygon) -> Result<(), Stop> {
    text.push_str("; ")?;
    match first(alloc, polygon) {
        Ok(diagram) => put_strands(text, diagram.drawing()),
        Err(NoMemory) => Err(Stop::NoMemory),
    }
}
