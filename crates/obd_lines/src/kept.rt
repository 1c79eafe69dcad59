// What is told of tables of regions that are kept through fingers.
ghost use Rattle.std.specs.Prelude.{◌≡◌, OnOk};
ghost use Rattle.drawing.specs.Fingers.{IsLegal};
ghost use Rattle.region_table.specs.Table.{IsFresh, IsTableOf};

use crate::carried::{Spots, is_kept, names_stay};
use crate::drawings::read;
use crate::exits::exit_of;
use crate::fingers::finger_of;
use crate::pages::polygon_of;
use crate::same_tables::are_renamed;
use crate::stop::Stop;
use drawing::{Drawing, Finger};
use finger_move::{apply, is_legal};
use obd_base::{NoMemory, SideNo};
use region_table::Regions;
use std::alloc::Global;

// What a finger does to a table: how many pieces it changes or makes, and whether the table is then the one made anew, up to
// names, and the pieces that are kept have their names.
#[derive(Clone, Copy)]
struct Step {
    count: u32,
    same: bool,
}

// A span that is followed: its number, whether each finger so far kept its piece, and how many did.
#[derive(Clone, Copy)]
struct Followed {
    span: usize,
    kept: bool,
    fingers: u32,
}

/// A table of regions that is kept through fingers, `PAGE : EXITS : FINGERS : SEGMENT`: for each finger how many pieces it
/// changes or makes; whether the table after each is the one made anew, up to names, and each piece that the finger keeps
/// has the name that it had; and how many fingers, from the first one on, keep the piece of a segment: `2.1` is segment 1
/// of side 2.
pub(crate) fn kept_told(alloc: Global, given: &str) -> Result<String, Stop> {
    let Some((page, rest)) = given.split_once(" : ") else {
        return Err(Stop::NotRead);
    };
    let Some((exits, rest)) = rest.split_once(" : ") else {
        return Err(Stop::NotRead);
    };
    let Some((fingers, segment)) = rest.split_once(" : ") else {
        return Err(Stop::NotRead);
    };
    let polygon = polygon_of(alloc, page)?;
    match read(alloc, &polygon, exits)? {
        Ok(drawing) => kept_through(alloc, drawing, fingers, segment),
        Err(_) => Err(Stop::NotRead),
    }
}

fn kept_through(
    alloc: Global,
    mut drawing: Drawing,
    fingers: &str,
    segment: &str,
) -> Result<String, Stop> {
    match Regions::of(alloc, &drawing) {
        Ok(mut regions) => steps_told(alloc, &mut drawing, &mut regions, fingers, segment),
        Err(NoMemory) => Err(Stop::NoMemory),
    }
}

fn steps_told(
    alloc: Global,
    drawing: &mut Drawing,
    regions: &mut Regions,
    fingers: &str,
    segment: &str,
) -> Result<String, Stop>
    requires { IsTableOf drawing.old.drawing regions.old }
{
    let segment = exit_of(segment)?;
    let mut followed = Followed {
        span: spot(regions, segment.side, segment.place),
        kept: true,
        fingers: 0,
    };
    let mut text = String::new(alloc);
    put_steps(&mut text, alloc, drawing, regions, fingers, &mut followed)?;
    write!(text, "; kept by {}", followed.fingers)?;
    Ok(text)
}

// Puts the counts of all fingers, and whether the table is as made anew after each.
fn put_steps(
    text: &mut String,
    alloc: Global,
    drawing: &mut Drawing,
    regions: &mut Regions,
    fingers: &str,
    followed: &mut Followed,
) -> Result<(), Stop>
    requires { IsTableOf drawing.old.drawing regions.old }
{
    let mut same = true;
    for word in fingers.split_whitespace() {
        let step = next_step(alloc, drawing, regions, &finger_of(word)?, followed)?;
        write!(text, "{} ", step.count)?;
        same = same && step.same;
    }
    if same {
        text.push_str(", as made anew")?;
    }
    Ok(())
}

// Pushes a finger, and compares.
fn next_step(
    alloc: Global,
    drawing: &mut Drawing,
    regions: &mut Regions,
    finger: &Finger,
    followed: &mut Followed,
) -> Result<Step, Stop>
    requires { IsTableOf drawing.old.drawing regions.old }
    ensures { OnOk result (IsTableOf drawing.new.drawing regions.new) }
{
    if drawing.points() > 1000 || !is_legal(drawing, finger) {
        return Err(Stop::NotRead);
    }
    let spots = spots_of(drawing, regions, finger);
    let mut before = Vec::new(alloc);
    before.extend_from_slice(regions.span_names())?;
    let count = push(drawing, regions, finger)?;
    let anew = Regions::of(alloc, drawing)?;
    follow(
        followed,
        is_kept(&before, anew.span_names(), spots, followed.span),
        spots,
    );
    let stay = names_stay(&before, regions.span_names(), anew.span_names(), spots);
    let same = stay && are_renamed(drawing, regions, &anew);
    Ok(Step { count, same })
}

// Pushes a legal finger, keeps the table and measures it, and answers how many pieces the finger changes or makes.
fn push(drawing: &mut Drawing, regions: &mut Regions, finger: &Finger) -> Result<u32, Stop>
    requires legal { IsLegal drawing.old.drawing finger.now }
    requires table { IsTableOf drawing.old.drawing regions.old }
    ensures table { OnOk result (IsTableOf drawing.new.drawing regions.new) }
    ensures fresh { OnOk result (IsFresh regions.new) }
{
    if drawing.points() > 1000 {
        return Err(Stop::NotRead);
    }
    drawing.reserve(1)?;
    regions.reserve(1)?;
    apply(drawing, finger);
    let count = regions.after_finger(drawing, finger);
    regions.measure();
    Ok(count)
}

// The number of a segment in the place order.
fn spot(regions: &Regions, side: SideNo, segment: u32) -> usize {
    match regions.side_starts().get(side.number() as usize) {
        Some(start) => (*start as usize).saturating_add(segment as usize),
        None => 0,
    }
}

// The spans into which a legal finger goes.
fn spots_of(drawing: &Drawing, regions: &Regions, finger: &Finger) -> Spots
    requires { IsLegal drawing.now.drawing finger.now }
{
    let beyond = drawing.points_on(finger.side) - finger.segment;
    Spots {
        entered: spot(regions, finger.side, finger.segment),
        beyond: spot(regions, drawing.polygon().pair(finger.side), beyond),
    }
}

// Follows a span through a finger.
fn follow(followed: &mut Followed, kept: bool, spots: Spots) {
    followed.span = spots.carried(followed.span);
    followed.kept = followed.kept && kept;
    if followed.kept {
        followed.fingers = followed.fingers.saturating_add(1);
    }
}
