// What is told of the pieces of drawings.
ghost use Rattle.std.specs.Prelude.{◌<◌, ◌≡◌, false, length};
ghost use Rattle.page_surface.specs.Polygon.{sides};
ghost use Rattle.region_table.specs.Table.{HasDistances, IsFresh, IsTableOf, region};

use crate::drawings::read;
use crate::pages::polygon_of;
use crate::stop::Stop;
use drawing::Drawing;
use obd_base::{NoMemory, PieceNo, SideNo};
use region_table::Regions;
use std::alloc::Global;

/// The pieces of a drawing, `PAGE : EXITS`: side by side the pieces of the segments, each piece that isn't base with its
/// corners, badness and distance, the weight, and whether the drawing is nice.
pub(crate) fn regions_told(alloc: Global, given: &str) -> Result<String, Stop> {
    let Some((page, exits)) = given.split_once(" : ") else {
        return Err(Stop::NotRead);
    };
    let polygon = polygon_of(alloc, page)?;
    match read(alloc, &polygon, exits)? {
        Ok(drawing) => regions_of(alloc, &drawing),
        Err(_) => Err(Stop::NotRead),
    }
}

fn regions_of(alloc: Global, drawing: &Drawing) -> Result<String, Stop> {
    match Regions::of(alloc, drawing) {
        Ok(regions) => regions_on(alloc, drawing, &regions),
        Err(NoMemory) => Err(Stop::NoMemory),
    }
}

fn regions_on(alloc: Global, drawing: &Drawing, regions: &Regions) -> Result<String, Stop>
    requires table { IsTableOf drawing.now.drawing regions.now }
    requires distances { HasDistances drawing.now.drawing regions.now }
{
    // That a drawing has points says that it is embedded.
    let _ = drawing.points();
    let mut text = String::new(alloc);
    put_sides(&mut text, drawing, regions)?;
    put_inner(&mut text, drawing, regions)?;
    write!(text, "; weight {}", regions.weight())?;
    if regions.is_nice() {
        text.push_str(", nice")?;
    }
    Ok(text)
}

// Puts the pieces of the segments of all sides.
fn put_sides(text: &mut String, drawing: &Drawing, regions: &Regions) -> Result<(), Stop>
    requires table { IsTableOf drawing.now.drawing regions.now }
{
    for side in 0..drawing.polygon().sides() {
        if side > 0 {
            text.push_str("| ")?;
        }
        put_side(text, drawing, regions, SideNo::new(side))?;
    }
    Ok(())
}

// Puts the pieces of the segments of a side.
fn put_side(
    text: &mut String,
    drawing: &Drawing,
    regions: &Regions,
    side: SideNo,
) -> Result<(), Stop>
    requires table { IsTableOf drawing.now.drawing regions.now }
    requires side { side < sides drawing.now.drawing.polygon }
{
    for segment in 0..drawing.points_on(side) + 1 {
        write!(text, "{} ", regions.piece_at(side, segment).number())?;
    }
    Ok(())
}

// Puts the pieces that aren't base.
fn put_inner(text: &mut String, drawing: &Drawing, regions: &Regions) -> Result<(), Stop>
    requires table { IsTableOf drawing.now.drawing regions.now }
    requires distances { HasDistances drawing.now.drawing regions.now }
{
    let _ = drawing.points();
    for piece in regions.inner() {
        put_piece(text, regions, *piece)?;
    }
    Ok(())
}

// Puts a piece that isn't base.
fn put_piece(text: &mut String, regions: &Regions, piece: PieceNo) -> Result<(), Stop>
    requires piece { piece < length regions.now.regions }
    requires inner { (region regions.now piece).base ≡ false }
    requires fresh { IsFresh regions.now }
{
    let number = piece.number();
    let corners = regions.corners(piece);
    let badness = regions.badness(piece);
    let distance = regions.distance(piece);
    write!(
        text,
        "; {number} has {corners} corners, badness {badness}, distance {distance}"
    )?;
    Ok(())
}
