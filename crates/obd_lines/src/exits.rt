// Exits, written shortly.
ghost use Rattle.std.specs.Prelude.{◌≡◌, true, map, nat_lt, IfOk, IsTrue};
ghost use Rattle.std.specs.List.{flat_map, list_all};
ghost use Rattle.page_surface.specs.Polygon.{sides};

use crate::stop::Stop;
use obd_base::{Exit, SideNo};
use page_surface::Polygon;
use std::alloc::{AllocError, Global};

/// An exit: `3.0` is one by side 3 at place 0.
pub(crate) fn exit_of(text: &str) -> Result<Exit, Stop> {
    let Some((side, place)) = text.split_once('.') else {
        return Err(Stop::NotRead);
    };
    let Ok(side) = side.parse::<u32>() else {
        return Err(Stop::NotRead);
    };
    let Ok(place) = place.parse::<u32>() else {
        return Err(Stop::NotRead);
    };
    Ok(Exit {
        side: SideNo::new(side),
        place,
    })
}

// The exits of one strand.
fn strand_of(alloc: Global, text: &str) -> Result<Vec<Exit>, Stop> {
    let mut strand = Vec::new(alloc);
    for word in text.split_whitespace() {
        strand.push(exit_of(word)?)?;
    }
    Ok(strand)
}

/// The exits of each strand, with `|` between strands.
pub(crate) fn strands_of(alloc: Global, text: &str) -> Result<Vec<Vec<Exit>>, Stop> {
    let mut strands = Vec::new(alloc);
    for strand in text.split('|') {
        strands.push(strand_of(alloc, strand)?)?;
    }
    Ok(strands)
}

/// The exits of all strands.
pub(crate) fn joined(alloc: Global, strands: &[Vec<Exit>]) -> Result<Vec<Exit>, AllocError>
    ensures { IfOk result (λ exits. exits.items ≡ flat_map (λ strand. strand) (map (λ s. s.items) strands.now)) }
{
    let mut exits = Vec::new(alloc);
    for strand in strands {
        exits.extend_from_slice(strand)?;
    }
    Ok(exits)
}

/// The exits are by sides of the polygon.
pub(crate) fn are_on_sides(polygon: &Polygon, exits: &[Exit]) -> bool
    ensures { IsTrue result → list_all (λ e. nat_lt e.side (sides polygon.now)) exits.now ≡ true }
{
    for exit in exits {
        if exit.side.number() >= polygon.sides() {
            return false;
        }
    }
    true
}

/// Puts exits, each with a space behind it.
pub(crate) fn put_exits(text: &mut String, exits: &[Exit]) -> Result<(), AllocError> {
    for exit in exits {
        write!(text, "{}.{} ", exit.side.number(), exit.place)?;
    }
    Ok(())
}
