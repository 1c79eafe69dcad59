// A part of a curve as a list of exits by itself.
ghost use Rattle.std.specs.Prelude.{◌≡◌, ◌<◌, ◌≤◌, length, IfOk};
ghost use Rattle.page_surface.specs.Polygon.{IsPolygon, sides};
ghost use Rattle.curve_paths.specs.Curves.{IsCurve, curve_points};
ghost use Rattle.tight_curves.specs.Parts.{IsPart, part_exits, place_among};

use crate::turns::points_on;
use obd_base::{Exit, NoMemory};
use page_surface::Polygon;
use std::alloc::Global;

// How many points of a part stand before the point by which an exit leaves. Linear in the exits.
fn place_in(polygon: &Polygon, exits: &[Exit], part: &[Exit], at: Exit) -> u32
    requires valid { IsPolygon polygon.now }
    requires curve { IsCurve polygon.now exits.now }
    requires few { length exits.now ≤ 32 }
    requires part { IsPart polygon.now exits.now part.now }
    requires fewer { length part.now ≤ 32 }
    requires side { at.side < sides polygon.now }
    requires place { at.place < curve_points polygon.now exits.now at.side }
    ensures { result ≡ place_among polygon.now exits.now part.now at.side at.place }
{
    let partner = polygon.pair(at.side);
    let across = points_on(polygon, exits, at.side) - 1 - at.place;
    let mut count = 0;
    for exit in part {
        if (exit.side == at.side && exit.place < at.place)
            || (exit.side == partner && across < exit.place)
        {
            count += 1;
        }
    }
    count
}

// The exits of a part with their places among its own points. In no more steps than the square of the exits.
pub(crate) fn placed_anew(
    alloc: Global,
    polygon: &Polygon,
    exits: &[Exit],
    part: &[Exit],
) -> Result<Vec<Exit>, NoMemory>
    requires valid { IsPolygon polygon.now }
    requires curve { IsCurve polygon.now exits.now }
    requires few { length exits.now ≤ 32 }
    requires fewer { length part.now ≤ 32 }
    requires part { IsPart polygon.now exits.now part.now }
    ensures { IfOk result (λ placed. placed.items ≡ part_exits polygon.now exits.now part.now) }
{
    let mut placed = Vec::new(alloc);
    for exit in part {
        let place = place_in(polygon, exits, part, *exit);
        placed.push(Exit {
            side: exit.side,
            place,
        })?;
    }
    Ok(placed)
}
