// How many points the sides have, and where the sides begin in the merged order.
ghost use Rattle.std.specs.Prelude.{◌≡◌, ℕ, suc, ◌+◌, ◌<◌, ◌≤◌, map, length, slice_index_or, All, IfOk};
ghost use Rattle.std.specs.List.{sum_by};
ghost use Rattle.obd_base.specs.Lists.{below};
ghost use Rattle.page_surface.specs.Drawing.{points_on};
ghost use Rattle.page_surface.specs.Polygon.{sides};
ghost use Rattle.curve_paths.specs.Curves.{curve_points};

use drawing::Drawing;
use obd_base::{Exit, Items, NoMemory, SideNo, StrandNo};
use page_surface::Polygon;
use std::alloc::Global;

// The exits of each strand.
pub(crate) fn strand_rows(alloc: Global, drawing: &Drawing) -> Result<Vec<Items<Exit>>, NoMemory>
    ensures { IfOk result (λ rows. rows.items ≡ drawing.now.drawing.strands) }
{
    let mut rows = Vec::new(alloc);
    for strand in 0..drawing.polygon().sides() / 2 {
        rows.push(Items::from_vec(drawing.exits(StrandNo::new(strand))?))?;
    }
    let _ = drawing.points();
    Ok(rows)
}

// How many points of strands each side has.
pub(crate) fn point_counts(alloc: Global, drawing: &Drawing) -> Result<Vec<u32>, NoMemory>
    ensures { IfOk result (λ points. points.items ≡ map (points_on drawing.now.drawing) (below (sides drawing.now.drawing.polygon))) }
{
    let mut points = Vec::new(alloc);
    for side in 0..drawing.polygon().sides() {
        points.push(drawing.points_on(SideNo::new(side)))?;
    }
    Ok(points)
}

// How many points the curve has on a side.
fn curve_points_on(polygon: &Polygon, exits: &[Exit], side: SideNo) -> u32
    requires in_range { All (λ e. e.side < sides polygon.now) exits.now }
    requires few { length exits.now ≤ 32 }
    ensures { result ≡ curve_points polygon.now exits.now side }
{
    let mut count = 0;
    for exit in exits {
        if exit.side == side {
            count += 1;
        }
        if polygon.pair(exit.side) == side {
            count += 1;
        }
    }
    count
}

// How many points of the curve each side has.
pub(crate) fn curve_counts(
    alloc: Global,
    polygon: &Polygon,
    exits: &[Exit],
) -> Result<Vec<u32>, NoMemory>
    requires in_range { All (λ e. e.side < sides polygon.now) exits.now }
    requires few { length exits.now ≤ 32 }
    ensures { IfOk result (λ counts. counts.items ≡ map (curve_points polygon.now exits.now) (below (sides polygon.now))) }
{
    let mut counts = Vec::new(alloc);
    for side in 0..polygon.sides() {
        counts.push(curve_points_on(polygon, exits, SideNo::new(side)))?;
    }
    Ok(counts)
}

// Where each side begins, and where the last one ends: a side takes two numbers more than it has points.
pub(crate) fn starts(alloc: Global, points: &[u32], counts: &[u32]) -> Result<Vec<u32>, NoMemory>
    requires same { length counts.now ≡ length points.now }
    requires few { length points.now ≤ 16 }
    requires each { (k : ℕ) → k < length points.now → slice_index_or counts.now k 0 + slice_index_or points.now k 0 ≤ 8064 }
    ensures { IfOk result (λ starts. starts.items
        ≡ map (λ k. sum_by (λ i. slice_index_or counts.now i 0 + slice_index_or points.now i 0 + 2) (below k)) (below (suc (length points.now)))) }
{
    let mut starts = Vec::new(alloc);
    let mut start: u32 = 0;
    starts.push(start)?;
    for side in 0..points.len() {
        start += counts[side] + points[side] + 2;
        starts.push(start)?;
    }
    Ok(starts)
}
