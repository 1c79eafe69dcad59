// Where a generator stands: the number of its point on each side.
ghost use Rattle.std.specs.Prelude.{◌≡◌, ◌<◌, ◌^◌, map, IfOk, IfSome};
ghost use Rattle.obd_base.specs.Lists.{below};
ghost use Rattle.page_surface.specs.Polygon.{sides};
ghost use Rattle.page_surface.specs.Drawing.{IsEmbedded};
ghost use Rattle.drawing.specs.Layout.{offsets_of};
ghost use Rattle.drawing.specs.Pieces.{span_count};
ghost use Rattle.drawing.specs.Points.{IsGenerator};
ghost use Rattle.empty_domains.specs.Ground.{IsGround, IsStanding, KeepsOthers};
ghost use Rattle.empty_domains.specs.Strip.{stand};

use crate::drawing_tables::points_on;
use crate::strip::Step;
use crate::tables::Tables;
use hkm_diagram::Diagram;
use obd_base::{NoMemory, SideNo};
use page_surface::Polygon;
use smallvec::SmallVec;
use std::alloc::Global;

// The number of the generator's point on a side.
fn stand(diagram: &Diagram, polygon: &Polygon, starts: &[u32], points: &[u32], side: u32) -> u32
    requires valid { IsEmbedded diagram.now }
    requires polygon { polygon.now ≡ diagram.now.polygon }
    requires starts { starts.now ≡ offsets_of diagram.now }
    requires points { IsGenerator diagram.now points.now }
    requires side { side < sides diagram.now.polygon }
    requires few { span_count diagram.now < 2 ^ 30 }
    ensures { result ≡ stand diagram.now points.now side }
{
    let arc = polygon.arc(SideNo::new(side));
    let point = points[arc.number() as usize];
    let count = points_on(diagram, starts, side);
    let start = starts[side as usize];
    if polygon.first_side(arc).number() == side {
        return start + point;
    }
    if point < count {
        start + (count - 1 - point)
    } else {
        start + count
    }
}

// The number of the generator's point on each side. Linear in the sides, of which there are at most 16.
pub(crate) fn standing(
    alloc: Global,
    diagram: &Diagram,
    polygon: &Polygon,
    starts: &[u32],
    points: &[u32],
) -> Result<SmallVec<u32, 16>, NoMemory>
    requires valid { IsEmbedded diagram.now }
    requires polygon { polygon.now ≡ diagram.now.polygon }
    requires starts { starts.now ≡ offsets_of diagram.now }
    requires points { IsGenerator diagram.now points.now }
    requires few { span_count diagram.now < 2 ^ 30 }
    ensures { IfOk result (λ standing. IsStanding diagram.now points.now standing.items) }
{
    let mut standing = SmallVec::new(alloc);
    for side in 0..polygon.sides() {
        standing.push(stand(diagram, polygon, starts, points, side))?;
    }
    Ok(standing)
}

// The number of the generator's point on a side, where that on each side of other arcs than two is known.
fn moved_stand(
    diagram: &Diagram,
    polygon: &Polygon,
    tables: &Tables,
    starts: &[u32],
    points: &[u32],
    step: Step,
    from: &[u32],
    side: u32,
) -> u32
    requires valid { IsEmbedded diagram.now }
    requires polygon { polygon.now ≡ diagram.now.polygon }
    requires tables { IsGround diagram.now tables.now }
    requires starts { starts.now ≡ offsets_of diagram.now }
    requires points { IsGenerator diagram.now points.now }
    requires from { KeepsOthers diagram.now points.now step.by from.now }
    requires side { side < sides diagram.now.polygon }
    requires few { span_count diagram.now < 2 ^ 30 }
    ensures { result ≡ stand diagram.now points.now side }
{
    let arc = tables.arc(side);
    if arc == step.arc {
        return stand(diagram, polygon, starts, points, side);
    }
    if arc == step.second {
        return stand(diagram, polygon, starts, points, side);
    }
    from[side as usize]
}

// The number of the point on each side of a generator to which a step leads, where those of the step's own are known.
pub(crate) fn moved_standing(
    alloc: Global,
    diagram: &Diagram,
    polygon: &Polygon,
    tables: &Tables,
    starts: &[u32],
    points: &[u32],
    step: Step,
    from: &[u32],
) -> Result<SmallVec<u32, 16>, NoMemory>
    requires valid { IsEmbedded diagram.now }
    requires polygon { polygon.now ≡ diagram.now.polygon }
    requires tables { IsGround diagram.now tables.now }
    requires starts { starts.now ≡ offsets_of diagram.now }
    requires points { IsGenerator diagram.now points.now }
    requires from { KeepsOthers diagram.now points.now step.by from.now }
    requires few { span_count diagram.now < 2 ^ 30 }
    ensures { IfOk result (λ standing. IsStanding diagram.now points.now standing.items) }
{
    let mut standing = SmallVec::new(alloc);
    for side in 0..polygon.sides() {
        let number = moved_stand(diagram, polygon, tables, starts, points, step, from, side);
        standing.push(number)?;
    }
    Ok(standing)
}
