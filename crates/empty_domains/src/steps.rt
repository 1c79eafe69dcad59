// The steps of all strips behind a generator's points.
ghost use Rattle.std.specs.Prelude.{◌≡◌, ℕ, ◌<◌, ◌++◌, List, length, map, slice_index, IfOk, OnOk};
ghost use Rattle.obd_base.specs.Lists.{below};
ghost use Rattle.page_surface.specs.Drawing.{IsEmbedded};
ghost use Rattle.page_surface.specs.Polygon.{arc_count, sides};
ghost use Rattle.drawing.specs.Points.{IsGenerator};
ghost use Rattle.empty_domains.specs.Strip.{all_strips};
ghost use Rattle.empty_domains.specs.Ground.{IsGround, IsStanding, all_strips_by, arc_strips_by, room_by, strip_by};

use crate::strip::{Corner, Step, strip};
use crate::tables::Tables;
use hkm_diagram::Diagram;
use obd_base::{ArcNo, NoMemory};
use page_surface::Polygon;
use smallvec::SmallVec;
use std::alloc::Global;

// No row began on any side.
fn clear(lasts: &mut [u32])
    ensures { lasts.new ≡ map (λ k. 0) (below (length lasts.old)) }
{
    for side in 0..lasts.len() {
        lasts[side] = 0;
    }
}

// Puts the steps of the strip behind a generator's number on a side last.
fn side_steps(
    tables: &Tables,
    standing: &[u32],
    arc: u32,
    side: u32,
    lasts: &mut [u32],
    steps: &mut Vec<Step>,
) -> Result<(), NoMemory>
    requires side { side < length tables.now.ends }
    requires standing { length standing.now ≡ length tables.now.ends }
    requires inside { slice_index standing.now side < length tables.now.other }
    requires lasts { length lasts.old ≡ length tables.now.ends }
    ensures steps { OnOk result (steps.new.items ≡ steps.old.items ++ strip_by tables.now standing.now arc (slice_index standing.now side) (length tables.now.other) (slice_index standing.now side) (room_by tables.now (slice_index standing.now side)) 0 (map (λ k. 0) (below (length tables.now.ends)))) }
    ensures size { length lasts.new ≡ length lasts.old }
{
    clear(lasts);
    let start = standing[side as usize];
    strip(tables, standing, Corner { arc, start }, lasts, steps)
}

// Puts the steps of the strips on both sides of an arc last.
fn arc_steps(
    diagram: &Diagram,
    polygon: &Polygon,
    tables: &Tables,
    standing: &[u32],
    arc: u32,
    lasts: &mut [u32],
    steps: &mut Vec<Step>,
) -> Result<(), NoMemory>
    requires valid { IsEmbedded diagram.now }
    requires polygon { polygon.now ≡ diagram.now.polygon }
    requires tables { IsGround diagram.now tables.now }
    requires arc { arc < arc_count diagram.now.polygon }
    requires standing { length standing.now ≡ length tables.now.ends }
    requires inside { (side : ℕ) → side < length tables.now.ends → slice_index standing.now side < length tables.now.other }
    requires lasts { length lasts.old ≡ length tables.now.ends }
    ensures steps { OnOk result (steps.new.items ≡ steps.old.items ++ arc_strips_by tables.now standing.now diagram.now (length tables.now.other) arc) }
    ensures size { length lasts.new ≡ length lasts.old }
{
    let first = polygon.first_side(ArcNo::new(arc));
    side_steps(tables, standing, arc, first.number(), lasts, steps)?;
    side_steps(
        tables,
        standing,
        arc,
        polygon.pair(first).number(),
        lasts,
        steps,
    )
}

// The steps of all strips.
pub(crate) fn all_steps(
    alloc: Global,
    diagram: &Diagram,
    polygon: &Polygon,
    tables: &Tables,
    standing: &[u32],
    lasts: &mut [u32],
) -> Result<Vec<Step>, NoMemory>
    requires valid { IsEmbedded diagram.now }
    requires polygon { polygon.now ≡ diagram.now.polygon }
    requires tables { IsGround diagram.now tables.now }
    requires standing { length standing.now ≡ length tables.now.ends }
    requires inside { (side : ℕ) → side < length tables.now.ends → slice_index standing.now side < length tables.now.other }
    requires lasts { length lasts.old ≡ length tables.now.ends }
    ensures { IfOk result (λ steps. steps.items ≡ all_strips_by tables.now standing.now diagram.now) }
{
    let mut steps = Vec::with_capacity(alloc, 2 * standing.len())?;
    for arc in 0..polygon.sides() / 2 {
        arc_steps(diagram, polygon, tables, standing, arc, lasts, &mut steps)?;
    }
    Ok(steps)
}

// The steps behind the points of a generator, by where it stands.
pub(crate) fn steps_from(
    alloc: Global,
    diagram: &Diagram,
    polygon: &Polygon,
    tables: &Tables,
    standing: &[u32],
) -> Result<Vec<Step>, NoMemory>
    requires valid { IsEmbedded diagram.now }
    requires polygon { polygon.now ≡ diagram.now.polygon }
    requires tables { IsGround diagram.now tables.now }
    requires standing { (y : List ℕ) × IsGenerator diagram.now y × IsStanding diagram.now y standing.now }
    ensures { (y : List ℕ) → IsGenerator diagram.now y → IsStanding diagram.now y standing.now → IfOk result (λ steps. steps.items ≡ all_strips diagram.now y) }
{
    let mut lasts: SmallVec<u32, 16> = SmallVec::from_elem(alloc, 0, standing.len())?;
    all_steps(alloc, diagram, polygon, tables, standing, &mut lasts)
}
