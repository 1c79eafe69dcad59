// The test of a step: the generator to which it leads by a domain.
ghost use Rattle.std.specs.Prelude.{◌≡◌, ℕ, ◌+◌, ◌<◌, ◌^◌, false, true, length, slice_index, slice_index_or, suc, IfOk, OnOk};
ghost use Rattle.obd_base.specs.Lists.{Mem};
ghost use Rattle.page_surface.specs.Drawing.{IsEmbedded};
ghost use Rattle.page_surface.specs.Polygon.{arc_count};
ghost use Rattle.drawing.specs.Layout.{offsets_of};
ghost use Rattle.drawing.specs.Pieces.{piece_table, span_count};
ghost use Rattle.drawing.specs.Points.{IsGenerator, generators as all_generators};
ghost use Rattle.drawing.specs.Round.{point_of};
ghost use Rattle.empty_domains.specs.Ground.{IsGround, IsSpot, IsStanding};
ghost use Rattle.empty_domains.specs.Led.{IsLed};
ghost use Rattle.empty_domains.specs.Marks.{AreMarked};
ghost use Rattle.empty_domains.specs.NearTest.{IsCollected, swept};
ghost use Rattle.empty_domains.specs.Strip.{all_strips, is_fresh};
ghost use Rattle.empty_domains.specs.Sweep.{starts as rows_of};
ghost use Rattle.empty_domains.specs.Walk.{target};
ghost use Rattle.region_table.specs.Nice.{IsNice};

use crate::collect::{bigons, collect, unmark};
use crate::drawing_tables::points_on;
use crate::generator_sides::moved_standing;
use crate::rules::keeps_near;
use crate::starts::{is_fresh, row_starts};
use crate::strip::Step;
use crate::tables::Tables;
use generator_list::Generators;
use hkm_diagram::Diagram;
use obd_base::{GenNo, NoMemory, SideNo};
use page_surface::Polygon;
use smallvec::SmallVec;
use std::alloc::Global;

// The number of a point on its arc.
fn point_at(diagram: &Diagram, polygon: &Polygon, tables: &Tables, starts: &[u32], at: u32) -> u32
    requires valid { IsEmbedded diagram.now }
    requires polygon { polygon.now ≡ diagram.now.polygon }
    requires tables { IsGround diagram.now tables.now }
    requires starts { starts.now ≡ offsets_of diagram.now }
    requires spot { IsSpot diagram.now at }
    ensures { result ≡ point_of diagram.now at }
{
    let side = tables.side(at);
    let place = at - starts[side as usize];
    let points = points_on(diagram, starts, side);
    let first = polygon.first_side(polygon.arc(SideNo::new(side)));
    if first.number() == side {
        return place;
    }
    if place < points {
        points - 1 - place
    } else {
        place
    }
}

// Moves a generator's points to those to which a step leads: the far ends of its edges on arcs stand for its points there.
fn move_points(
    diagram: &Diagram,
    polygon: &Polygon,
    tables: &Tables,
    starts: &[u32],
    step: Step,
    x: &mut [u32],
)
    requires valid { IsEmbedded diagram.now }
    requires polygon { polygon.now ≡ diagram.now.polygon }
    requires tables { IsGround diagram.now tables.now }
    requires starts { starts.now ≡ offsets_of diagram.now }
    requires points { length x.old ≡ arc_count diagram.now.polygon }
    requires first { step.by.first < arc_count diagram.now.polygon }
    requires second { step.by.second < arc_count diagram.now.polygon }
    requires start { IsSpot diagram.now (step.by.start + step.by.width) }
    requires stop { IsSpot diagram.now (step.by.stop + step.by.width) }
    requires few { span_count diagram.now < 2 ^ 30 }
    ensures points { x.new ≡ target diagram.now x.old step.by }
    ensures size { length x.new ≡ length x.old }
{
    x[step.arc as usize] = point_at(diagram, polygon, tables, starts, step.start + step.width);
    x[step.second as usize] = point_at(diagram, polygon, tables, starts, step.stop + step.width);
}

// The points to which a step leads.
fn led_points(
    alloc: Global,
    diagram: &Diagram,
    polygon: &Polygon,
    tables: &Tables,
    starts: &[u32],
    y: &[u32],
    step: Step,
) -> Result<SmallVec<u32, 8>, NoMemory>
    requires valid { IsEmbedded diagram.now }
    requires polygon { polygon.now ≡ diagram.now.polygon }
    requires tables { IsGround diagram.now tables.now }
    requires starts { starts.now ≡ offsets_of diagram.now }
    requires y { length y.now ≡ arc_count diagram.now.polygon }
    requires first { step.by.first < arc_count diagram.now.polygon }
    requires second { step.by.second < arc_count diagram.now.polygon }
    requires start { IsSpot diagram.now (step.by.start + step.by.width) }
    requires stop { IsSpot diagram.now (step.by.stop + step.by.width) }
    requires few { span_count diagram.now < 2 ^ 30 }
    ensures { IfOk result (λ x. x.items ≡ target diagram.now y.now step.by) }
{
    let mut x = SmallVec::from_slice(alloc, y)?;
    move_points(diagram, polygon, tables, starts, step, &mut x);
    Ok(x)
}

// The generator to which a fresh step leads by the pieces along its rows, which are marked.
fn led_to(
    alloc: Global,
    diagram: &Diagram,
    polygon: &Polygon,
    tables: &Tables,
    starts: &[u32],
    pieces: &[u32],
    generators: &Generators,
    y: &[u32],
    from: &[u32],
    step: Step,
    rows: &[u32],
    marks: &[bool],
    found: &[u32],
) -> Result<Option<GenNo>, NoMemory>
    requires valid { IsEmbedded diagram.now }
    requires nice { IsNice diagram.now }
    requires polygon { polygon.now ≡ diagram.now.polygon }
    requires tables { IsGround diagram.now tables.now }
    requires starts { starts.now ≡ offsets_of diagram.now }
    requires pieces { pieces.now ≡ piece_table diagram.now }
    requires generators { generators.now ≡ all_generators diagram.now }
    requires y { IsGenerator diagram.now y.now }
    requires from { IsStanding diagram.now y.now from.now }
    requires read { Mem step (all_strips diagram.now y.now) }
    requires fresh { is_fresh diagram.now step ≡ true }
    requires rows { rows.now ≡ rows_of (λ x. slice_index tables.now.other x) (λ x. slice_index tables.now.opposite x) step.by.start (suc step.steps) }
    requires found { AreMarked pieces.now (swept diagram.now step.by) found.now marks.now }
    requires few { span_count diagram.now < 2 ^ 30 }
    requires marks { length marks.now ≡ span_count diagram.now }
    ensures { IfOk result (λ to. IsLed diagram.now y.now generators.now step to) }
{
    let x = led_points(alloc, diagram, polygon, tables, starts, y, step)?;
    let Some(number) = generators.find(&x) else {
        return Ok(None);
    };
    let wanted = if step.arc == step.second { 1 } else { 0 };
    if bigons(&tables.other, found) != wanted {
        return Ok(None);
    }
    let to = moved_standing(alloc, diagram, polygon, tables, starts, &x, step, from)?;
    if keeps_near(
        diagram, polygon, tables, pieces, marks, from, &to, step.start, rows, step.width,
    ) {
        Ok(Some(number))
    } else {
        Ok(None)
    }
}

// The test of a step: the generator to which it leads by a domain, and none where an earlier row of it is the last or
// its pieces are no domain. What is found is left in `found`, and no piece is marked before and after. Linear in the
// pieces along its rows, besides 16 sides and the search for a generator.
pub(crate) fn verify(
    alloc: Global,
    diagram: &Diagram,
    polygon: &Polygon,
    tables: &Tables,
    starts: &[u32],
    pieces: &[u32],
    generators: &Generators,
    y: &[u32],
    from: &[u32],
    step: Step,
    rows: &mut Vec<u32>,
    marks: &mut [bool],
    found: &mut Vec<u32>,
) -> Result<Option<GenNo>, NoMemory>
    requires valid { IsEmbedded diagram.now }
    requires nice { IsNice diagram.now }
    requires polygon { polygon.now ≡ diagram.now.polygon }
    requires tables { IsGround diagram.now tables.now }
    requires starts { starts.now ≡ offsets_of diagram.now }
    requires pieces { pieces.now ≡ piece_table diagram.now }
    requires generators { generators.now ≡ all_generators diagram.now }
    requires y { IsGenerator diagram.now y.now }
    requires from { IsStanding diagram.now y.now from.now }
    requires read { Mem step (all_strips diagram.now y.now) }
    requires few { span_count diagram.now < 2 ^ 30 }
    requires marks { length marks.old ≡ span_count diagram.now }
    requires unmarked { (piece : ℕ) → slice_index_or marks.old piece false ≡ false }
    ensures led { IfOk result (λ to. IsLed diagram.now y.now generators.now step to) }
    ensures found { OnOk result (is_fresh diagram.now step ≡ true → IsCollected pieces.now (swept diagram.now step.by) found.new.items) }
    ensures size { length marks.new ≡ length marks.old }
    ensures unmarked { OnOk result ((piece : ℕ) → slice_index_or marks.new piece false ≡ false) }
{
    row_starts(tables, step.start, step.row + 1, rows)?;
    if !is_fresh(tables, step, rows) {
        return Ok(None);
    }
    found.clear();
    collect(pieces, rows, step.width, marks, found)?;
    let led = led_to(
        alloc, diagram, polygon, tables, starts, pieces, generators, y, from, step, rows, marks,
        found,
    )?;
    unmark(found, marks);
    Ok(led)
}
