// The tables of a drawing, made from its polygon and the table of its regions.
ghost use Rattle.std.specs.Prelude.{◌≡◌, ℕ, ◌+◌, ◌<◌, ◌≤◌, ◌^◌, length, map, slice_index, suc, IfOk};
ghost use Rattle.obd_base.specs.Lists.{below};
ghost use Rattle.page_surface.specs.Drawing.{IsEmbedded, chords, offset, points_on};
ghost use Rattle.page_surface.specs.Polygon.{arc, sides};
ghost use Rattle.drawing.specs.Layout.{offsets_of};
ghost use Rattle.drawing.specs.Pieces.{span_count, spans};
ghost use Rattle.drawing.specs.Round.{opposite, other_end, side_of};
ghost use Rattle.empty_domains.specs.Ground.{IsGround};
ghost use Rattle.empty_domains.specs.Kept.{IsRuns};
ghost use Rattle.empty_domains.specs.Strip.{run as run_of, runs_on};
ghost use Rattle.region_table.specs.Table.{IsTableOf};

use crate::tables::Tables;
use hkm_diagram::Diagram;
use obd_base::{NoMemory, PieceNo, SideNo};
use page_surface::Polygon;
use region_table::Regions;
use std::alloc::Global;

// How many points a side has.
pub(crate) fn points_on(diagram: &Diagram, starts: &[u32], side: u32) -> u32
    requires starts { starts.now ≡ offsets_of diagram.now }
    requires side { side < sides diagram.now.polygon }
    ensures { result ≡ points_on diagram.now side }
{
    starts[side as usize + 1] - starts[side as usize] - 2
}

// The side of a number of the place order. There are at most 16 sides.
fn side_at(diagram: &Diagram, starts: &[u32], at: u32) -> u32
    requires starts { starts.now ≡ offsets_of diagram.now }
    requires at { at < span_count diagram.now }
    requires few { sides diagram.now.polygon ≤ 16 }
    ensures { result ≡ side_of diagram.now at }
{
    let mut side: u32 = 0;
    while starts[side as usize + 1] <= at {
        side += 1;
    }
    side
}

// The side of each number.
fn sides_of(
    alloc: Global,
    diagram: &Diagram,
    starts: &[u32],
    count: u32,
) -> Result<Vec<u32>, NoMemory>
    requires starts { starts.now ≡ offsets_of diagram.now }
    requires count { count ≡ span_count diagram.now }
    requires few { sides diagram.now.polygon ≤ 16 }
    ensures { IfOk result (λ side. side.items ≡ map (side_of diagram.now) (below count)) }
{
    let mut side = Vec::new(alloc);
    for at in 0..count {
        side.push(side_at(diagram, starts, at))?;
    }
    Ok(side)
}

// The other name of a number on a side.
fn opposite_at(diagram: &Diagram, polygon: &Polygon, starts: &[u32], side: u32, at: u32) -> u32
    requires valid { IsEmbedded diagram.now }
    requires polygon { polygon.now ≡ diagram.now.polygon }
    requires starts { starts.now ≡ offsets_of diagram.now }
    requires at { at < span_count diagram.now }
    requires side { side ≡ side_of diagram.now at }
    requires few { span_count diagram.now < 2 ^ 30 }
    ensures value { result ≡ opposite diagram.now at }
    ensures inside { result < span_count diagram.now }
{
    let place = at - starts[side as usize];
    let points = points_on(diagram, starts, side);
    let partner = starts[polygon.pair(SideNo::new(side)).number() as usize];
    if place < points {
        partner + (points - 1 - place)
    } else {
        partner + points
    }
}

// The other name of each number.
fn opposites(
    alloc: Global,
    diagram: &Diagram,
    polygon: &Polygon,
    starts: &[u32],
    side: &[u32],
) -> Result<Vec<u32>, NoMemory>
    requires valid { IsEmbedded diagram.now }
    requires polygon { polygon.now ≡ diagram.now.polygon }
    requires starts { starts.now ≡ offsets_of diagram.now }
    requires side { side.now ≡ map (side_of diagram.now) (spans diagram.now) }
    requires few { span_count diagram.now < 2 ^ 30 }
    ensures { IfOk result (λ found. found.items ≡ map (opposite diagram.now) (below (length side.now))) }
{
    let mut found = Vec::new(alloc);
    for at in 0..side.len() {
        found.push(opposite_at(diagram, polygon, starts, side[at], at as u32))?;
    }
    Ok(found)
}

// The number of the end of each side.
fn side_ends(
    alloc: Global,
    diagram: &Diagram,
    starts: &[u32],
    count: u32,
) -> Result<Vec<u32>, NoMemory>
    requires starts { starts.now ≡ offsets_of diagram.now }
    requires count { count ≡ sides diagram.now.polygon }
    ensures { IfOk result (λ ends. ends.items ≡ map (λ k. offset diagram.now k + points_on diagram.now k) (below count)) }
{
    let mut ends = Vec::new(alloc);
    for side in 0..count {
        ends.push(starts[side as usize + 1] - 2)?;
    }
    Ok(ends)
}

// The arc of each side.
fn side_arcs(alloc: Global, polygon: &Polygon) -> Result<Vec<u32>, NoMemory>
    ensures { IfOk result (λ arcs. arcs.items ≡ map (arc polygon.now) (below (sides polygon.now))) }
{
    let mut arcs = Vec::new(alloc);
    for side in 0..polygon.sides() {
        arcs.push(polygon.arc(SideNo::new(side)).number())?;
    }
    Ok(arcs)
}

// Whether rows run on at a crossing point: the piece behind it isn't base, and the chords on both sides of it run side
// by side.
fn runs_on(diagram: &Diagram, regions: &Regions, at: u32) -> bool
    requires table { IsTableOf diagram.now regions.now }
    requires at { suc at < span_count diagram.now }
    requires few { span_count diagram.now < 2 ^ 30 }
    ensures { result ≡ runs_on diagram.now at 0 }
{
    let next = at as usize + 1;
    let other = regions.other_ends();
    !regions.is_base(PieceNo::new(regions.span_names()[next]))
        && other[next] as u64 + 1 == other[at as usize] as u64
}

// How far rows run on from a number, where that is known of all later numbers.
fn run_at(
    diagram: &Diagram,
    regions: &Regions,
    side: &[u32],
    ends: &[u32],
    run: &[u32],
    at: u32,
) -> u32
    requires valid { IsEmbedded diagram.now }
    requires table { IsTableOf diagram.now regions.now }
    requires few { span_count diagram.now < 2 ^ 30 }
    requires side { side.now ≡ map (side_of diagram.now) (spans diagram.now) }
    requires ends { ends.now ≡ map (λ k. offset diagram.now k + points_on diagram.now k) (below (sides diagram.now.polygon)) }
    requires at { at < span_count diagram.now }
    requires later { IsRuns diagram.now (suc at) run.now }
    ensures value { result ≡ run_of diagram.now at }
    ensures most { result + at ≤ span_count diagram.now }
{
    let end = ends[side[at as usize] as usize];
    if at >= end {
        return 0;
    }
    if !runs_on(diagram, regions, at) {
        return 0;
    }
    run[at as usize + 1] + 1
}

// How far rows run on from each number, from right to left.
fn runs(
    alloc: Global,
    diagram: &Diagram,
    regions: &Regions,
    side: &[u32],
    ends: &[u32],
) -> Result<Vec<u32>, NoMemory>
    requires valid { IsEmbedded diagram.now }
    requires table { IsTableOf diagram.now regions.now }
    requires few { span_count diagram.now < 2 ^ 30 }
    requires side { side.now ≡ map (side_of diagram.now) (spans diagram.now) }
    requires ends { ends.now ≡ map (λ k. offset diagram.now k + points_on diagram.now k) (below (sides diagram.now.polygon)) }
    ensures { IfOk result (λ run. IsRuns diagram.now 0 run.items) }
{
    let mut run = vec![in alloc; 0u32; side.len()]?;
    let mut at = side.len();
    while at > 0 {
        at -= 1;
        let value = run_at(diagram, regions, side, ends, &run, at as u32);
        run[at] = value;
    }
    Ok(run)
}

// The tables of a drawing. Linear in the points, and a few steps more for each side at each point.
pub(crate) fn drawing_tables(
    alloc: Global,
    diagram: &Diagram,
    regions: &Regions,
) -> Result<Tables, NoMemory>
    requires table { IsTableOf diagram.now regions.now }
    ensures { IfOk result (λ tables. IsGround diagram.now tables) }
{
    let _ = diagram.drawing().points();
    let polygon = diagram.drawing().polygon();
    let sides = polygon.sides();
    let starts = regions.side_starts();
    let count = regions.other_ends().len() as u32;
    let side = sides_of(alloc, diagram, starts, count)?;
    let ends = side_ends(alloc, diagram, starts, sides)?;
    let run = runs(alloc, diagram, regions, &side, &ends)?;
    let opposite = opposites(alloc, diagram, polygon, starts, &side)?;
    Ok(Tables {
        other: Vec::from_slice(alloc, regions.other_ends())?,
        opposite,
        side,
        run,
        ends,
        arcs: side_arcs(alloc, polygon)?,
    })
}
