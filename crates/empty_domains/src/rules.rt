// The rules of domains near the rows of a step.
ghost use Rattle.std.specs.Prelude.{◌≡◌, ℕ, ◌+◌, ◌<◌, ◌≤◌, ◌&&◌, ◌^◌, cond, length, nat_eq, slice_index, suc};
ghost use Rattle.obd_base.specs.Lists.{Mem};
ghost use Rattle.page_surface.specs.Drawing.{IsEmbedded};
ghost use Rattle.page_surface.specs.Polygon.{arc_count};
ghost use Rattle.hkm_diagram.specs.Domains.{rule_at};
ghost use Rattle.empty_domains.specs.Ground.{IsSpot, spot_rule_by};
ghost use Rattle.empty_domains.specs.Marks.{AreNear, arc_rule_by, arcs_rule_by, edge_rule_by, edges_rule_by, far_edges_rule_by, marked_by};

use crate::tables::Tables;
use hkm_diagram::Diagram;
use obd_base::ArcNo;
use page_surface::Polygon;

// The rule at a point by what stands there, and how many quadrants lead out of it and into it.
fn keeps_rule(from: bool, to: bool, out: u32, into: u32) -> bool
    ensures { result ≡ rule_at from to out into }
{
    match (from, to) {
        (true, false) => out == 1 && into == 0,
        (false, true) => out == 0 && into == 1,
        (true, true) => out == 0 && into == 0,
        (false, false) => out == into,
    }
}

// 1 for a span whose piece is marked.
fn mark(pieces: &[u32], marks: &[bool], span: u32) -> u32
    requires span { span < length pieces.now }
    requires marks { slice_index pieces.now span < length marks.now }
    ensures value { result ≡ cond (marked_by pieces.now marks.now span) 1 0 }
    ensures most { result ≤ 1 }
{
    if marks[pieces[span as usize] as usize] {
        1
    } else {
        0
    }
}

// Whether the rule holds at a point, by where both generators stand on its side and by the marks before and after it.
fn point_keeps(
    tables: &Tables,
    pieces: &[u32],
    marks: &[bool],
    from: u32,
    to: u32,
    at: u32,
    before: u32,
    after: u32,
) -> bool
    requires at { at < length tables.now.other }
    requires name { suc (slice_index tables.now.opposite at) < length pieces.now }
    requires marks { (s : ℕ) → slice_index pieces.now s < length marks.now }
    requires few { length pieces.now < 2 ^ 30 }
    requires before { before ≤ 1 }
    requires after { after ≤ 1 }
    ensures { result ≡ rule_at (nat_eq from at) (nat_eq to at) (after + cond (marked_by pieces.now marks.now (suc (slice_index tables.now.opposite at))) 1 0) (before + cond (marked_by pieces.now marks.now (slice_index tables.now.opposite at)) 1 0) }
{
    let name = tables.opposite(at);
    let out = after + mark(pieces, marks, name + 1);
    let into = before + mark(pieces, marks, name);
    keeps_rule(from == at, to == at, out, into)
}

// Whether it holds at a point.
fn spot_keeps(
    diagram: &Diagram,
    tables: &Tables,
    pieces: &[u32],
    marks: &[bool],
    from: &[u32],
    to: &[u32],
    at: u32,
) -> bool
    requires valid { IsEmbedded diagram.now }
    requires near { AreNear diagram.now tables.now pieces.now marks.now from.now to.now }
    requires spot { IsSpot diagram.now at }
    ensures { result ≡ spot_rule_by tables.now from.now to.now (marked_by pieces.now marks.now) at }
{
    let side = tables.side(at) as usize;
    let before = mark(pieces, marks, at);
    let after = mark(pieces, marks, at + 1);
    point_keeps(
        tables, pieces, marks, from[side], to[side], at, before, after,
    )
}

// Whether it holds at the points of both generators on an arc.
fn arc_keeps(
    diagram: &Diagram,
    polygon: &Polygon,
    tables: &Tables,
    pieces: &[u32],
    marks: &[bool],
    from: &[u32],
    to: &[u32],
    arc: u32,
) -> bool
    requires valid { IsEmbedded diagram.now }
    requires polygon { polygon.now ≡ diagram.now.polygon }
    requires near { AreNear diagram.now tables.now pieces.now marks.now from.now to.now }
    requires arc { arc < arc_count diagram.now.polygon }
    ensures { result ≡ arc_rule_by diagram.now tables.now from.now to.now (marked_by pieces.now marks.now) arc }
{
    let side = polygon.first_side(ArcNo::new(arc)).number() as usize;
    spot_keeps(diagram, tables, pieces, marks, from, to, from[side])
        && (to[side] == from[side]
            || spot_keeps(diagram, tables, pieces, marks, from, to, to[side]))
}

// Whether it does on all arcs.
fn arcs_keep(
    diagram: &Diagram,
    polygon: &Polygon,
    tables: &Tables,
    pieces: &[u32],
    marks: &[bool],
    from: &[u32],
    to: &[u32],
) -> bool
    requires valid { IsEmbedded diagram.now }
    requires polygon { polygon.now ≡ diagram.now.polygon }
    requires near { AreNear diagram.now tables.now pieces.now marks.now from.now to.now }
    ensures { result ≡ arcs_rule_by diagram.now tables.now from.now to.now (marked_by pieces.now marks.now) }
{
    for arc in 0..polygon.sides() / 2 {
        if !arc_keeps(diagram, polygon, tables, pieces, marks, from, to, arc) {
            return false;
        }
    }
    true
}

// Whether it holds at so many points from one on, and at the one behind them.
fn edge_keeps(
    diagram: &Diagram,
    tables: &Tables,
    pieces: &[u32],
    marks: &[bool],
    from: &[u32],
    to: &[u32],
    start: u32,
    width: u32,
) -> bool
    requires valid { IsEmbedded diagram.now }
    requires near { AreNear diagram.now tables.now pieces.now marks.now from.now to.now }
    requires spots { (i : ℕ) → i ≤ width → IsSpot diagram.now (start + i) }
    requires few { width < 2 ^ 30 }
    ensures { result ≡ edge_rule_by tables.now from.now to.now (marked_by pieces.now marks.now) width start }
{
    let side = tables.side(start) as usize;
    let mut before = mark(pieces, marks, start);
    for column in 0..width + 1 {
        let at = start + column;
        let after = mark(pieces, marks, at + 1);
        if !point_keeps(
            tables, pieces, marks, from[side], to[side], at, before, after,
        ) {
            return false;
        }
        before = after;
    }
    true
}

// Whether it does along the far edges of all rows.
fn far_edges_keep(
    diagram: &Diagram,
    tables: &Tables,
    pieces: &[u32],
    marks: &[bool],
    from: &[u32],
    to: &[u32],
    rows: &[u32],
    width: u32,
) -> bool
    requires valid { IsEmbedded diagram.now }
    requires near { AreNear diagram.now tables.now pieces.now marks.now from.now to.now }
    requires rows { (start : ℕ) → Mem start rows.now → start + width < length tables.now.other }
    requires spots { (start : ℕ) → Mem start rows.now → (i : ℕ) → i ≤ width → IsSpot diagram.now (slice_index tables.now.other (start + width) + i) }
    requires few { width < 2 ^ 30 }
    ensures { result ≡ far_edges_rule_by tables.now from.now to.now (marked_by pieces.now marks.now) width rows.now }
{
    for start in rows {
        let far = tables.other(*start + width);
        if !edge_keeps(diagram, tables, pieces, marks, from, to, far, width) {
            return false;
        }
    }
    true
}

// Whether the rule holds at all points near the rows of a step: along the first row and the far edges of all rows, since
// each further row has the same points as the far edge before it.
pub(crate) fn keeps_near(
    diagram: &Diagram,
    polygon: &Polygon,
    tables: &Tables,
    pieces: &[u32],
    marks: &[bool],
    from: &[u32],
    to: &[u32],
    start: u32,
    rows: &[u32],
    width: u32,
) -> bool
    requires valid { IsEmbedded diagram.now }
    requires polygon { polygon.now ≡ diagram.now.polygon }
    requires near { AreNear diagram.now tables.now pieces.now marks.now from.now to.now }
    requires first { (i : ℕ) → i ≤ width → IsSpot diagram.now (start + i) }
    requires rows { (start : ℕ) → Mem start rows.now → start + width < length tables.now.other }
    requires spots { (start : ℕ) → Mem start rows.now → (i : ℕ) → i ≤ width → IsSpot diagram.now (slice_index tables.now.other (start + width) + i) }
    requires few { width < 2 ^ 30 }
    ensures { result ≡ (arcs_rule_by diagram.now tables.now from.now to.now (marked_by pieces.now marks.now) && edges_rule_by tables.now from.now to.now (marked_by pieces.now marks.now) width start rows.now) }
{
    arcs_keep(diagram, polygon, tables, pieces, marks, from, to)
        && edge_keeps(diagram, tables, pieces, marks, from, to, start, width)
        && far_edges_keep(diagram, tables, pieces, marks, from, to, rows, width)
}
