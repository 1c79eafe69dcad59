// The rules of a domain.
ghost use Rattle.std.specs.Prelude.{◌≡◌, ◌<◌, ◌≤◌, length};
ghost use Rattle.std.specs.List.{sum_by};
ghost use Rattle.page_surface.specs.Drawing.{Drawing as Shown, IsEmbedded};
ghost use Rattle.page_surface.specs.Polygon.{arc_count};
ghost use Rattle.drawing.specs.Pieces.{corners, piece_table};
ghost use Rattle.hkm_diagram.specs.Domains.{is_domain, moved};
ghost use Rattle.region_table.specs.Reads.{told_crossings};
ghost use Rattle.region_table.specs.Table.{IsTableOf};
ghost use Rattle.boundary_map.specs.Sets.{AreInner, AreTold, all_keep, arc_keeps, firsts, point_keeps};

use crate::quadrants::{met_from, met_to};
use hkm_diagram::Diagram;
use obd_base::{ArcNo, PieceNo};
use region_table::Regions;

// Whether a point keeps its rule, by the points of both generators on its arc.
fn point_keeps(
    regions: &Regions,
    set: &[PieceNo],
    arc: ArcNo,
    number: u32,
    from: u32,
    to: u32,
) -> bool
    requires set { AreInner regions.now set.now }
    requires arc { arc < arc_count regions.now.polygon }
    requires number { number ≤ told_crossings regions.now arc }
    ensures { (d : Shown) → IsEmbedded d → IsTableOf d regions.now → result ≡ point_keeps d (piece_table d) (firsts regions.now set.now) from to arc number }
{
    let out = met_from(regions, set, arc, number);
    let into = met_to(regions, set, arc, number);
    match (from == number, to == number) {
        (true, false) => out == 1 && into == 0,
        (false, true) => out == 0 && into == 1,
        (true, true) => out == 0 && into == 0,
        (false, false) => out == into,
    }
}

// Whether all points of an arc keep their rules.
fn arc_keeps(
    diagram: &Diagram,
    regions: &Regions,
    set: &[PieceNo],
    arc: ArcNo,
    from: u32,
    to: u32,
) -> bool
    requires valid { IsEmbedded diagram.now }
    requires table { IsTableOf diagram.now regions.now }
    requires set { AreInner regions.now set.now }
    requires arc { arc < arc_count diagram.now.polygon }
    ensures { result ≡ arc_keeps diagram.now (piece_table diagram.now) (firsts regions.now set.now) from to arc }
{
    for number in 0..diagram.points_of(arc) {
        if !point_keeps(regions, set, arc, number, from, to) {
            return false;
        }
    }
    true
}

// Whether the points of all arcs keep their rules.
fn all_keep(diagram: &Diagram, regions: &Regions, set: &[PieceNo], y: &[u32], x: &[u32]) -> bool
    requires valid { IsEmbedded diagram.now }
    requires table { IsTableOf diagram.now regions.now }
    requires set { AreInner regions.now set.now }
    requires from { length y.now ≡ arc_count diagram.now.polygon }
    requires to { length x.now ≡ arc_count diagram.now.polygon }
    requires few { length y.now ≤ 8 }
    ensures { result ≡ all_keep diagram.now (piece_table diagram.now) (firsts regions.now set.now) y.now x.now }
{
    for arc in 0..y.len() {
        let (from, to) = (y[arc], x[arc]);
        if !arc_keeps(diagram, regions, set, ArcNo::new(arc as u32), from, to) {
            return false;
        }
    }
    true
}

// The corners of all pieces of a set.
pub(crate) fn all_corners(regions: &Regions, set: &[PieceNo]) -> u64
    requires set { AreInner regions.now set.now }
    requires told { AreTold regions.now set.now }
    requires few { length set.now ≤ 16 }
    ensures value { (d : Shown) → IsEmbedded d → IsTableOf d regions.now → result ≡ sum_by (corners d) (firsts regions.now set.now) }
    ensures most { result ≤ 68719476736 }
{
    let mut sum: u64 = 0;
    for piece in set {
        sum += regions.corners(*piece) as u64;
    }
    sum
}

// The number of points that stand in exactly one of two generators: two for each arc where they differ.
fn moved(diagram: &Diagram, y: &[u32], x: &[u32]) -> u64
    requires from { length y.now ≡ arc_count diagram.now.polygon }
    requires to { length x.now ≡ arc_count diagram.now.polygon }
    requires few { length y.now ≤ 8 }
    ensures value { result ≡ moved diagram.now y.now x.now }
    ensures most { result ≤ 16 }
{
    let _ = diagram.drawing().points();
    let mut moved = 0;
    for arc in 0..y.len() {
        if y[arc] != x[arc] {
            moved += 2;
        }
    }
    moved
}

// Whether a set of inner pieces is a domain from a generator to another.
pub(crate) fn is_domain(
    diagram: &Diagram,
    regions: &Regions,
    set: &[PieceNo],
    y: &[u32],
    x: &[u32],
) -> bool
    requires valid { IsEmbedded diagram.now }
    requires table { IsTableOf diagram.now regions.now }
    requires set { AreInner regions.now set.now }
    requires small { length set.now ≤ 16 }
    requires from { length y.now ≡ arc_count diagram.now.polygon }
    requires to { length x.now ≡ arc_count diagram.now.polygon }
    requires few { length y.now ≤ 8 }
    ensures { result ≡ is_domain diagram.now (piece_table diagram.now) y.now x.now (firsts regions.now set.now) }
{
    4 * set.len() as u64 + moved(diagram, y, x) == 4 + all_corners(regions, set)
        && all_keep(diagram, regions, set, y, x)
}
