// The points to which a set of pieces leads.
ghost use Rattle.std.specs.Prelude.{◌≡◌, ◌<◌, ◌≤◌, length, IfOk};
ghost use Rattle.page_surface.specs.Drawing.{Drawing as Shown, IsEmbedded};
ghost use Rattle.page_surface.specs.Polygon.{arc_count};
ghost use Rattle.drawing.specs.Pieces.{piece_table};
ghost use Rattle.region_table.specs.Reads.{told_crossings};
ghost use Rattle.region_table.specs.Table.{IsTableOf};
ghost use Rattle.boundary_map.specs.Sets.{AreInner, firsts, leads_into, led_point, led_to};

use crate::quadrants::{met_from, met_to};
use hkm_diagram::Diagram;
use obd_base::{ArcNo, Items, NoMemory, PieceNo};
use region_table::Regions;
use std::alloc::Global;

// Whether the set leads into a point: one 'to' quadrant is in it, and no 'from' quadrant.
fn leads_into(regions: &Regions, set: &[PieceNo], arc: ArcNo, number: u32) -> bool
    requires set { AreInner regions.now set.now }
    requires arc { arc < arc_count regions.now.polygon }
    requires number { number ≤ told_crossings regions.now arc }
    ensures { (d : Shown) → IsEmbedded d → IsTableOf d regions.now → result ≡ leads_into d (piece_table d) (firsts regions.now set.now) arc number }
{
    met_from(regions, set, arc, number) == 0 && met_to(regions, set, arc, number) == 1
}

// The first point of an arc into which the set leads, and the given one where there is none.
fn led_point(diagram: &Diagram, regions: &Regions, set: &[PieceNo], arc: ArcNo, own: u32) -> u32
    requires valid { IsEmbedded diagram.now }
    requires table { IsTableOf diagram.now regions.now }
    requires set { AreInner regions.now set.now }
    requires arc { arc < arc_count diagram.now.polygon }
    ensures { result ≡ led_point diagram.now (piece_table diagram.now) (firsts regions.now set.now) own arc }
{
    for number in 0..diagram.points_of(arc) {
        if leads_into(regions, set, arc, number) {
            return number;
        }
    }
    own
}

// The points to which the set leads from a generator.
pub(crate) fn led_to(
    alloc: Global,
    diagram: &Diagram,
    regions: &Regions,
    set: &[PieceNo],
    y: &[u32],
) -> Result<Items<u32>, NoMemory>
    requires valid { IsEmbedded diagram.now }
    requires table { IsTableOf diagram.now regions.now }
    requires set { AreInner regions.now set.now }
    requires points { length y.now ≡ arc_count diagram.now.polygon }
    requires few { length y.now ≤ 8 }
    ensures { IfOk result (λ x. x ≡ led_to diagram.now (piece_table diagram.now) y.now (firsts regions.now set.now)) }
{
    let mut x = Items::new(alloc);
    for arc in 0..y.len() {
        let own = y[arc];
        x.push(led_point(diagram, regions, set, ArcNo::new(arc as u32), own))?;
    }
    Ok(x)
}
