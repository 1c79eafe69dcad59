// How many quadrants of a point are in a set of inner pieces.
ghost use Rattle.std.specs.Prelude.{◌≡◌, ◌<◌, ◌≤◌};
ghost use Rattle.obd_base.specs.Lists.{has};
ghost use Rattle.page_surface.specs.Drawing.{Drawing as Shown, IsEmbedded};
ghost use Rattle.page_surface.specs.Polygon.{arc_count};
ghost use Rattle.drawing.specs.Pieces.{piece_table};
ghost use Rattle.drawing.specs.Points.{from_spans, to_spans};
ghost use Rattle.hkm_diagram.specs.Domains.{met};
ghost use Rattle.region_table.specs.Reads.{told_crossings};
ghost use Rattle.region_table.specs.Table.{IsTableOf};
ghost use Rattle.boundary_map.specs.Sets.{AreInner, firsts, met_option};

use obd_base::{ArcNo, PieceNo, Point};
use region_table::Regions;

// Whether a piece is in a set.
fn is_in_set(set: &[PieceNo], piece: PieceNo) -> bool
    ensures { result ≡ has set.now piece }
{
    set.iter().any(|member| piece == *member)
}

// Whether a quadrant is there and in a set, as a number.
fn met_option(set: &[PieceNo], quadrant: Option<PieceNo>) -> u32
    ensures value { result ≡ met_option set.now quadrant }
    ensures most { result ≤ 1 }
{
    let Some(piece) = quadrant else {
        return 0;
    };
    if is_in_set(set, piece) { 1 } else { 0 }
}

// The number of 'to' quadrants in the set.
pub(crate) fn met_to(regions: &Regions, set: &[PieceNo], arc: ArcNo, number: u32) -> u32
    requires set { AreInner regions.now set.now }
    requires arc { arc < arc_count regions.now.polygon }
    requires number { number ≤ told_crossings regions.now arc }
    ensures { (d : Shown) → IsEmbedded d → IsTableOf d regions.now → result ≡ met (piece_table d) (firsts regions.now set.now) (to_spans d arc number) }
{
    let [first, second] = regions.to_quadrants(Point { arc, number });
    met_option(set, Some(first)) + met_option(set, Some(second))
}

// The number of 'from' quadrants in the set.
pub(crate) fn met_from(regions: &Regions, set: &[PieceNo], arc: ArcNo, number: u32) -> u32
    requires set { AreInner regions.now set.now }
    requires arc { arc < arc_count regions.now.polygon }
    requires number { number ≤ told_crossings regions.now arc }
    ensures { (d : Shown) → IsEmbedded d → IsTableOf d regions.now → result ≡ met (piece_table d) (firsts regions.now set.now) (from_spans d arc number) }
{
    let [first, second] = regions.from_quadrants(Point { arc, number });
    met_option(set, first) + met_option(set, second)
}
