// Whether the lines `seams` and `basis` are those of the surface.
ghost use Rattle.std.specs.Prelude.{◌≡◌, ◌<◌, All, [], length, nat_eq, slice_index_or};
ghost use Rattle.std.specs.Str.{bytes_eq};
ghost use Rattle.mod2_rank.specs.Linear.{same_list};
ghost use Rattle.page_surface.specs.Joining.{joined as joined_page};
ghost use Rattle.page_surface.specs.Labels.{labels_of};
ghost use Rattle.page_surface.specs.Polygon.{arc as arc_of, sides as sides_of};
ghost use Rattle.witness_check.specs.BookRules.{label_names};
ghost use Rattle.witness_check.specs.OpenBook.{arcs, seam_names};
ghost use Rattle.witness_check.specs.Rules.{same_names};

use crate::surface::Surface;
use obd_base::{ArcNo, LabelNo, Name, SideNo};
use page_surface::{Page, Polygon};

// Whether a label has the name.
fn is_named(page: &Page, label: LabelNo, name: &Name) -> bool
    requires { label < length (labels_of page.now) }
    ensures { result ≡ bytes_eq name.now (slice_index_or (labels_of page.now) label []) }
{
    name.as_str() == page.name(label)
}

// Whether the names of some labels are these.
fn are_named(page: &Page, labels: &[LabelNo], names: &[Name]) -> bool
    requires { All (λ label. label < length (labels_of page.now)) labels.now }
    ensures { result ≡ same_names names.now (label_names page.now labels.now) }
{
    if names.len() != labels.len() {
        return false;
    }
    for (number, name) in names.iter().enumerate() {
        if !is_named(page, labels[number], name) {
            return false;
        }
    }
    true
}

/// Whether the seams of a page have just these names, in order. Linear in the names.
pub(crate) fn has_seams(page: &Page, surface: &Surface, seams: &[Name]) -> bool
    requires { surface.now.basis ≡ joined_page page.now }
    ensures { result ≡ same_names seams.now (seam_names page.now) }
{
    // That a page has labels says that it is one.
    let _ = page.label_count();
    are_named(page, surface.basis.seams(), seams)
}

// Whether a side has the arc.
fn is_on(polygon: &Polygon, side: u32, arc: ArcNo) -> bool
    requires { side < sides_of polygon.now }
    ensures { result ≡ nat_eq arc (arc_of polygon.now side) }
{
    arc == polygon.arc(SideNo::new(side))
}

// Whether the sides of a polygon have just these arcs, in order.
fn are_arcs(polygon: &Polygon, basis: &[ArcNo]) -> bool
    ensures { result ≡ same_list basis.now (arcs polygon.now) }
{
    if basis.len() != polygon.sides() as usize {
        return false;
    }
    for (side, arc) in basis.iter().enumerate() {
        if !is_on(polygon, side as u32, *arc) {
            return false;
        }
    }
    true
}

/// Whether the sides after the slides have just these arcs, in order. Linear in the sides.
pub(crate) fn has_basis(surface: &Surface, basis: &[ArcNo]) -> bool
    ensures { result ≡ same_list basis.now (arcs surface.now.slid.polygon) }
{
    are_arcs(&surface.slid.polygon, basis)
}
