// The basis of a page, and how a page is joined to it.
ghost use Rattle.std.specs.Prelude.{◌≡◌, ◌<◌, ◌≤◌, ◌↔◌, length, position, None, IfOk};
ghost use Rattle.obd_base.specs.Lists.{Mem};
ghost use Rattle.page_surface.specs.Joining.{side, is_side, joined};
ghost use Rattle.arc_basis.specs.Basis.{joined_sides, joined_polygon, label_count};

use crate::joining::{Whole, join_polygons};
use crate::sides::{partners, side_in, side_table};
use obd_base::{Items, LabelNo, NoMemory, SideNo};
use page_surface::{Page, Polygon, SideLabel};
use std::alloc::Global;
use std::marker::Model;

/// The basis of arcs of a page. Contracts see it as what joining leaves: the polygons, each the list of its
/// sides by label and occurrence, and the seams. Its type keeps that one polygon is left, on which each label
/// has both of its sides, but a seam has none.
pub struct Basis {
    sides: Items<SideLabel>,
    polygon: Polygon,
    first_sides: Items<Option<SideNo>>,
    second_sides: Items<Option<SideNo>>,
    seams: Items<LabelNo>,
}

// By hand, so that a caller's proof holds one call and not the drop of each field.
impl Drop for Basis {
    fn drop(self) {
        let Basis {
            sides: _sides,
            polygon: _polygon,
            first_sides: _first_sides,
            second_sides: _second_sides,
            seams: _seams,
        } = self;
    }
}

impl Model for Basis {
    ghost use Rattle.page_surface.specs.Joining.{Joined};
    ghost use Rattle.arc_basis.specs.BasisTables.{of_sides};
    ghost use Rattle.arc_basis.specs.SeamTables.{AreSeamTables};

    ghost Value = { Joined };

    ghost view = { λ b. of_sides b.sides b.seams };

    ghost invariant = { λ b. AreSeamTables b.sides b.polygon b.first_sides b.second_sides b.seams };
}

/// Joins the polygons of a page to one, along its labels by number: a label whose two sides then lie on two
/// polygons is a seam, and the polygon of its second side is set in place of its first side.
///
/// At most the labels times the sides: at most 24 labels and 48 sides.
pub fn join(alloc: Global, page: &Page) -> Result<Basis, NoMemory>
    ensures { IfOk result (λ basis. basis ≡ joined page.now) }
{
    let Whole { sides, seams } = join_polygons(alloc, page)?;
    let label_count = page.label_count();
    let first_sides = side_table(alloc, sides.as_slice(), label_count, 0)?;
    let second_sides = side_table(alloc, sides.as_slice(), label_count, 1)?;
    let pairs = partners(
        alloc,
        sides.as_slice(),
        first_sides.as_slice(),
        second_sides.as_slice(),
    )?;
    let polygon = Polygon::of(alloc, pairs)?;
    Ok(Basis {
        sides,
        polygon,
        first_sides,
        second_sides,
        seams,
    })
}

impl Basis {
    /// The polygon that is left, each side glued to the other side of its label. Constant time, as are the calls
    /// below; all take no memory.
    pub fn polygon(&self) -> &Polygon
        ensures value { result.now ≡ joined_polygon self.now }
        ensures one { length self.now.polygons ≡ 1 }
    {
        &self.polygon
    }

    /// The labels along which polygons were joined, in the order of joining.
    pub fn seams(&self) -> &[LabelNo]
        ensures value { result.now ≡ self.now.seams }
    {
        self.seams.as_slice()
    }

    /// The side of the polygon that an occurrence of a label has become, and `None` exactly for a seam.
    pub fn side(&self, label: LabelNo, occurrence: u8) -> Option<SideNo>
        requires label { label < label_count self.now }
        requires occurrence { occurrence ≤ 1 }
        ensures value { result ≡ position (is_side (side label occurrence)) (joined_sides self.now) }
        ensures seam { (result ≡ None) ↔ Mem label self.now.seams }
    {
        side_in(
            self.first_sides.as_slice(),
            self.second_sides.as_slice(),
            label,
            occurrence,
        )
    }
}
