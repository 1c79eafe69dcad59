// The one polygon that a page is joined to.
ghost use Rattle.std.specs.Prelude.{◌≡◌, ◌<◌, ◌≤◌, length, IfOk};
ghost use Rattle.page_surface.specs.Polygon.{Polygon as Shown, IsPolygon, Pairs, arc, arc_count, first_side, paired, partner, sides};

use obd_base::{ArcNo, NoMemory, SideNo};
use std::alloc::Global;
use std::marker::Model;

/// A polygon with 2 to 16 sides that are glued in pairs. Sides are numbered from 0, counterclockwise, and
/// arcs by first appearance. Contracts see it as the lists of partners and of arcs, one entry a side. Its
/// type keeps that partners are their own inverse without a fixed side, and how arcs are numbered.
pub struct Polygon {
    pairs: Vec<SideNo>,
    arcs: Vec<ArcNo>,
    first_sides: Vec<SideNo>,
}

// By hand, so that a caller's proof holds one call and not the drop of each field.
impl Drop for Polygon {
    fn drop(self) {
        let Polygon {
            pairs: _pairs,
            arcs: _arcs,
            first_sides: _first_sides,
        } = self;
    }
}

impl Model for Polygon {
    ghost use Rattle.page_surface.specs.Polygon.{Polygon as Shown};
    ghost use Rattle.page_surface.specs.Tables.{IsTableOf};

    ghost Value = { Shown };

    ghost view = { λ p. record { partners = p.pairs.items; arcs = p.arcs.items } };

    ghost invariant = { λ p. IsTableOf p.pairs.items p.arcs.items p.first_sides.items };
}

impl Polygon {
    /// The polygon of a list of partners, one for each side. Linear in the sides.
    pub fn of(alloc: Global, pairs: Vec<SideNo>) -> Result<Polygon, NoMemory>
        requires least { 2 ≤ length pairs.items }
        requires most { length pairs.items ≤ 16 }
        requires pairs { Pairs (paired pairs.items) }
        ensures { IfOk result (λ polygon. polygon ≡ paired pairs.items) }
    {
        let mut arcs = Vec::new(alloc);
        let mut first_sides = Vec::new(alloc);
        for side in 0..pairs.len() {
            let partner = pairs[side].number() as usize;
            if side < partner {
                arcs.push(ArcNo::new(first_sides.len() as u32))?;
                first_sides.push(SideNo::new(side as u32))?;
            } else {
                arcs.push(arcs[partner])?;
            }
        }
        Ok(Polygon {
            pairs,
            arcs,
            first_sides,
        })
    }

    /// The number of sides. Constant time, as are the calls below; all take no memory.
    pub fn sides(&self) -> u32
        ensures value { result ≡ sides self.now }
        ensures least { 2 ≤ result }
        ensures most { result ≤ 16 }
        ensures valid { IsPolygon self.now }
    {
        self.pairs.len() as u32
    }

    /// The side that a side is glued to.
    pub fn pair(&self, side: SideNo) -> SideNo
        requires { side < sides self.now }
        ensures { result ≡ partner self.now side }
    {
        self.pairs[side.number() as usize]
    }

    /// The arc of a side.
    pub fn arc(&self, side: SideNo) -> ArcNo
        requires { side < sides self.now }
        ensures { result ≡ arc self.now side }
    {
        self.arcs[side.number() as usize]
    }

    /// The side of an arc that has the lower number.
    pub fn first_side(&self, arc: ArcNo) -> SideNo
        requires { arc < arc_count self.now }
        ensures { result ≡ first_side self.now arc }
    {
        self.first_sides[arc.number() as usize]
    }

    /// A polygon of its own that is equal to this one.
    pub fn copy(&self) -> Result<Polygon, NoMemory>
        ensures { IfOk result (λ polygon. polygon ≡ self.now) }
    {
        Ok(Polygon {
            pairs: self.pairs.clone()?,
            arcs: self.arcs.clone()?,
            first_sides: self.first_sides.clone()?,
        })
    }
}
