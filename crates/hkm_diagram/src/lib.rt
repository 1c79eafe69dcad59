//! The diagram of an open book with its arc basis, and the contact points: one point on each arc, which
//! together are the contact generator. After Honda, Kazez and Matić (2009), with the short strips collapsed.
//!
//! A diagram is a drawing, read through its points: those of an arc are its crossing points, numbered along the
//! arc's first side from the start, and then its contact point.
#![tactic(auto)]

ghost use Rattle.std.specs.Prelude.{◌≡◌, ◌<◌, ◌≤◌, suc, IfOk};
ghost use Rattle.std.specs.Borrow.{Lends, sem};
ghost use Rattle.drawing.specs.Points.{crossings_of, strand_of};
ghost use Rattle.drawing.specs.contracts.drawing.Drawing.{the_row as drawing_row};
ghost use Rattle.hkm_diagram.specs.contracts.Diagram.{the_row as diagram_row};
ghost use Rattle.page_surface.specs.Drawing.{identity};
ghost use Rattle.page_surface.specs.Polygon.{arc_count, first_side, sides};

use drawing::Drawing;
use obd_base::{ArcNo, NoMemory, Point, SideNo, StrandNo};
use page_surface::Polygon;
use std::alloc::Global;
use std::marker::Model;

/// A diagram. Contracts see it as its drawing.
pub struct Diagram {
    drawing: Drawing,
}

// By hand, so that a caller's proof holds one call and not the drop of each field.
impl Drop for Diagram {
    fn drop(self) {
        let Diagram { drawing: _drawing } = self;
    }
}

impl Model for Diagram {
    ghost use Rattle.page_surface.specs.Drawing.{Drawing as Shown};

    ghost Value = { Shown };

    ghost view = { λ d. d.drawing.drawing };
}

/// The diagram of the identity drawing. Linear in the sides.
pub fn first(alloc: Global, polygon: &Polygon) -> Result<Diagram, NoMemory>
    ensures { IfOk result (λ diagram. diagram ≡ identity polygon.now) }
{
    Ok(Diagram::of(Drawing::identity(alloc, polygon)?))
}

impl Diagram {
    /// The diagram of a drawing, which is taken over. Constant time, as are the calls below; all take no memory.
    pub fn of(drawing: Drawing) -> Diagram
        ensures { result ≡ drawing.drawing }
    {
        Diagram { drawing }
    }

    /// Its drawing.
    pub fn drawing(&self) -> &Drawing
        ensures { result.now.drawing ≡ self.now }
    {
        &self.drawing
    }

    /// Its drawing as it stands, to be changed: the diagram is then that of the changed drawing.
    pub fn drawing_mut(&mut self) -> &mut Drawing
        ensures* writes_back { sem 𝓛 (Lends diagram_row drawing_row self.entry result (λ w. w.drawing)) }
        ensures lent { result.now.drawing ≡ self.old }
    {
        &mut self.drawing
    }

    // The side along which the points of an arc are numbered.
    fn side_of(&self, arc: ArcNo) -> SideNo
        requires { arc < arc_count self.now.polygon }
        ensures side { result ≡ first_side self.now.polygon arc }
        ensures inside { first_side self.now.polygon arc < sides self.now.polygon }
    {
        let _ = self.drawing.points();
        self.drawing.polygon().first_side(arc)
    }

    /// The number of points of an arc, its contact point among them.
    pub fn points_of(&self, arc: ArcNo) -> u32
        requires { arc < arc_count self.now.polygon }
        ensures { result ≡ suc (crossings_of self.now arc) }
    {
        self.drawing.points_on(self.side_of(arc)) + 1
    }

    /// The strand on which a point lies.
    pub fn strand_of(&self, point: Point) -> StrandNo
        requires arc { point.arc < arc_count self.now.polygon }
        requires number { point.number ≤ crossings_of self.now point.arc }
        ensures { result ≡ strand_of self.now point.arc point.number }
    {
        let side = self.side_of(point.arc);
        if point.number < self.drawing.points_on(side) {
            self.drawing.strand_at(side, point.number)
        } else {
            // The contact point lies on the strand of its own arc.
            StrandNo::new(point.arc.number())
        }
    }

    /// The contact point of an arc, which is the last of its points.
    pub fn contact(&self, arc: ArcNo) -> Point
        requires { arc < arc_count self.now.polygon }
        ensures { result ≡ record { arc = arc; number = crossings_of self.now arc } }
    {
        Point {
            arc,
            number: self.drawing.points_on(self.side_of(arc)),
        }
    }
}
