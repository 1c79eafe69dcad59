// A curve on a polygon.
ghost use Rattle.std.specs.Prelude.{◌≡◌, ◌<◌, ◌≤◌, length, IfOk};
ghost use Rattle.curve_paths.specs.Curves.{IsCurve, IsSomeCurve};

use obd_base::{Exit, Items, NoMemory};
use page_surface::Polygon;
use std::alloc::Global;
use std::marker::Model;

/// A simple closed curve on a polygon with paired sides, cut at the sides that it crosses. Contracts see it as
/// the list of its exits, read round: the side by which it leaves, and the place of the point on that side,
/// counted from the side's start among the curve's own points. Its type keeps that it is a curve of some
/// polygon, with 1 to 32 exits.
pub struct Curve {
    exits: Items<Exit>,
}

// By hand, so that a caller's proof holds one call and not the drop of each field.
impl Drop for Curve {
    fn drop(self) {
        let Curve { exits: _exits } = self;
    }
}

impl Model for Curve {
    ghost use Rattle.std.specs.Prelude.{List};
    ghost use Rattle.obd_base.specs.declared.points.Exit.{Exit as Leaves};
    ghost use Rattle.curve_paths.specs.CurveTables.{IsCurveKept};

    ghost Value = { List Leaves };

    ghost view = { λ c. c.exits };

    ghost invariant = { λ c. IsCurveKept c.exits };
}

impl Curve {
    /// The curve with these exits, which are taken over. Constant time.
    pub fn of(alloc: Global, polygon: &Polygon, exits: Vec<Exit>) -> Result<Curve, NoMemory>
        requires some { 1 ≤ length exits.items }
        requires few { length exits.items ≤ 32 }
        requires curve { IsCurve polygon.now exits.items }
        ensures { IfOk result (λ curve. curve ≡ exits.items) }
    {
        // That a polygon has sides says that it is one.
        let _ = (alloc, polygon.sides());
        Ok(Curve {
            exits: Items::from_vec(exits),
        })
    }

    /// The exits of the curve, read round from some point of it. Constant time.
    pub fn exits(&self) -> &[Exit]
        ensures value { result.now ≡ self.now }
        ensures valid { IsSomeCurve self.now }
        ensures least { 1 ≤ length self.now }
        ensures most { length self.now ≤ 32 }
    {
        self.exits.as_slice()
    }
}
