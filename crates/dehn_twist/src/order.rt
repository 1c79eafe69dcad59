// A drawing and a curve, with the merged order of their points.
ghost use Rattle.std.specs.Prelude.{◌≡◌, ◌+◌, ◌-◌, ◌*◌, ◌<◌, ◌≤◌, ◌^◌, length, IfOk};
ghost use Rattle.page_surface.specs.Drawing.{all_exits, end_of, entry, points_on, strand_exits};
ghost use Rattle.page_surface.specs.Polygon.{arc_count, sides};
ghost use Rattle.curve_paths.specs.Curves.{IsCurve, curve_entry, curve_points};
ghost use Rattle.dehn_twist.specs.Surgery.{copy_of, curve_number, is_lower, kept_point, merged_start, strand_number};
ghost use Rattle.dehn_twist.specs.Tables.{AreTaken};

use crate::counts::{curve_counts, point_counts, starts, strand_rows};
use curve_paths::Curve;
use drawing::Drawing;
use obd_base::{Exit, Items, NoMemory, SideNo, StrandNo};
use page_surface::Polygon;
use std::alloc::Global;
use std::marker::Model;

// A drawing and a curve on its polygon, read once. It knows how many points of each kind a side has and where each
// side begins in the merged order, so that a point has its number in constant time. No call but `of` takes memory.
pub(crate) struct Merged {
    polygon: Polygon,
    strands: Vec<Items<Exit>>,
    exits: Vec<Exit>,
    points: Vec<u32>,
    counts: Vec<u32>,
    starts: Vec<u32>,
}

// By hand, so that a caller's proof holds one call and not the drop of each field.
impl Drop for Merged {
    fn drop(self) {
        let Merged {
            polygon: _polygon,
            strands: _strands,
            exits: _exits,
            points: _points,
            counts: _counts,
            starts: _starts,
        } = self;
    }
}

impl Model for Merged {
    ghost use Rattle.dehn_twist.specs.Tables.{IsMerged, Pair};

    ghost Value = { Pair };

    ghost view = { λ m. record { drawing = record { polygon = m.polygon; strands = m.strands.items }; curve = m.exits.items } };

    ghost invariant = { λ m. IsMerged (record { polygon = m.polygon; strands = m.strands.items }) m.exits.items m.points.items m.counts.items m.starts.items };
}

impl Merged {
    // Linear in the exits, and in the sides times the curve's exits.
    pub(crate) fn of(alloc: Global, drawing: &Drawing, curve: &Curve) -> Result<Merged, NoMemory>
        requires curve { IsCurve drawing.now.drawing.polygon curve.now }
        requires few { length (all_exits drawing.now.drawing) ≤ 4000 }
        ensures { IfOk result (λ merged. merged ≡ record { drawing = drawing.now.drawing; curve = curve.now }) }
    {
        let _ = (drawing.points(), drawing.polygon().sides());
        let polygon = drawing.polygon().copy()?;
        let strands = strand_rows(alloc, drawing)?;
        let exits = Vec::from_slice(alloc, curve.exits())?;
        let points = point_counts(alloc, drawing)?;
        let counts = curve_counts(alloc, &polygon, &exits)?;
        let starts = starts(alloc, &points, &counts)?;
        Ok(Merged {
            polygon,
            strands,
            exits,
            points,
            counts,
            starts,
        })
    }

    pub(crate) fn polygon(&self) -> &Polygon
        ensures value { result.now ≡ self.now.drawing.polygon }
        ensures taken { AreTaken self.now.drawing self.now.curve }
    {
        &self.polygon
    }

    // The exits of the curve.
    pub(crate) fn curve(&self) -> &[Exit]
        ensures value { result.now ≡ self.now.curve }
        ensures taken { AreTaken self.now.drawing self.now.curve }
    {
        &self.exits
    }

    // The exits of a strand.
    pub(crate) fn strand(&self, strand: StrandNo) -> &[Exit]
        requires { strand < arc_count self.now.drawing.polygon }
        ensures { result.now ≡ strand_exits self.now.drawing strand }
    {
        self.strands.as_slice()[strand.number() as usize].as_slice()
    }

    // How many numbers the merged order has.
    pub(crate) fn size(&self) -> u32
        ensures value { result ≡ merged_start self.now.drawing self.now.curve (sides self.now.drawing.polygon) }
        ensures few { result < 2 ^ 30 }
    {
        self.starts.as_slice()[self.polygon.sides() as usize]
    }

    // The number of points of strands on a side.
    fn points_on(&self, side: SideNo) -> u32
        requires { side < sides self.now.drawing.polygon }
        ensures value { result ≡ points_on self.now.drawing side }
        ensures few { result ≤ 8000 }
    {
        self.points.as_slice()[side.number() as usize]
    }

    // The number of points of the curve on a side.
    pub(crate) fn curve_points_on(&self, side: SideNo) -> u32
        requires { side < sides self.now.drawing.polygon }
        ensures value { result ≡ curve_points self.now.drawing.polygon self.now.curve side }
        ensures few { result ≤ 64 }
    {
        self.counts.as_slice()[side.number() as usize]
    }

    // Where a side begins.
    fn start(&self, side: SideNo) -> u32
        requires { side < sides self.now.drawing.polygon }
        ensures value { result ≡ merged_start self.now.drawing self.now.curve side }
        ensures few { result + curve_points self.now.drawing.polygon self.now.curve side + points_on self.now.drawing side + 2 ≤ 2 ^ 18 }
    {
        self.starts.as_slice()[side.number() as usize]
    }

    // Whether a side is the lower one of its pair.
    fn is_lower(&self, side: SideNo) -> bool
        requires { side < sides self.now.drawing.polygon }
        ensures { result ≡ is_lower self.now.drawing.polygon side }
    {
        side < self.polygon.pair(side)
    }

    // The number of a strand's point, or of the end of a side.
    pub(crate) fn strand_number(&self, exit: Exit) -> u32
        requires side { exit.side < sides self.now.drawing.polygon }
        requires place { exit.place ≤ points_on self.now.drawing exit.side }
        ensures { result ≡ strand_number self.now.drawing self.now.curve exit }
    {
        let start = self.start(exit.side);
        if self.is_lower(exit.side) || exit.place == self.points_on(exit.side) {
            start + (self.curve_points_on(exit.side) + exit.place)
        } else {
            start + exit.place
        }
    }

    // The number of a curve's point.
    pub(crate) fn curve_number(&self, point: Exit) -> u32
        requires side { point.side < sides self.now.drawing.polygon }
        requires place { point.place < curve_points self.now.drawing.polygon self.now.curve point.side }
        ensures { result ≡ curve_number self.now.drawing self.now.curve point }
    {
        let start = self.start(point.side);
        if self.is_lower(point.side) {
            start + point.place
        } else {
            start + (self.points_on(point.side) + point.place)
        }
    }

    // The entry that belongs to a strand's exit.
    pub(crate) fn entry(&self, exit: Exit) -> Exit
        requires side { exit.side < sides self.now.drawing.polygon }
        requires place { exit.place < points_on self.now.drawing exit.side }
        ensures { result ≡ entry self.now.drawing exit }
    {
        Exit {
            side: self.polygon.pair(exit.side),
            place: self.points_on(exit.side) - 1 - exit.place,
        }
    }

    // The end of a side.
    pub(crate) fn end_of(&self, side: SideNo) -> Exit
        requires { side < sides self.now.drawing.polygon }
        ensures { result ≡ end_of self.now.drawing side }
    {
        Exit {
            side,
            place: self.points_on(side),
        }
    }

    // The entry that belongs to an exit of the curve.
    pub(crate) fn curve_entry(&self, exit: Exit) -> Exit
        requires side { exit.side < sides self.now.drawing.polygon }
        requires place { exit.place < curve_points self.now.drawing.polygon self.now.curve exit.side }
        ensures { result ≡ curve_entry self.now.drawing.polygon self.now.curve exit }
    {
        Exit {
            side: self.polygon.pair(exit.side),
            place: self.curve_points_on(exit.side) - 1 - exit.place,
        }
    }

    // The new place of a line at a point of the curve, where there are so many lines.
    pub(crate) fn copy_of(&self, lines: u32, point: Exit, line: u32) -> Exit
        requires lines { lines ≤ 2 ^ 20 }
        requires line { line < lines }
        requires side { point.side < sides self.now.drawing.polygon }
        requires place { point.place < curve_points self.now.drawing.polygon self.now.curve point.side }
        ensures { result ≡ copy_of self.now.drawing self.now.curve lines point line }
    {
        let _ = self.polygon();
        let place = if self.is_lower(point.side) {
            point.place * lines + line
        } else {
            self.points_on(point.side) + point.place * lines + line
        };
        Exit {
            side: point.side,
            place,
        }
    }

    // The new place of a strand's point, where the curve has so many lines.
    pub(crate) fn kept_point(&self, lines: u32, exit: Exit) -> Exit
        requires lines { lines ≤ 2 ^ 20 }
        requires side { exit.side < sides self.now.drawing.polygon }
        requires place { exit.place < points_on self.now.drawing exit.side }
        ensures { result ≡ kept_point self.now.drawing self.now.curve lines exit }
    {
        let _ = self.polygon();
        let place = if self.is_lower(exit.side) {
            self.curve_points_on(exit.side) * lines + exit.place
        } else {
            exit.place
        };
        Exit {
            side: exit.side,
            place,
        }
    }
}
