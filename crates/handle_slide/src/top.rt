// An arc slide.
ghost use Rattle.std.specs.Prelude.{◌≡◌, ◌≢◌, ◌<◌, ◌≤◌, ℕ, List, length, map, option_map, All, None, Some, IfErr, IfOk, IfSome, OnOk};
ghost use Rattle.curve_paths.specs.Curves.{IsCurve};
ghost use Rattle.obd_base.specs.Lists.{below};
ghost use Rattle.page_surface.specs.Polygon.{partner, sides};
ghost use Rattle.handle_slide.specs.Letters.{all_letters, without_pairs};
ghost use Rattle.obd_base.specs.declared.points.Exit.{Exit as Leaves};
ghost use Rattle.handle_slide.specs.Refused.{IsLong, crossings_after, crossings_of, first_long, refusal_of};
ghost use Rattle.handle_slide.specs.Slide.{new_number, side_after as next_side, slid_curve as curve_after, slid_exits as exits_after, slid_polygon, some_curve};

use crate::carried::Carried;
use crate::points::points_on_sides;
use crate::refusal::SlideRefusal;
use crate::sides::{NewSides, side_after};
use crate::slid::Slid;
use curve_paths::Curve;
use obd_base::{Exit, Items, NoMemory, SideNo};
use page_surface::Polygon;
use std::alloc::Global;

// The exits of a curve after a slide.
fn slid_exits(
    alloc: Global,
    polygon: &Polygon,
    side: SideNo,
    numbers: &[SideNo],
    curve: &Curve,
) -> Result<Vec<Exit>, NoMemory>
    requires side { side < sides polygon.now }
    requires slides { next_side polygon.now side ≢ partner polygon.now side }
    requires numbers { numbers.now ≡ map (new_number polygon.now side) (below (sides polygon.now)) }
    requires curve { IsCurve polygon.now curve.now }
    ensures exits { IfOk result (λ exits. exits.items ≡ exits_after polygon.now side curve.now) }
    ensures few { IfOk result (λ exits. length exits.items ≤ 96) }
{
    // That a polygon has sides says that it is one.
    let _ = polygon.sides();
    let exits = curve.exits();
    let counts = points_on_sides(alloc, polygon, exits)?;
    let carried = Carried {
        polygon,
        side,
        numbers,
        exits,
        counts: &counts,
    };
    carried.slid_exits(alloc)
}

// The curve with some exits, and none where there are none.
fn curve_of(alloc: Global, polygon: &Polygon, exits: Vec<Exit>) -> Result<Option<Curve>, NoMemory>
    requires few { length exits.items ≤ 32 }
    requires curve { IsCurve polygon.now exits.items }
    ensures { IfOk result (λ curve. curve ≡ some_curve exits.items) }
{
    if exits.as_slice().is_empty() {
        return Ok(None);
    }
    Ok(Some(Curve::of(alloc, polygon, exits)?))
}

// A curve after a slide, by its number.
fn slid_curve(
    alloc: Global,
    polygon: &Polygon,
    side: SideNo,
    new: &NewSides,
    number: u64,
    curve: Option<&Curve>,
) -> Result<Option<Curve>, SlideRefusal>
    requires side { side < sides polygon.now }
    requires slides { next_side polygon.now side ≢ partner polygon.now side }
    requires numbers { new.now.numbers.items ≡ map (new_number polygon.now side) (below (sides polygon.now)) }
    requires polygon { new.now.polygon ≡ slid_polygon polygon.now side }
    requires curve { IfSome curve (λ c. IsCurve polygon.now c.now) }
    ensures value { IfOk result (λ slid. slid ≡ curve_after polygon.now side (option_map (λ c. c.now) curve.entry)) }
    ensures short { OnOk result (crossings_after polygon.now side (option_map (λ c. c.now) curve.entry) ≤ 32) }
    ensures long { IfErr result (λ refusal. refusal ≢ SlideRefusal.NoMemory → IsLong polygon.now side number (option_map (λ c. c.now) curve.entry) refusal) }
{
    // That a polygon has sides says that it is one.
    let _ = polygon.sides();
    let Some(curve) = curve else {
        return Ok(None);
    };
    let exits = slid_exits(alloc, polygon, side, &new.numbers, curve)?;
    let count = exits.len();
    if 32 < count {
        return Err(SlideRefusal::SlideCrossings {
            curve: number,
            count: count as u32,
        });
    }
    Ok(curve_of(alloc, &new.polygon, exits)?)
}

// The curves after a slide.
fn slid_curves(
    alloc: Global,
    polygon: &Polygon,
    side: SideNo,
    new: &NewSides,
    curves: &[Option<Curve>],
) -> Result<Items<Option<Curve>>, SlideRefusal>
    requires side { side < sides polygon.now }
    requires slides { next_side polygon.now side ≢ partner polygon.now side }
    requires numbers { new.now.numbers.items ≡ map (new_number polygon.now side) (below (sides polygon.now)) }
    requires polygon { new.now.polygon ≡ slid_polygon polygon.now side }
    requires curves { All (λ curve. IfSome curve (IsCurve polygon.now)) curves.now }
    ensures value { IfOk result (λ slid. slid ≡ map (curve_after polygon.now side) curves.now) }
    ensures short { OnOk result (first_long polygon.now side curves.now ≡ None) }
    ensures long { IfErr result (λ refusal. refusal ≢ SlideRefusal.NoMemory
        → option_map (crossings_of polygon.now side curves.now) (first_long polygon.now side curves.now) ≡ Some refusal) }
{
    let mut slid = Items::new(alloc);
    for (number, curve) in curves.iter().enumerate() {
        match slid_curve(alloc, polygon, side, new, number as u64, curve.as_ref()) {
            Ok(curve) => slid.push(curve)?,
            Err(refusal) => return Err(refusal),
        }
    }
    Ok(slid)
}

/// The arc slide at a side `k`, which is slid over the next side round: sides `k` and `k + 1` become one new side `x`, and
/// the partner of `k` becomes the two sides `k + 1` and the partner of `x`. The new polygon has as many sides, and their
/// numbers begin at `x`. The points of `x` are those of `k` and then those of `k + 1`, without the ends of chords that
/// run between these two sides. A curve that crosses no side any more is dropped, so `None` stands in its place.
///
/// By letters: `k` becomes `x`, `k + 1` becomes `x, k + 1`, the partner of `k` becomes that of `x`, and the partner of `k + 1`
/// becomes itself and that of `x`. Pairs of `x`'s partner and `x` that then stand side by side, read round, are dropped.
///
/// Refused are, in this order: a number that is no side's (`NoSuchSide`), a side whose next side is its partner
/// (`SelfSlide`), and the first curve with more than 32 crossings afterwards (`SlideCrossings`, with the curve's number).
/// Each of these comes exactly where its rule says so, or memory is wanting first (`NoMemory`).
///
/// Linear in the sides and in the exits of the curves, in time and in memory. The form is this project's own.
pub fn slide(
    alloc: Global,
    polygon: &Polygon,
    curves: &[Option<Curve>],
    side: SideNo,
) -> Result<Slid, SlideRefusal>
    requires { All (λ curve. IfSome curve (IsCurve polygon.now)) curves.now }
    ensures polygon { IfOk result (λ slid. slid.polygon ≡ slid_polygon polygon.now side) }
    ensures curves { IfOk result (λ slid. slid.curves ≡ map (curve_after polygon.now side) curves.now) }
    ensures stays { IfOk result (λ slid. All (λ curve. IfSome curve (IsCurve slid.polygon)) slid.curves) }
    ensures letters { OnOk result ((c : List Leaves) → map (λ e. e.side) (exits_after polygon.now side c)
        ≡ map (new_number polygon.now side) (without_pairs polygon.now side (all_letters polygon.now side c))) }

    ensures accepted { OnOk result (refusal_of polygon.now curves.now side ≡ None) }
    ensures refused { IfErr result (λ refusal. refusal ≢ SlideRefusal.NoMemory → refusal_of polygon.now curves.now side ≡ Some refusal) }
{
    if polygon.sides() <= side.number() {
        return Err(SlideRefusal::NoSuchSide);
    }
    if side_after(polygon, side) == polygon.pair(side) {
        return Err(SlideRefusal::SelfSlide);
    }
    let new = NewSides::of(alloc, polygon, side)?;
    let curves = slid_curves(alloc, polygon, side, &new, curves)?;
    let NewSides { polygon, .. } = new;
    Ok(Slid { polygon, curves })
}
