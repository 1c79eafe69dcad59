// Each of some curves made tight.
ghost use Rattle.std.specs.Prelude.{◌≡◌, ℕ, List, [], length, map, slice_index_or, option_map, All, IfOk, IfSome};
ghost use Rattle.curve_paths.specs.Curves.{IsCurve};
ghost use Rattle.curve_paths.specs.Twists.{exits_of, words_after};
ghost use Rattle.curve_paths.specs.declared.twist.Twist.{Twist};
ghost use Rattle.tight_curves.specs.Parts.{MadeTight};

use crate::made_tight;
use curve_paths::Curve;
use obd_base::{Items, NoMemory};
use page_surface::Polygon;
use std::alloc::Global;

// A curve made tight, where there is one.
fn tight_if_some(
    alloc: Global,
    polygon: &Polygon,
    curve: Option<&Curve>,
) -> Result<Option<Curve>, NoMemory>
    requires { IfSome curve (λ c. IsCurve polygon.now c.now) }
    ensures { IfOk result (λ made. MadeTight polygon.now (exits_of (option_map (λ c. c.now) curve.entry)) (exits_of made)) }
{
    match curve {
        Some(curve) => made_tight(alloc, polygon, curve),
        None => Ok(None),
    }
}

/// Each of some curves made tight, in their order; `None` is a curve that crosses no side. The words of all strands
/// after a twist word along what is left of the curves are those after the same twist word along the curves, or it is
/// refused at the same entry with the same number of letters. For each curve no more steps than the cube of its exits.
pub fn all_made_tight(
    alloc: Global,
    polygon: &Polygon,
    curves: &[Option<Curve>],
) -> Result<Items<Option<Curve>>, NoMemory>
    requires { All (λ curve. IfSome curve (IsCurve polygon.now)) curves.now }
    ensures each { IfOk result (λ made. length made ≡ length curves.now) }
    ensures made { IfOk result (λ made. (i : ℕ) → MadeTight polygon.now (slice_index_or (map exits_of curves.now) i []) (slice_index_or (map exits_of made) i [])) }
    ensures words { IfOk result (λ made. (twists : List Twist) → words_after polygon.now (map exits_of made) twists ≡ words_after polygon.now (map exits_of curves.now) twists) }
{
    // That a polygon has sides says that it is one.
    let _ = polygon.sides();
    let mut made = Items::new(alloc);
    for curve in curves {
        made.push(tight_if_some(alloc, polygon, curve.as_ref())?)?;
    }
    Ok(made)
}
