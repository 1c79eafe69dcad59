// A curve made tight.
ghost use Rattle.std.specs.Prelude.{◌≡◌, ◌↔◌, ◌≤◌, ℕ, List, [], length, map, All, None, IfOk};
ghost use Rattle.obd_base.specs.declared.points.Sign.{Sign as Turn};
ghost use Rattle.page_surface.specs.Polygon.{IsPolygon};
ghost use Rattle.page_surface.specs.Words.{reduced};
ghost use Rattle.curve_paths.specs.Curves.{IsCurve, twisted};
ghost use Rattle.curve_paths.specs.Twists.{exits_of, turned_by};
ghost use Rattle.tight_curves.specs.Closed.{cyclic_form, word_of};
ghost use Rattle.tight_curves.specs.Parts.{MadeTight};

use crate::part::placed_anew;
use crate::turns::take_turns_out;
use curve_paths::Curve;
use obd_base::{Exit, NoMemory};
use page_surface::Polygon;
use std::alloc::Global;

// The exits that are left of a curve without its turns, with their places among their own points.
fn tight_exits(alloc: Global, polygon: &Polygon, exits: &[Exit]) -> Result<Vec<Exit>, NoMemory>
    requires valid { IsPolygon polygon.now }
    requires curve { IsCurve polygon.now exits.now }
    requires few { length exits.now ≤ 32 }
    ensures made { IfOk result (λ tight. MadeTight polygon.now exits.now tight.items) }
    ensures fewer { IfOk result (λ tight. length tight.items ≤ length exits.now) }
{
    let mut part = Vec::new(alloc);
    part.extend_from_slice(exits)?;
    take_turns_out(polygon, exits, &mut part);
    placed_anew(alloc, polygon, exits, &part)
}

// The curve with some exits, and none where there are none.
fn curve_of(alloc: Global, polygon: &Polygon, exits: Vec<Exit>) -> Result<Option<Curve>, NoMemory>
    requires few { length exits.items ≤ 32 }
    requires curve { IsCurve polygon.now exits.items }
    ensures exits { IfOk result (λ curve. exits_of curve ≡ exits.items) }
    ensures none { IfOk result (λ curve. (curve ≡ None) ↔ (exits.items ≡ [])) }
{
    if exits.as_slice().is_empty() {
        return Ok(None);
    }
    Ok(Some(Curve::of(alloc, polygon, exits)?))
}

/// The curve made tight: innermost turns are taken out, one after another, until the word of what is left, read
/// round, has no pair to cancel. That word is the cyclic reduced form of the curve's word, up to where it is read
/// from. `None` exactly where that form has no letter, as for a curve that bounds a disk.
///
/// A twist about what is left makes of the words of all strands what a twist about the curve makes of them; where
/// nothing is left, the twist about the curve reduces the words and does no more. In no more steps than the cube of
/// the curve's exits, of which there are at most 32; memory for twice the exits. The form is this project's own.
pub fn made_tight(
    alloc: Global,
    polygon: &Polygon,
    curve: &Curve,
) -> Result<Option<Curve>, NoMemory>
    requires { IsCurve polygon.now curve.now }
    ensures made { IfOk result (λ made. MadeTight polygon.now curve.now (exits_of made)) }
    ensures none { IfOk result (λ made. (made ≡ None) ↔ (cyclic_form polygon.now (word_of curve.now) ≡ [])) }
    ensures few { IfOk result (λ made. length (exits_of made) ≤ length curve.now) }

    ensures twists { IfOk result (λ made. (sign : Turn) → (words : List (List ℕ))
        → twisted polygon.now (exits_of made) sign words ≡ twisted polygon.now curve.now sign words) }
    ensures reduces { IfOk result (λ made. (sign : Turn) → (words : List (List ℕ))
        → map (reduced polygon.now) (turned_by polygon.now (exits_of made) sign words) ≡ turned_by polygon.now curve.now sign words) }
    ensures turns { IfOk result (λ made. (sign : Turn) → (words : List (List ℕ)) → All (λ w. reduced polygon.now w ≡ w) words
        → turned_by polygon.now (exits_of made) sign words ≡ turned_by polygon.now curve.now sign words) }
{
    // That a polygon has sides says that it is one.
    let _ = polygon.sides();
    let exits = tight_exits(alloc, polygon, curve.exits())?;
    curve_of(alloc, polygon, exits)
}
