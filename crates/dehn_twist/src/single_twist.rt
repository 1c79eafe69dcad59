// A single Dehn twist carried out on a drawing.
ghost use Rattle.std.specs.Prelude.{◌≡◌, ℕ, ◌≤◌, length, Ok, Err, IfOk, IfErr, OnOk, OnErr};
ghost use Rattle.page_surface.specs.Drawing.{all_exits, words};
ghost use Rattle.curve_paths.specs.Curves.{IsCurve, twisted};
ghost use Rattle.curve_paths.specs.Twists.{AreWords, limited};
ghost use Rattle.drawing.specs.Tight.{IsTight};
ghost use Rattle.dehn_twist.specs.Twist.{twisted_drawing, unit_power};

use crate::surgery::surgery_of;
use curve_paths::Curve;
use drawing::Drawing;
use obd_base::{Items, NoMemory, SideNo, Sign};
use path_words::{TwistRefusal, by_power};
use std::alloc::Global;

// The words of the strands.
fn words_of(alloc: Global, drawing: &Drawing) -> Result<Items<Items<SideNo>>, NoMemory>
    requires { length (all_exits drawing.now.drawing) ≤ 4000 }
    ensures value { IfOk result (λ now. now ≡ words drawing.now.drawing) }
    ensures words { IfOk result (λ now. AreWords drawing.now.drawing.polygon now) }
{
    let _ = (drawing.points(), drawing.polygon().sides());
    drawing.words(alloc)
}

// The power that a single twist is.
fn power_of(sign: Sign) -> i32
    ensures { result ≡ unit_power sign }
{
    match sign {
        Sign::Plus => 1,
        Sign::Minus => -1,
    }
}

// Refuses a twist after which the words have more than 4,000 letters together.
fn check_letters(
    alloc: Global,
    drawing: &Drawing,
    curve: &Curve,
    sign: Sign,
) -> Result<(), TwistRefusal>
    requires curve { IsCurve drawing.now.drawing.polygon curve.now }
    requires few { length (all_exits drawing.now.drawing) ≤ 4000 }
    ensures few { OnOk result (limited (twisted drawing.now.drawing.polygon curve.now sign (words drawing.now.drawing)) ≡ Ok (twisted drawing.now.drawing.polygon curve.now sign (words drawing.now.drawing))) }
    ensures long { IfErr result (λ refusal. (count : ℕ) → refusal ≡ TwistRefusal.TooLong count
        → limited (twisted drawing.now.drawing.polygon curve.now sign (words drawing.now.drawing)) ≡ Err count) }
{
    let _ = curve.exits().len();
    let words = words_of(alloc, drawing)?;
    by_power(alloc, drawing.polygon(), Some(curve), power_of(sign), words)?;
    Ok(())
}

// The drawing after the twist.
fn twisted(alloc: Global, drawing: &Drawing, curve: &Curve, sign: Sign) -> Result<Drawing, NoMemory>
    requires curve { IsCurve drawing.now.drawing.polygon curve.now }
    requires few { length (all_exits drawing.now.drawing) ≤ 4000 }
    ensures drawing { IfOk result (λ now. now.drawing ≡ twisted_drawing drawing.now.drawing curve.now sign) }
    ensures tight { IfOk result (λ now. IsTight now.drawing) }
{
    let _ = (
        drawing.points(),
        curve.exits().len(),
        drawing.polygon().sides(),
    );
    let strands = surgery_of(alloc, drawing, curve, sign)?;
    let mut now = Drawing::embedded(alloc, drawing.polygon(), strands)?;
    now.tighten();
    Ok(now)
}

/// Carries a single Dehn twist along a curve out on a drawing: to the right for a positive sign, to the left for a
/// negative one. At each point where a strand meets the curve it gets a parallel copy of the curve, the chords are
/// rejoined, and what comes is made tight: the tight drawing whose words are the reduced images of the words before,
/// and these have at most 4,000 letters together.
///
/// `TooLong` comes exactly where these words have more than 4,000 letters together, with their number, and before
/// anything is drawn. After a refusal the drawing is as it was.
///
/// The words are reduced first, as by `path_words::by_power`. Beyond that linear in the points of the drawing and of
/// the surgery, which has as many points more as the curve has exits for each meeting with a strand: at most about
/// 4.1 million. The surgery is this project's own form of a known one.
pub fn twist(
    alloc: Global,
    drawing: &mut Drawing,
    curve: &Curve,
    sign: Sign,
) -> Result<(), TwistRefusal>
    requires curve { IsCurve drawing.old.drawing.polygon curve.now }
    requires few { length (all_exits drawing.old.drawing) ≤ 4000 }
    ensures drawing { OnOk result (drawing.new.drawing ≡ twisted_drawing drawing.old.drawing curve.now sign) }
    ensures turned { OnOk result (limited (twisted drawing.old.drawing.polygon curve.now sign (words drawing.old.drawing)) ≡ Ok (words drawing.new.drawing)) }
    ensures few { OnOk result (length (all_exits drawing.new.drawing) ≤ 4000) }
    ensures tight { OnOk result (IsTight drawing.new.drawing) }

    ensures long { IfErr result (λ refusal. (count : ℕ) → refusal ≡ TwistRefusal.TooLong count
        → limited (twisted drawing.old.drawing.polygon curve.now sign (words drawing.old.drawing)) ≡ Err count) }
    ensures refused { OnErr result (drawing.new ≡ drawing.old) }
{
    check_letters(alloc, drawing, curve, sign)?;
    *drawing = twisted(alloc, drawing, curve, sign)?;
    Ok(())
}
