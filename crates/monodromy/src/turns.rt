// Powers of a single curve's twist on a tight drawing.
ghost use Rattle.std.specs.Prelude.{◌≡◌, ◌≤◌, ℕ, length, option_map, Ok, Err, IfErr, IfSome, OnOk};
ghost use Rattle.page_surface.specs.Drawing.{all_exits, words};
ghost use Rattle.curve_paths.specs.Curves.{IsCurve};
ghost use Rattle.curve_paths.specs.Twists.{by_power as words_by_power, exits_of, times};
ghost use Rattle.drawing.specs.Tight.{IsTight};

use curve_paths::Curve;
use dehn_twist::twist;
use drawing::Drawing;
use obd_base::Sign;
use path_words::TwistRefusal;
use std::alloc::Global;

// So many single twists, one after another.
fn repeated(
    alloc: Global,
    drawing: &mut Drawing,
    curve: &Curve,
    sign: Sign,
    turns: u32,
) -> Result<(), TwistRefusal>
    requires curve { IsCurve drawing.old.drawing.polygon curve.now }
    requires few { length (all_exits drawing.old.drawing) ≤ 4000 }
    requires tight { IsTight drawing.old.drawing }
    ensures turned { OnOk result (times drawing.old.drawing.polygon curve.now sign turns (words drawing.old.drawing) ≡ Ok (words drawing.new.drawing)) }
    ensures polygon { OnOk result (drawing.new.drawing.polygon ≡ drawing.old.drawing.polygon) }
    ensures few { OnOk result (length (all_exits drawing.new.drawing) ≤ 4000) }
    ensures tight { OnOk result (IsTight drawing.new.drawing) }
    ensures long { IfErr result (λ refusal. (count : ℕ) → refusal ≡ TwistRefusal.TooLong count
        → times drawing.old.drawing.polygon curve.now sign turns (words drawing.old.drawing) ≡ Err count) }
{
    // A curve has an exit.
    let _ = curve.exits().len();
    for turn in 0..turns {
        twist(alloc, drawing, curve, sign)?;
    }
    Ok(())
}

/// Carries a power of the twist along a curve out on a tight drawing: as many single twists as its absolute value
/// says, to the right for a positive power. `None` is a curve that crosses no side; it changes nothing.
pub(crate) fn by_power(
    alloc: Global,
    drawing: &mut Drawing,
    curve: Option<&Curve>,
    power: i32,
) -> Result<(), TwistRefusal>
    requires curve { IfSome curve (λ c. IsCurve drawing.old.drawing.polygon c.now) }
    requires few { length (all_exits drawing.old.drawing) ≤ 4000 }
    requires tight { IsTight drawing.old.drawing }
    ensures turned { OnOk result (words_by_power drawing.old.drawing.polygon (exits_of (option_map (λ c. c.now) curve.entry)) power (words drawing.old.drawing) ≡ Ok (words drawing.new.drawing)) }
    ensures polygon { OnOk result (drawing.new.drawing.polygon ≡ drawing.old.drawing.polygon) }
    ensures few { OnOk result (length (all_exits drawing.new.drawing) ≤ 4000) }
    ensures tight { OnOk result (IsTight drawing.new.drawing) }
    ensures long { IfErr result (λ refusal. (count : ℕ) → refusal ≡ TwistRefusal.TooLong count
        → words_by_power drawing.old.drawing.polygon (exits_of (option_map (λ c. c.now) curve.entry)) power (words drawing.old.drawing) ≡ Err count) }
{
    let Some(curve) = curve else {
        return Ok(());
    };
    let sign = if power < 0 { Sign::Minus } else { Sign::Plus };
    repeated(alloc, drawing, curve, sign, power.unsigned_abs())
}
