// The drawing of a whole twist word.
ghost use Rattle.std.specs.Prelude.{◌≡◌, ◌≤◌, ℕ, length, map, All, Ok, Err, IfOk, IfErr, IfSome, OnOk};
ghost use Rattle.page_surface.specs.Drawing.{all_exits, words};
ghost use Rattle.curve_paths.specs.Curves.{IsCurve};
ghost use Rattle.curve_paths.specs.Twists.{by_entries, by_entry, exits_of, words_after};
ghost use Rattle.drawing.specs.Tight.{IsTight};
ghost use Rattle.monodromy.specs.Drawn.{IsDrawn};
ghost use Rattle.curve_paths.specs.declared.twist.TooLong.{TooLong as Long};

use crate::curve::curve_of;
use crate::direct::drawn_directly;
use crate::refusal::MonodromyRefusal;
use crate::turns::by_power;
use crate::words::words_of;
use curve_paths::{Curve, TooLong, Twist};
use drawing::Drawing;
use page_surface::Polygon;
use path_words::TwistRefusal;
use std::alloc::Global;
use tight_curves::all_made_tight;

// One entry of a twist word, along tight curves.
fn turn_by_entry(
    alloc: Global,
    curves: &[Option<Curve>],
    number: u64,
    twist: &Twist,
    drawing: &mut Drawing,
) -> Result<(), MonodromyRefusal>
    requires curves { All (λ curve. IfSome curve (IsCurve drawing.old.drawing.polygon)) curves.now }
    requires few { length (all_exits drawing.old.drawing) ≤ 4000 }
    requires tight { IsTight drawing.old.drawing }
    ensures turned { OnOk result (by_entry drawing.old.drawing.polygon (map exits_of curves.now) number twist.now (words drawing.old.drawing) ≡ Ok (words drawing.new.drawing)) }
    ensures polygon { OnOk result (drawing.new.drawing.polygon ≡ drawing.old.drawing.polygon) }
    ensures few { OnOk result (length (all_exits drawing.new.drawing) ≤ 4000) }
    ensures tight { OnOk result (IsTight drawing.new.drawing) }
    ensures long { IfErr result (λ refusal. (long : Long) → refusal ≡ MonodromyRefusal.TooLong long
        → by_entry drawing.old.drawing.polygon (map exits_of curves.now) number twist.now (words drawing.old.drawing) ≡ Err long) }
{
    match by_power(alloc, drawing, curve_of(curves, twist.curve), twist.power) {
        Ok(()) => Ok(()),
        Err(TwistRefusal::TooLong { letters }) => Err(MonodromyRefusal::TooLong(TooLong {
            twist: number,
            letters,
        })),
        Err(TwistRefusal::NoMemory) => Err(MonodromyRefusal::NoMemory),
    }
}

// All entries of a twist word, along tight curves, the first one first.
fn turn_by_word(
    alloc: Global,
    curves: &[Option<Curve>],
    twists: &[Twist],
    drawing: &mut Drawing,
) -> Result<(), MonodromyRefusal>
    requires curves { All (λ curve. IfSome curve (IsCurve drawing.old.drawing.polygon)) curves.now }
    requires few { length (all_exits drawing.old.drawing) ≤ 4000 }
    requires tight { IsTight drawing.old.drawing }
    ensures turned { OnOk result (by_entries drawing.old.drawing.polygon (map exits_of curves.now) 0 twists.now (words drawing.old.drawing) ≡ Ok (words drawing.new.drawing)) }
    ensures polygon { OnOk result (drawing.new.drawing.polygon ≡ drawing.old.drawing.polygon) }
    ensures few { OnOk result (length (all_exits drawing.new.drawing) ≤ 4000) }
    ensures tight { OnOk result (IsTight drawing.new.drawing) }
    ensures long { IfErr result (λ refusal. (long : Long) → refusal ≡ MonodromyRefusal.TooLong long
        → by_entries drawing.old.drawing.polygon (map exits_of curves.now) 0 twists.now (words drawing.old.drawing) ≡ Err long) }
{
    for (number, twist) in twists.iter().enumerate() {
        turn_by_entry(alloc, curves, number as u64, twist, drawing)?;
    }
    Ok(())
}

// The drawing of a twist word along tight curves.
fn drawn_in_full(
    alloc: Global,
    polygon: &Polygon,
    curves: &[Option<Curve>],
    twists: &[Twist],
) -> Result<Drawing, MonodromyRefusal>
    requires { All (λ curve. IfSome curve (IsCurve polygon.now)) curves.now }
    ensures drawn { IfOk result (λ drawing. IsDrawn polygon.now (words drawing.drawing) drawing.drawing) }
    ensures words { IfOk result (λ drawing. words_after polygon.now (map exits_of curves.now) twists.now ≡ Ok (words drawing.drawing)) }
    ensures long { IfErr result (λ refusal. (long : Long) → refusal ≡ MonodromyRefusal.TooLong long
        → words_after polygon.now (map exits_of curves.now) twists.now ≡ Err long) }
{
    let _ = polygon.sides();
    let mut drawing = Drawing::identity(alloc, polygon)?;
    turn_by_word(alloc, curves, twists, &mut drawing)?;
    let _ = drawing.points();
    Ok(drawing)
}

/// The drawing of a twist word along some curves, each by its number in the list: the entries are carried out on the
/// identity drawing one after another, the first one first, each as so many single twists. It is the tight drawing of
/// the words of the arcs' images, and these have at most 4,000 letters together after each single twist. `None` is a
/// curve that crosses no side.
///
/// `TooLong` comes exactly where after some single twist the words have more than 4,000 letters together, and tells the
/// entry and the letters of the first such twist.
///
/// The words are found first, for each single twist linear in the letters that are set; powers along a curve that bounds a
/// disk cost no more than one single twist. Their tight drawing is then made directly, at the cost of 13 sorts of twice
/// their letters and in memory linear in them, and tested. That this finds it always isn't proved here, so what doesn't
/// pass the test would be drawn by carrying strands along: from the identity drawing on, each single twist along curves
/// made tight, at the cost of `dehn_twist::twist`.
pub fn drawn(
    alloc: Global,
    polygon: &Polygon,
    curves: &[Option<Curve>],
    twists: &[Twist],
) -> Result<Drawing, MonodromyRefusal>
    requires { All (λ curve. IfSome curve (IsCurve polygon.now)) curves.now }
    ensures words { IfOk result (λ drawing. words_after polygon.now (map exits_of curves.now) twists.now ≡ Ok (words drawing.drawing)) }
    ensures drawn { IfOk result (λ drawing. IsDrawn polygon.now (words drawing.drawing) drawing.drawing) }
    ensures long { IfErr result (λ refusal. (long : Long) → refusal ≡ MonodromyRefusal.TooLong long
        → words_after polygon.now (map exits_of curves.now) twists.now ≡ Err long) }
{
    let words = words_of(alloc, polygon, curves, twists)?;
    match drawn_directly(alloc, polygon, words.as_slice())? {
        Some(drawing) => Ok(drawing),
        None => {
            let tight = all_made_tight(alloc, polygon, curves)?;
            drawn_in_full(alloc, polygon, tight.as_slice(), twists)
        }
    }
}
