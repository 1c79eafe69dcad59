// Powers of a Dehn twist on the words of all strands.
ghost use Rattle.std.specs.Prelude.{◌≡◌, ◌≢◌, ℕ, [], min, Ok, Err, IfOk, IfErr, IfSome, option_map};
ghost use Rattle.curve_paths.specs.Curves.{IsCurve};
ghost use Rattle.curve_paths.specs.Twists.{AreWords, by_power as words_by_power, exits_of, times};
ghost use Rattle.path_words.specs.Pushes.{push_of};

use crate::once::turned_once;
use crate::pushes::Pushes;
use crate::refusal::TwistRefusal;
use curve_paths::Curve;
use obd_base::{Items, SideNo, Sign};
use page_surface::Polygon;
use std::alloc::Global;

// How many single twists do what so many do. Where no push has a letter one reduces the words, and more do no more.
fn turns_needed(pushes: &Pushes, turns: u32) -> u32
    ensures needed { result ≢ turns → result ≡ min turns 1 }
    ensures empty { result ≢ turns → (k : ℕ) → push_of pushes.now k ≡ [] }
{
    if pushes.are_empty() {
        turns.min(1)
    } else {
        turns
    }
}

// So many single twists one after another, along a curve that crosses a side. Its pushes are made once.
fn repeated(
    alloc: Global,
    polygon: &Polygon,
    curve: &Curve,
    sign: Sign,
    turns: u32,
    words: Items<Items<SideNo>>,
) -> Result<Items<Items<SideNo>>, TwistRefusal>
    requires curve { IsCurve polygon.now curve.now }
    requires words { AreWords polygon.now words }
    ensures turned { IfOk result (λ now. times polygon.now curve.now sign turns words ≡ Ok now) }
    ensures words { IfOk result (λ now. AreWords polygon.now now) }
    ensures long { IfErr result (λ refusal. (count : ℕ) → refusal ≡ TwistRefusal.TooLong count
        → times polygon.now curve.now sign turns words ≡ Err count) }
{
    let pushes = Pushes::of(alloc, polygon, curve, sign)?;
    let mut now = words;
    for turn in 0..turns_needed(&pushes, turns) {
        now = turned_once(alloc, polygon, &pushes, now.as_slice())?;
    }
    Ok(now)
}

/// The words of all strands after a power of the Dehn twist along a curve: as many single twists one after another
/// as the power's absolute value says, to the right for a positive power and to the left for a negative one. Words
/// are listed by their arcs, and strand `i` runs from the gap after the second side of arc `i` to the gap after its
/// first side. `None` is a curve that crosses no side; it changes nothing.
///
/// `TooLong` comes exactly where after some single twist the words have more than 4,000 letters together, with
/// the number of the first such twist's letters. The pushes are made and reduced once for the power, in no more
/// steps than the square of twice the curve's exits; beyond that each single twist is linear in the letters of the
/// words and in those that are set, and a curve that bounds a disk takes one single twist for all. The form is this
/// project's own.
pub fn by_power(
    alloc: Global,
    polygon: &Polygon,
    curve: Option<&Curve>,
    power: i32,
    words: Items<Items<SideNo>>,
) -> Result<Items<Items<SideNo>>, TwistRefusal>
    requires curve { IfSome curve (λ c. IsCurve polygon.now c.now) }
    requires words { AreWords polygon.now words }
    ensures turned { IfOk result (λ now. words_by_power polygon.now (exits_of (option_map (λ c. c.now) curve.entry)) power words ≡ Ok now) }
    ensures words { IfOk result (λ now. AreWords polygon.now now) }
    ensures long { IfErr result (λ refusal. (count : ℕ) → refusal ≡ TwistRefusal.TooLong count
        → words_by_power polygon.now (exits_of (option_map (λ c. c.now) curve.entry)) power words ≡ Err count) }
{
    let Some(curve) = curve else {
        return Ok(words);
    };
    let sign = if power < 0 { Sign::Minus } else { Sign::Plus };
    repeated(alloc, polygon, curve, sign, power.unsigned_abs(), words)
}
