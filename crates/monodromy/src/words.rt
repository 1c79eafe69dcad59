// The words of all strands after a twist word, without a drawing.
ghost use Rattle.std.specs.Prelude.{◌≡◌, map, All, Ok, Err, IfOk, IfErr, IfSome};
ghost use Rattle.curve_paths.specs.Curves.{IsCurve, identity_words};
ghost use Rattle.curve_paths.specs.Twists.{AreWords, by_entries, by_entry, exits_of, words_after};
ghost use Rattle.curve_paths.specs.declared.twist.TooLong.{TooLong as Long};

use crate::curve::curve_of;
use crate::refusal::MonodromyRefusal;
use curve_paths::{Curve, TooLong, Twist};
use drawing::Drawing;
use obd_base::{Items, NoMemory, SideNo};
use page_surface::Polygon;
use path_words::{TwistRefusal, by_power};
use std::alloc::Global;

// The words after one entry.
fn turned_by_entry(
    alloc: Global,
    polygon: &Polygon,
    curves: &[Option<Curve>],
    number: u64,
    twist: &Twist,
    words: Items<Items<SideNo>>,
) -> Result<Items<Items<SideNo>>, MonodromyRefusal>
    requires curves { All (λ curve. IfSome curve (IsCurve polygon.now)) curves.now }
    requires words { AreWords polygon.now words }
    ensures turned { IfOk result (λ now. by_entry polygon.now (map exits_of curves.now) number twist.now words ≡ Ok now) }
    ensures words { IfOk result (λ now. AreWords polygon.now now) }
    ensures long { IfErr result (λ refusal. (long : Long) → refusal ≡ MonodromyRefusal.TooLong long
        → by_entry polygon.now (map exits_of curves.now) number twist.now words ≡ Err long) }
{
    match by_power(
        alloc,
        polygon,
        curve_of(curves, twist.curve),
        twist.power,
        words,
    ) {
        Ok(words) => Ok(words),
        Err(TwistRefusal::TooLong { letters }) => Err(MonodromyRefusal::TooLong(TooLong {
            twist: number,
            letters,
        })),
        Err(TwistRefusal::NoMemory) => Err(MonodromyRefusal::NoMemory),
    }
}

// The words after all entries, the first one first.
fn turned_by_word(
    alloc: Global,
    polygon: &Polygon,
    curves: &[Option<Curve>],
    twists: &[Twist],
    first: Items<Items<SideNo>>,
) -> Result<Items<Items<SideNo>>, MonodromyRefusal>
    requires curves { All (λ curve. IfSome curve (IsCurve polygon.now)) curves.now }
    requires words { AreWords polygon.now first }
    ensures turned { IfOk result (λ now. by_entries polygon.now (map exits_of curves.now) 0 twists.now first ≡ Ok now) }
    ensures words { IfOk result (λ now. AreWords polygon.now now) }
    ensures long { IfErr result (λ refusal. (long : Long) → refusal ≡ MonodromyRefusal.TooLong long
        → by_entries polygon.now (map exits_of curves.now) 0 twists.now first ≡ Err long) }
{
    let mut words = first;
    for (number, twist) in twists.iter().enumerate() {
        words = turned_by_entry(alloc, polygon, curves, number as u64, twist, words)?;
    }
    Ok(words)
}

// The words of the identity drawing.
fn first_words(alloc: Global, polygon: &Polygon) -> Result<Items<Items<SideNo>>, NoMemory>
    ensures value { IfOk result (λ words. words ≡ identity_words polygon.now) }
    ensures words { IfOk result (λ words. AreWords polygon.now words) }
{
    let _ = polygon.sides();
    let drawing = Drawing::identity(alloc, polygon)?;
    drawing.words(alloc)
}

/// The words of all strands after a twist word along some curves, each by its number in the list. `None` is a curve that
/// crosses no side. `TooLong` comes as for `drawn`, which draws these words. For each single twist linear in the letters of the
/// words and in those that are set.
pub fn words_of(
    alloc: Global,
    polygon: &Polygon,
    curves: &[Option<Curve>],
    twists: &[Twist],
) -> Result<Items<Items<SideNo>>, MonodromyRefusal>
    requires { All (λ curve. IfSome curve (IsCurve polygon.now)) curves.now }
    ensures value { IfOk result (λ words. words_after polygon.now (map exits_of curves.now) twists.now ≡ Ok words) }
    ensures words { IfOk result (λ words. AreWords polygon.now words) }
    ensures long { IfErr result (λ refusal. (long : Long) → refusal ≡ MonodromyRefusal.TooLong long
        → words_after polygon.now (map exits_of curves.now) twists.now ≡ Err long) }
{
    let first = first_words(alloc, polygon)?;
    turned_by_word(alloc, polygon, curves, twists, first)
}
