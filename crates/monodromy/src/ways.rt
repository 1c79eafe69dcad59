// The ways out of the polygon along the strands of some words, there and back, and where each goes next.
ghost use Rattle.std.specs.Prelude.{◌≡◌, ◌+◌, ◌<◌, All, length, IfOk, OnOk};
ghost use Rattle.page_surface.specs.Polygon.{sides};
ghost use Rattle.curve_paths.specs.Twists.{AreWords, letters};

use obd_base::{ArcNo, Items, NoMemory, SideNo};
use page_surface::Polygon;
use std::alloc::Global;

/// A way out of the polygon, at a letter of a word that is gone along there or back: the side that it leaves through, and
/// its goal, by which it leaves next. Goals are numbered counterclockwise from the side by which it comes in again: that
/// side, the end of it, the side after it, and so on.
#[derive(Clone, Copy)]
pub(crate) struct Way {
    pub(crate) side: SideNo,
    pub(crate) goal: u32,
}

// The goal that a side is, for a way that comes in by another.
fn goal(polygon: &Polygon, entered: SideNo, side: SideNo) -> u32
    requires entered { entered < sides polygon.now }
    requires side { side < sides polygon.now }
    ensures { result < 32 }
{
    let sides = polygon.sides();
    2 * ((side.number() + sides - entered.number()) % sides)
}

// Appends the ways out along a word that ends at the end of a side.
fn put_ways(
    polygon: &Polygon,
    ways: &mut Vec<Way>,
    word: &[SideNo],
    end: SideNo,
) -> Result<(), NoMemory>
    requires in_range { All (λ s. s < sides polygon.now) word.now }
    requires end { end < sides polygon.now }
    ensures { OnOk result (length ways.new.items ≡ length ways.old.items + length word.now) }
{
    // A polygon is valid.
    let _ = polygon.sides();
    for (at, side) in word.iter().enumerate() {
        let entered = polygon.pair(*side);
        let goal = match word.get(at + 1) {
            Some(next) => goal(polygon, entered, *next),
            None => goal(polygon, entered, end) + 1,
        };
        ways.push(Way { side: *side, goal })?;
    }
    Ok(())
}

// The word of the way back.
fn inverse(alloc: Global, polygon: &Polygon, word: &[SideNo]) -> Result<Vec<SideNo>, NoMemory>
    requires { All (λ s. s < sides polygon.now) word.now }
    ensures in_range { IfOk result (λ back. All (λ s. s < sides polygon.now) back.items) }
    ensures size { IfOk result (λ back. length back.items ≡ length word.now) }
{
    let _ = polygon.sides();
    let mut back = Vec::new(alloc);
    for side in word.iter().rev() {
        back.push(polygon.pair(*side))?;
    }
    Ok(back)
}

/// The ways out along all strands, by their words: those along each strand, and then those back along it, the last letter
/// first. Linear in the letters.
pub(crate) fn ways_of(
    alloc: Global,
    polygon: &Polygon,
    words: &[Items<SideNo>],
) -> Result<Vec<Way>, NoMemory>
    requires { AreWords polygon.now words.now }
    ensures { IfOk result (λ ways. length ways.items ≡ letters words.now + letters words.now) }
{
    let _ = polygon.sides();
    let mut ways = Vec::new(alloc);
    for (arc, word) in words.iter().enumerate() {
        let first_side = polygon.first_side(ArcNo::new(arc as u32));
        let back = inverse(alloc, polygon, word.as_slice())?;
        put_ways(polygon, &mut ways, word.as_slice(), first_side)?;
        put_ways(polygon, &mut ways, &back, polygon.pair(first_side))?;
    }
    Ok(ways)
}
