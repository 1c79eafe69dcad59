// The reduced image of a word, from the pushes along all sides.
ghost use Rattle.std.specs.Prelude.{◌≡◌, ◌<◌, ◌≤◌, ◌+◌, ◌-◌, ◌*◌, ◌%◌, ◌++◌, length, All, IfOk, OnOk};
ghost use Rattle.std.specs.List.{flat_map};
ghost use Rattle.page_surface.specs.Polygon.{sides};
ghost use Rattle.page_surface.specs.Words.{reduced};
ghost use Rattle.curve_paths.specs.Curves.{gap_before, passed, with_words};
ghost use Rattle.path_words.specs.Pushes.{IsPushTable, push_of};

use crate::pushes::Pushes;
use crate::stack::{put_letter, put_letters};
use obd_base::{NoMemory, SideNo};
use page_surface::Polygon;
use std::alloc::Global;

// The gap before a side.
fn previous_gap(polygon: &Polygon, side: SideNo) -> SideNo
    requires { side < sides polygon.now }
    ensures value { result ≡ gap_before polygon.now side }
    ensures in_range { result < sides polygon.now }
{
    let number = side.number();
    if number == 0 {
        SideNo::new(polygon.sides() - 1)
    } else {
        SideNo::new(number - 1)
    }
}

// The side after a side, counterclockwise.
fn next_side(polygon: &Polygon, side: SideNo) -> SideNo
    requires { side < sides polygon.now }
    ensures value { result ≡ (side + 1) % sides polygon.now }
    ensures in_range { result < sides polygon.now }
{
    let sides = polygon.sides();
    let next = side.number() + 1;
    if next == sides {
        SideNo::new(0)
    } else {
        SideNo::new(next)
    }
}

// How many sides are passed counterclockwise from one gap to another.
fn passed_count(polygon: &Polygon, from: SideNo, to: SideNo) -> u32
    requires from { from < sides polygon.now }
    requires to { to < sides polygon.now }
    ensures { result ≡ (to + sides polygon.now - from) % sides polygon.now }
{
    let (from, to) = (from.number(), to.number());
    if from <= to {
        to - from
    } else {
        to + polygon.sides() - from
    }
}

// Sets what the twist sets on the way from one gap to another, counterclockwise.
fn put_passed(
    polygon: &Polygon,
    pushes: &Pushes,
    word: &mut Vec<SideNo>,
    from: SideNo,
    to: SideNo,
) -> Result<(), NoMemory>
    requires table { IsPushTable polygon.now pushes.now }
    requires in_range { All (λ s. s < sides polygon.now) word.old.items }
    requires is_reduced { reduced polygon.now word.old.items ≡ word.old.items }
    requires from { from < sides polygon.now }
    requires to { to < sides polygon.now }
    ensures word { OnOk result (word.new.items ≡ reduced polygon.now (word.old.items ++ flat_map (push_of pushes.now) (passed polygon.now from to))) }
    ensures in_range { OnOk result (All (λ s. s < sides polygon.now) word.new.items) }
    ensures is_reduced { OnOk result (reduced polygon.now word.new.items ≡ word.new.items) }
{
    let mut side = from;
    for step in 0..passed_count(polygon, from, to) {
        side = next_side(polygon, side);
        put_letters(polygon, word, pushes.along(side))?;
    }
    Ok(())
}

// The reduced image of a word, from the pushes along all sides. It is reduced as it is built. Linear in the letters
// of the word and in those that are set.
pub(crate) fn image_of(
    alloc: Global,
    polygon: &Polygon,
    pushes: &Pushes,
    word: &[SideNo],
    from: SideNo,
    to: SideNo,
) -> Result<Vec<SideNo>, NoMemory>
    requires table { IsPushTable polygon.now pushes.now }
    requires in_range { All (λ s. s < sides polygon.now) word.now }
    requires from { from < sides polygon.now }
    requires to { to < sides polygon.now }
    ensures value { IfOk result (λ made. made.items ≡ reduced polygon.now (with_words polygon.now (push_of pushes.now) word.now from to)) }
    ensures in_range { IfOk result (λ made. All (λ s. s < sides polygon.now) made.items) }
    ensures short { IfOk result (λ made. length made.items ≤ (length word.now + 1) * 32768 + length word.now) }
{
    let mut image = Vec::new(alloc);
    let mut gap = from;
    for side in word {
        let end = previous_gap(polygon, *side);
        put_passed(polygon, pushes, &mut image, gap, end)?;
        put_letter(polygon, &mut image, *side)?;
        gap = polygon.pair(*side);
    }
    put_passed(polygon, pushes, &mut image, gap, to)?;
    Ok(image)
}
