// Innermost turns of a part of a curve, found and taken out.
ghost use Rattle.std.specs.Prelude.{◌≡◌, ◌<◌, ◌≤◌, length, All, IfNone, IfSome};
ghost use Rattle.std.specs.List.{list_any};
ghost use Rattle.page_surface.specs.Polygon.{IsPolygon, partner, sides};
ghost use Rattle.curve_paths.specs.Curves.{IsCurve, curve_points};
ghost use Rattle.tight_curves.specs.Closed.{HasNoCyclicPair, word_of};
ghost use Rattle.tight_curves.specs.Parts.{IsPart};
ghost use Rattle.tight_curves.specs.Turns.{IsLoosened, IsTurnAt, after, leaves_between, turns_back, without_turn};

use obd_base::{Exit, SideNo};
use page_surface::Polygon;

// How many points a curve has on a side. Linear in its exits.
pub(crate) fn points_on(polygon: &Polygon, exits: &[Exit], side: SideNo) -> u32
    requires in_range { All (λ e. e.side < sides polygon.now) exits.now }
    requires few { length exits.now ≤ 32 }
    ensures { result ≡ curve_points polygon.now exits.now side }
{
    let mut count = 0;
    for exit in exits {
        if exit.side == side {
            count += 1;
        }
        if polygon.pair(exit.side) == side {
            count += 1;
        }
    }
    count
}

// Some exit leaves by a side strictly between two places.
fn has_between(part: &[Exit], side: SideNo, from: u32, to: u32) -> bool
    ensures { result ≡ list_any (leaves_between side from to) part.now }
{
    for exit in part {
        let place = exit.place;
        if exit.side == side && ((from < place && place < to) || (to < place && place < from)) {
            return true;
        }
    }
    false
}

// Two exits that follow one another are an innermost turn. Linear in the exits where they come back through one side.
fn is_turn(polygon: &Polygon, exits: &[Exit], part: &[Exit], out: Exit, back: Exit) -> bool
    requires in_range { All (λ e. e.side < sides polygon.now) exits.now }
    requires few { length exits.now ≤ 32 }
    requires side { out.side < sides polygon.now }
    requires out { out.place < curve_points polygon.now exits.now out.side }
    requires back { back.side ≡ partner polygon.now out.side → back.place < curve_points polygon.now exits.now out.side }
    ensures { result ≡ turns_back polygon.now exits.now part.now out back }
{
    if back.side != polygon.pair(out.side) {
        return false;
    }
    let last = points_on(polygon, exits, out.side) - 1;
    !has_between(part, out.side, out.place, last - back.place)
        && !has_between(part, back.side, last - out.place, back.place)
}

// The number of the exit after an exit, read round.
fn next(part: &[Exit], at: usize) -> usize
    requires { at < length part.now }
    ensures value { result ≡ after (length part.now) at }
    ensures within { result < length part.now }
{
    if at + 1 == part.len() { 0 } else { at + 1 }
}

// Some exit of a part that makes an innermost turn with the exit after it. In no more steps than the square of the exits.
fn some_turn(polygon: &Polygon, exits: &[Exit], part: &[Exit]) -> Option<usize>
    requires valid { IsPolygon polygon.now }
    requires curve { IsCurve polygon.now exits.now }
    requires few { length exits.now ≤ 32 }
    requires part { IsPart polygon.now exits.now part.now }
    ensures found { IfSome result (λ at. IsTurnAt polygon.now exits.now part.now at) }
    ensures none { IfNone result (HasNoCyclicPair polygon.now (word_of part.now)) }
{
    for at in 0..part.len() {
        if is_turn(polygon, exits, part, part[at], part[next(part, at)]) {
            return Some(at);
        }
    }
    None
}

// Takes an exit out of a part, and the exit after it, read round.
fn take_out(part: &mut Vec<Exit>, at: usize)
    requires at { at < length part.old.items }
    requires two { 2 ≤ length part.old.items }
    ensures { part.new.items ≡ without_turn at part.old.items }
{
    if at + 1 == part.len() {
        part.remove(at);
        part.remove(0);
    } else {
        part.remove(at);
        part.remove(at);
    }
}

// Takes innermost turns out of a part of a curve until none is left. In no more steps than the cube of the exits.
pub(crate) fn take_turns_out(polygon: &Polygon, exits: &[Exit], part: &mut Vec<Exit>)
    requires valid { IsPolygon polygon.now }
    requires curve { IsCurve polygon.now exits.now }
    requires few { length exits.now ≤ 32 }
    requires part { IsPart polygon.now exits.now part.old.items }
    ensures less { IsLoosened polygon.now exits.now part.old.items part.new.items }
    ensures free { HasNoCyclicPair polygon.now (word_of part.new.items) }
{
    while let Some(at) = some_turn(polygon, exits, part) {
        take_out(part, at);
    }
}
