// Nested turns, taken out at once: where a turn is taken out what is left is linked anew, and the turns that this makes
// are found by a look beside it.
ghost use Rattle.std.specs.Prelude.{◌≡◌, ℕ, ◌+◌, ◌<◌, ◌≤◌, ◌^◌, length, IfNone, IfSome};
ghost use Rattle.page_surface.specs.Drawing.{IsEmbedded, all_exits};
ghost use Rattle.page_surface.specs.Polygon.{arc_count};
ghost use Rattle.drawing.specs.LeftTurns.{IsTurnAt};
ghost use Rattle.drawing.specs.Links.{AreLinksOf};
ghost use Rattle.drawing.specs.Pieces.{span_count};
ghost use Rattle.drawing.specs.ThinTables.{is_gone};
ghost use Rattle.drawing.specs.Thinned.{TurnsGone};

use crate::layout::Layout;
use crate::left_turns::{Turn, mark, turn_at, unlink_turn, way_link};
use crate::links::Link;
use crate::turn_links::Links;
use obd_base::{Items, StrandNo};

// The turn whose first exit has its entry at a number.
fn find_turn(
    layout: &Layout,
    strands_at: &[StrandNo],
    links: &Links,
    gone: &[bool],
    number: u32,
) -> Option<Turn>
    requires embedded { IsEmbedded layout.now.drawing }
    requires size { span_count layout.now.drawing ≤ length gone.now }
    requires linked { AreLinksOf layout.now.drawing (is_gone gone.now) links.now.sides links.now.ways.items }
    ensures { IfSome result (λ t. IsTurnAt layout.now.drawing (is_gone gone.now) t) }
{
    let strand = *strands_at.get(number as usize)?;
    let at = *links.owners.as_slice().get(number as usize)?;
    if strand.number() < layout.polygon().sides() / 2 {
        turn_at(layout, links, gone, strand, at)
    } else {
        None
    }
}

// Takes that turn out, where there is one, and links what is left.
fn take_at(
    layout: &Layout,
    strands_at: &[StrandNo],
    links: &mut Links,
    gone: &mut [bool],
    number: u32,
) -> Option<Turn>
    requires embedded { IsEmbedded layout.now.drawing }
    requires size { span_count layout.now.drawing ≤ length gone.old }
    requires linked { AreLinksOf layout.now.drawing (is_gone gone.old) links.old.sides links.old.ways.items }
    ensures linked { AreLinksOf layout.now.drawing (is_gone gone.new) links.new.sides links.new.ways.items }
    ensures strand { IfSome result (λ t. t.strand < arc_count layout.now.drawing.polygon) }
    ensures taken { IfSome result (λ t. (turns : ℕ) → TurnsGone layout.now.drawing (is_gone gone.old) turns → TurnsGone layout.now.drawing (is_gone gone.new) (turns + 1)) }
    ensures none { IfNone result (gone.new ≡ gone.old) }
{
    let turn = find_turn(layout, strands_at, links, gone, number)?;
    mark(&turn, gone);
    unlink_turn(&turn, links);
    Some(turn)
}

// Puts a number last of those at which a turn is still to be looked for. Where there is no room it is dropped: the next
// pass finds the turn.
fn put(waiting: &mut [u32], count: usize, number: u32) -> usize
    requires { count ≤ length waiting.old }
    ensures fits { result ≤ length waiting.new }
    ensures few { result ≤ count + 1 }
{
    if count < waiting.len() {
        waiting[count] = number;
        count + 1
    } else {
        count
    }
}

// Puts the numbers on both sides of two.
fn put_around(links: &Items<Link>, one: u32, other: u32, waiting: &mut [u32], count: usize) -> usize
    requires { count ≤ length waiting.old }
    ensures fits { result ≤ length waiting.new }
    ensures few { result ≤ count + 2 }
{
    let low = one.min(other) as usize;
    let high = one.max(other) as usize;
    if low < links.len() && high < links.len() {
        let next = put(waiting, count, links.item(low).before);
        put(waiting, next, links.item(high).after)
    } else {
        count
    }
}

// Puts the entry of the exit before a turn.
fn put_before(
    layout: &Layout,
    ways: &[Items<Link>],
    turn: &Turn,
    waiting: &mut [u32],
    count: usize,
) -> usize
    requires embedded { IsEmbedded layout.now.drawing }
    requires strand { turn.now.strand < arc_count layout.now.drawing.polygon }
    requires room { count ≤ length waiting.old }
    ensures fits { result ≤ length waiting.new }
    ensures few { result ≤ count + 1 }
{
    let exits = layout.exits(turn.strand);
    match way_link(ways, turn.strand, turn.at) {
        Some(link) if (link.before as usize) < exits.len() => {
            let entry = layout.entry(exits[link.before as usize]);
            put(waiting, count, layout.spot(entry))
        }
        _ => count,
    }
}

// Puts all numbers at which there may be a turn when one is gone: the chord of a turn ends at neighbours, and either its
// exits or these have become neighbours.
fn put_beside(
    layout: &Layout,
    links: &Links,
    turn: &Turn,
    waiting: &mut [u32],
    count: usize,
) -> usize
    requires embedded { IsEmbedded layout.now.drawing }
    requires strand { turn.now.strand < arc_count layout.now.drawing.polygon }
    requires room { count ≤ length waiting.old }
    ensures fits { result ≤ length waiting.new }
    ensures few { result ≤ count + 5 }
{
    let count = put_before(layout, &links.ways, turn, waiting, count);
    let count = put_around(&links.sides, turn.entry, turn.back, waiting, count);
    put_around(&links.sides, turn.out, turn.through, waiting, count)
}

// Takes out the turn at a number, and those that this makes; answers how many are out then.
fn settle(
    layout: &Layout,
    strands_at: &[StrandNo],
    links: &mut Links,
    gone: &mut [bool],
    waiting: &mut [u32],
    number: u32,
    before: u32,
) -> u32
    requires embedded { IsEmbedded layout.now.drawing }
    requires few { length (all_exits layout.now.drawing) < 2 ^ 28 }
    requires size { span_count layout.now.drawing ≤ length gone.old }
    requires linked { AreLinksOf layout.now.drawing (is_gone gone.old) links.old.sides links.old.ways.items }
    requires taken { TurnsGone layout.now.drawing (is_gone gone.old) before }
    ensures linked { AreLinksOf layout.now.drawing (is_gone gone.new) links.new.sides links.new.ways.items }
    ensures taken { TurnsGone layout.now.drawing (is_gone gone.new) result }
    ensures more { before ≤ result }
{
    let mut turns = before;
    let mut count = put(waiting, 0, number);
    while count > 0 {
        count -= 1;
        if let Some(turn) = take_at(layout, strands_at, links, gone, waiting[count]) {
            count = put_beside(layout, links, &turn, waiting, count);
            turns += 1;
        }
    }
    turns
}

// Takes out all turns of what is left, and those that this makes; answers how many are out then. Linear in the exits
// and sides.
pub(crate) fn take_nested(
    layout: &Layout,
    strands_at: &[StrandNo],
    links: &mut Links,
    gone: &mut [bool],
    waiting: &mut [u32],
    before: u32,
) -> u32
    requires embedded { IsEmbedded layout.now.drawing }
    requires few { length (all_exits layout.now.drawing) < 2 ^ 28 }
    requires size { span_count layout.now.drawing ≤ length gone.old }
    requires taken { TurnsGone layout.now.drawing (is_gone gone.old) before }
    ensures taken { TurnsGone layout.now.drawing (is_gone gone.new) result }
    ensures more { before ≤ result }
{
    links.set(layout, gone);
    let mut turns = before;
    for number in 0..layout.span_count() {
        turns = settle(layout, strands_at, links, gone, waiting, number, turns);
    }
    turns
}
