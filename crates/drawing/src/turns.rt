// Innermost turns: two exits of a strand that follow one another, by a side and its partner, at neighbouring points.
ghost use Rattle.std.specs.Prelude.{◌≡◌, ℕ, ◌<◌, ◌≤◌, ◌^◌, false, length, IsTrue, ◌↔◌};
ghost use Rattle.page_surface.specs.Drawing.{IsEmbedded, IsPlaced, all_exits, points_on, strand_exits};
ghost use Rattle.page_surface.specs.Polygon.{arc_count, sides};
ghost use Rattle.drawing.specs.Pieces.{span_count};
ghost use Rattle.drawing.specs.ThinTables.{IsPointGone, is_gone};
ghost use Rattle.drawing.specs.Thinned.{TurnsGone};
ghost use Rattle.drawing.specs.Tight.{IsTight};
ghost use Rattle.drawing.specs.Turns.{NoTurnBefore, TurnsBack};

use crate::layout::Layout;
use obd_base::{Exit, StrandNo};

// Whether a strand that leaves by the one exit turns back by the next, the two being neighbours on their side.
fn turns_back(layout: &Layout, out: Exit, back: Exit) -> bool
    requires side { out.side < sides layout.now.drawing.polygon }
    requires place { out.place < points_on layout.now.drawing out.side }
    ensures { IsTrue result ↔ TurnsBack layout.now.drawing out back }
{
    let entry = layout.entry(out);
    back.side == entry.side && back.place.abs_diff(entry.place) == 1
}

// Takes a point out, under both its names.
fn take_point(layout: &Layout, exit: &Exit, gone: &mut [bool])
    requires placed { IsPlaced layout.now.drawing }
    requires side { exit.now.side < sides layout.now.drawing.polygon }
    requires place { exit.now.place < points_on layout.now.drawing exit.now.side }
    requires size { span_count layout.now.drawing ≤ length gone.old }
    ensures { IsPointGone layout.now.drawing exit.now gone.old gone.new }
{
    gone[layout.spot(*exit) as usize] = true;
    gone[layout.spot(layout.entry(*exit)) as usize] = true;
}

// Takes the turns of a strand out that have no point with one taken before; answers how many are out then.
fn take_strand(layout: &Layout, strand: StrandNo, gone: &mut [bool], before: u32) -> u32
    requires embedded { IsEmbedded layout.now.drawing }
    requires few { length (all_exits layout.now.drawing) < 2 ^ 28 }
    requires strand { strand < arc_count layout.now.drawing.polygon }
    requires size { span_count layout.now.drawing ≤ length gone.old }
    requires taken { TurnsGone layout.now.drawing (is_gone gone.old) before }
    ensures taken { TurnsGone layout.now.drawing (is_gone gone.new) result }
    ensures more { before ≤ result }
    ensures none { result ≡ 0 → NoTurnBefore layout.now.drawing (strand_exits layout.now.drawing strand) (length (strand_exits layout.now.drawing strand)) }
{
    let exits = layout.exits(strand);
    let mut turns = before;
    for at in 1..exits.len() {
        let out = &exits[at - 1];
        let back = &exits[at];
        if turns_back(layout, *out, *back)
            && !gone[layout.spot(*out) as usize]
            && !gone[layout.spot(*back) as usize]
        {
            take_point(layout, out, gone);
            take_point(layout, back, gone);
            turns += 1;
        }
    }
    turns
}

// Takes turns out of all strands, one with each point at most; answers how many. Linear in the exits and sides.
pub(crate) fn take_turns(layout: &Layout, gone: &mut [bool]) -> u32
    requires embedded { IsEmbedded layout.now.drawing }
    requires few { length (all_exits layout.now.drawing) < 2 ^ 28 }
    requires size { span_count layout.now.drawing ≤ length gone.old }
    requires clear { (x : ℕ) → is_gone gone.old x ≡ false }
    ensures taken { TurnsGone layout.now.drawing (is_gone gone.new) result }
    ensures tight { result ≡ 0 → IsTight layout.now.drawing }
{
    let mut turns = 0;
    for strand in 0..layout.polygon().sides() / 2 {
        turns = take_strand(layout, StrandNo::new(strand), gone, turns);
    }
    turns
}
