// Turns of what is left when much is gone: two exits of a strand that stay, with none between them that does, by a side
// and its partner, at points with none between them that stays. One is found by links, and taken out.
ghost use Rattle.std.specs.Prelude.{◌≡◌, ℕ, ◌<◌, ◌≤◌, Bool, length, IfSome, IsTrue};
ghost use Rattle.page_surface.specs.Drawing.{Drawing, IsEmbedded, IsPlaced, strand_exits};
ghost use Rattle.page_surface.specs.Polygon.{arc_count};
ghost use Rattle.drawing.specs.Links.{AreLinked, AreLinksOf, AreWays, Between, exit_gone};
ghost use Rattle.drawing.specs.LeftTurns.{AreGone, HasNumbers, IsFree, IsTurnAt, marked};
ghost use Rattle.drawing.specs.Pieces.{span_count};
ghost use Rattle.drawing.specs.ThinTables.{is_gone};

use crate::layout::Layout;
use crate::links::{Link, are_linked, unlink};
use crate::turn_links::Links;
use obd_base::{Items, StrandNo};

// Two exits of a strand by their numbers in it, and the numbers of their points in the place order: of the way out and
// its entry, and of the way back and its entry.
#[derive(Clone, Copy)]
pub(crate) struct Turn {
    pub(crate) strand: StrandNo,
    pub(crate) at: u32,
    pub(crate) next: u32,
    pub(crate) out: u32,
    pub(crate) entry: u32,
    pub(crate) back: u32,
    pub(crate) through: u32,
}

// Two exits of a strand with the numbers of their points, where the second leaves by the partner of the first one's side.
fn numbered(layout: &Layout, strand: StrandNo, at: u32, next: u32) -> Option<Turn>
    requires placed { IsPlaced layout.now.drawing }
    requires strand { strand < arc_count layout.now.drawing.polygon }
    requires follows { at < next }
    requires inside { next < length (strand_exits layout.now.drawing strand) }
    ensures { IfSome result (λ t. HasNumbers layout.now.drawing strand at next t) }
{
    let exits = layout.exits(strand);
    let out = &exits[at as usize];
    let back = &exits[next as usize];
    let entry = layout.entry(*out);
    if entry.side == back.side {
        Some(Turn {
            strand,
            at,
            next,
            out: layout.spot(*out),
            entry: layout.spot(entry),
            back: layout.spot(*back),
            through: layout.spot(layout.entry(*back)),
        })
    } else {
        None
    }
}

// Whether both points stay, and are linked under both their names.
fn is_free(turn: &Turn, sides: &Items<Link>, gone: &[bool]) -> bool
    requires out { turn.now.out < length gone.now }
    requires back { turn.now.back < length gone.now }
    requires linked { AreLinked (is_gone gone.now) sides.now }
    ensures { IsTrue result → IsFree (is_gone gone.now) turn.now }
{
    !gone[turn.out as usize]
        && !gone[turn.back as usize]
        && are_linked(sides, turn.entry, turn.back)
        && are_linked(sides, turn.out, turn.through)
}

// The links of an exit of a strand.
pub(crate) fn way_link(ways: &[Items<Link>], strand: StrandNo, at: u32) -> Option<Link>
    ensures { IfSome result (λ link. (d : Drawing) (gone : ℕ → Bool) → AreWays d gone ways.now → strand < arc_count d.polygon → Between (exit_gone d gone strand) at link.after) }
{
    let strand = strand.number() as usize;
    if strand < ways.len() && (at as usize) < ways[strand].len() {
        Some(*ways[strand].item(at as usize))
    } else {
        None
    }
}

// The turn by an exit of a strand and the next one that stays.
pub(crate) fn turn_at(
    layout: &Layout,
    links: &Links,
    gone: &[bool],
    strand: StrandNo,
    at: u32,
) -> Option<Turn>
    requires embedded { IsEmbedded layout.now.drawing }
    requires strand { strand < arc_count layout.now.drawing.polygon }
    requires size { span_count layout.now.drawing ≤ length gone.now }
    requires linked { AreLinksOf layout.now.drawing (is_gone gone.now) links.now.sides links.now.ways.items }
    ensures { IfSome result (λ t. IsTurnAt layout.now.drawing (is_gone gone.now) t) }
{
    let link = way_link(&links.ways, strand, at)?;
    let next = link.after;
    if next <= at || next as usize >= layout.exits(strand).len() {
        return None;
    }
    let turn = numbered(layout, strand, at, next)?;
    if is_free(&turn, &links.sides, gone) {
        Some(turn)
    } else {
        None
    }
}

// Marks both points of a turn as gone under both their names.
pub(crate) fn mark(turn: &Turn, gone: &mut [bool])
    requires out { turn.now.out < length gone.old }
    requires entry { turn.now.entry < length gone.old }
    requires back { turn.now.back < length gone.old }
    requires through { turn.now.through < length gone.old }
    ensures { (x : ℕ) → is_gone gone.new x ≡ marked turn.now (is_gone gone.old) x }
{
    gone[turn.out as usize] = true;
    gone[turn.entry as usize] = true;
    gone[turn.back as usize] = true;
    gone[turn.through as usize] = true;
}

// Links the exits of a strand that are left around a turn.
fn unlink_way(turn: &Turn, ways: &mut [Items<Link>])
    ensures { (d : Drawing) (gone : ℕ → Bool) → AreWays d gone ways.old → AreGone d gone turn.now → AreWays d gone ways.new }
{
    let strand = turn.strand.number() as usize;
    if strand < ways.len() {
        unlink(&mut ways[strand], turn.at, turn.next);
    }
}

// Links the numbers that are left around its points, under both names.
fn unlink_points(turn: &Turn, sides: &mut Items<Link>)
    ensures { (d : Drawing) (gone : ℕ → Bool) → AreLinked gone sides.old → AreGone d gone turn.now → AreLinked gone sides.new }
{
    unlink(sides, turn.entry, turn.back);
    unlink(sides, turn.out, turn.through);
}

// Links what is left around a turn that is gone.
pub(crate) fn unlink_turn(turn: &Turn, links: &mut Links)
    ensures { (d : Drawing) (gone : ℕ → Bool) → AreLinksOf d gone links.old.sides links.old.ways.items → AreGone d gone turn.now → AreLinksOf d gone links.new.sides links.new.ways.items }
{
    unlink_points(turn, &mut links.sides);
    unlink_way(turn, &mut links.ways);
}
