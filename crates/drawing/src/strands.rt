// The strand through each point.
ghost use Rattle.std.specs.Prelude.{◌≡◌, ℕ, ◌+◌, ◌++◌, ◌-◌, ◌<◌, ◌≤◌, [], ◌∷◌, List, cond, length, slice_index, vec_capacity, vec_len, IfOk};
ghost use Rattle.std.specs.List.{CopiedTo, SameBelow, SameFrom};
ghost use Rattle.page_surface.specs.Drawing.{IsPlaced, strand_exits};
ghost use Rattle.page_surface.specs.Polygon.{arc_count};
ghost use Rattle.drawing.specs.Pieces.{span_count};
ghost use Rattle.drawing.specs.PushTables.{IsPutIn};
ghost use Rattle.drawing.specs.Strands.{IsStrandTable, meets};

use crate::layout::Layout;
use obd_base::{NoMemory, StrandNo};
use std::alloc::Global;

// Sets a strand at the numbers of its exits and entries.
fn set_strand(layout: &Layout, strand: StrandNo, table: &mut [StrandNo])
    requires placed { IsPlaced layout.now.drawing }
    requires strand { strand < arc_count layout.now.drawing.polygon }
    requires size { length table.old ≡ span_count layout.now.drawing }
    ensures { (x : ℕ) → x < span_count layout.now.drawing
        → slice_index table.new x ≡ cond (meets layout.now.drawing (strand_exits layout.now.drawing strand) x) strand (slice_index table.old x) }
{
    for exit in layout.exits(strand) {
        table[layout.spot(*exit) as usize] = strand;
        table[layout.spot(layout.entry(*exit)) as usize] = strand;
    }
}

// Sets the strand at each number of the place order that is a point's. Linear in the exits and sides.
pub(crate) fn set_strands(layout: &Layout, table: &mut [StrandNo])
    requires placed { IsPlaced layout.now.drawing }
    requires size { length table.old ≡ span_count layout.now.drawing }
    ensures { IsStrandTable layout.now.drawing table.new }
{
    for strand in 0..layout.polygon().sides() / 2 {
        set_strand(layout, StrandNo::new(strand), table);
    }
}

// Moves the last items of a part of a table to its beginning, and the others of the part behind them.
fn turn(table: &mut [StrandNo], start: usize, end: usize, count: usize)
    requires part { start + count ≤ end }
    requires inside { end ≤ length table.old }
    ensures size { length table.new ≡ length table.old }
    ensures before { SameBelow table.old table.new start }
    ensures first { CopiedTo table.old table.new (end - count) start count }
    ensures later { CopiedTo table.old table.new start (start + count) (end - count - start) }
    ensures behind { SameFrom table.old table.new end }
{
    table[start..end].rotate_right(count);
}

// Moves the last four items of a table to before two of its numbers, two and two, and all that comes behind these on.
// Linear in the items behind the lesser of the numbers, which move as blocks.
fn part_at(table: &mut [StrandNo], one: usize, other: usize)
    requires one { one + 4 ≤ length table.old }
    requires other { other + 4 ≤ length table.old }
    ensures { (item : ℕ) (items : List ℕ) → table.old ≡ items ++ (item ∷ item ∷ item ∷ item ∷ []) → IsPutIn item one other items table.new }
{
    let low = one.min(other);
    let high = one.max(other);
    let end = table.len();
    turn(table, high, end, 4);
    turn(table, low, high + 2, 2);
}

// Puts the four points of a finger into the table: two before its segment's number, and two before that of the segment glued
// to it. Takes no memory. Linear in the numbers behind, which move as blocks.
pub(crate) fn put_strand(strand: StrandNo, one: u32, other: u32, table: &mut Vec<StrandNo>)
    requires one { one ≤ length table.old.items }
    requires other { other ≤ length table.old.items }
    requires room { 4 ≤ vec_capacity table.old - vec_len table.old }
    ensures items { IsPutIn strand one other table.old.items table.new.items }
    ensures room { vec_capacity table.old - vec_len table.old ≤ vec_capacity table.new - vec_len table.new + 4 }
{
    table.push(strand).unwrap();
    table.push(strand).unwrap();
    table.push(strand).unwrap();
    table.push(strand).unwrap();
    part_at(table, one as usize, other as usize);
}

// A table of them.
pub(crate) fn strand_table(alloc: Global, layout: &Layout) -> Result<Vec<StrandNo>, NoMemory>
    requires { IsPlaced layout.now.drawing }
    ensures { IfOk result (λ table. IsStrandTable layout.now.drawing table.items) }
{
    let mut table = vec![in alloc; StrandNo::new(0); layout.span_count() as usize]?;
    set_strands(layout, &mut table);
    Ok(table)
}
