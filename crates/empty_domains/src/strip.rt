// The strip behind a corner: rows of pieces from one glued edge to the next, with the steps that are read off.
ghost use Rattle.std.specs.Prelude.{◌≡◌, ◌+◌, ◌<◌, ◌^◌, ◌++◌, false, length, map, slice_index, slice_set, suc, true, IfNone, IfOk, IfSome, OnOk};
ghost use Rattle.empty_domains.specs.Ground.{bigon_by, ends_by, rectangle_by, room_by, strip_by, widest_by};
ghost use Rattle.empty_domains.specs.Strip.{spacing};

use crate::tables::Tables;
use obd_base::NoMemory;
use std::marker::Model;

/// A step of a strip: a bigon or a rectangle by the numbers from which its rows are swept, and the row at which it was read
/// off. Contracts see a `Try`, which is the arc and number of the first corner, the width of the rows, and the arc and
/// number of the second corner, or those of the first again for a bigon; and the number of the row, from 0.
#[derive(Clone, Copy)]
pub struct Step {
    pub(crate) arc: u32,
    pub(crate) start: u32,
    pub(crate) width: u32,
    pub(crate) second: u32,
    pub(crate) stop: u32,
    pub(crate) row: u32,
}

impl Model for Step {
    ghost use Rattle.empty_domains.specs.Strip.{Step as Shown};

    ghost Value = { Shown };

    ghost view = { λ s. record { by = record { first = s.arc; start = s.start; width = s.width; second = s.second; stop = s.stop }; steps = s.row } };

    ghost inverse = { λ s. record { arc = s.by.first; start = s.by.start; width = s.by.width; second = s.by.second; stop = s.by.stop; row = s.steps } };
}

// A point of the generator, by its arc and one of its two numbers.
#[derive(Clone, Copy)]
pub(crate) struct Corner {
    pub(crate) arc: u32,
    pub(crate) start: u32,
}

// A row: where it begins, how wide it may be, and its number in the strip.
#[derive(Clone, Copy)]
pub(crate) struct Row {
    pub(crate) at: u32,
    pub(crate) most: u32,
    pub(crate) number: u32,
}

// How wide a row may be: no wider than the row before, than rows run on there, than the points before the generator's
// on its side, and than the way to the last row that began on its side.
fn width(tables: &Tables, standing: &[u32], lasts: &[u32], row: Row) -> u32
    requires at { row.at < length tables.now.other }
    requires standing { length standing.now ≡ length tables.now.ends }
    requires lasts { length lasts.now ≡ length tables.now.ends }
    ensures { result ≡ widest_by tables.now standing.now row.at (spacing lasts.now (slice_index tables.now.side row.at) row.at row.most) }
{
    let side = tables.side(row.at) as usize;
    let last = lasts[side];
    let apart = if last == 0 {
        row.most
    } else {
        row.most.min(row.at.abs_diff(last - 1))
    };
    let stand = standing[side];
    let ahead = if row.at < stand {
        stand - row.at - 1
    } else {
        apart
    };
    apart.min(tables.run(row.at)).min(ahead)
}

// Notes a bigon where the row's first chord leads back to the row's side, no further away than the row is wide.
fn read_bigon(
    tables: &Tables,
    corner: Corner,
    row: Row,
    back: u32,
    width: u32,
    steps: &mut Vec<Step>,
) -> Result<(), NoMemory>
    requires { back ≡ slice_index tables.now.other row.at }
    ensures { OnOk result (steps.new.items ≡ steps.old.items ++ bigon_by tables.now corner.arc corner.start row.at width row.number) }
{
    if row.at < back && back - row.at <= width {
        steps.push(Step {
            arc: corner.arc,
            start: corner.start,
            width: back - row.at,
            second: corner.arc,
            stop: corner.start,
            row: row.number,
        })?;
    }
    Ok(())
}

// Notes a rectangle where it leads to a side on which the generator's point of a later arc comes before, no further away
// than the row is wide.
fn read_rectangle(
    tables: &Tables,
    standing: &[u32],
    corner: Corner,
    row: Row,
    back: u32,
    width: u32,
    steps: &mut Vec<Step>,
) -> Result<(), NoMemory>
    requires at { row.at < length tables.now.other }
    requires back { back ≡ slice_index tables.now.other row.at }
    requires inside { back < length tables.now.other }
    requires standing { length standing.now ≡ length tables.now.ends }
    ensures { OnOk result (steps.new.items ≡ steps.old.items ++ rectangle_by tables.now standing.now corner.arc corner.start row.at width row.number) }
{
    let side = tables.side(back);
    let stop = standing[side as usize];
    let second = tables.arc(side);
    if corner.arc < second && stop < back && back - stop <= width {
        steps.push(Step {
            arc: corner.arc,
            start: corner.start,
            width: back - stop,
            second,
            stop,
            row: row.number,
        })?;
    }
    Ok(())
}

// Whether a strip ends behind a row whose first chord leads to a number with another name.
fn ends(tables: &Tables, standing: &[u32], back: u32, next: u32, width: u32) -> bool
    requires back { back < length tables.now.other }
    requires next { next ≡ slice_index tables.now.opposite back }
    requires inside { next < length tables.now.other }
    requires standing { length standing.now ≡ length tables.now.ends }
    ensures { result ≡ ends_by tables.now standing.now back width }
{
    width == 0 || tables.room(back) == 0 || standing[tables.side(next) as usize] == next
}

// Notes what is read off at a row and where it began, and tells the row behind it where the strip goes on.
fn read_row(
    tables: &Tables,
    standing: &[u32],
    lasts: &mut [u32],
    corner: Corner,
    row: Row,
    steps: &mut Vec<Step>,
) -> Result<Option<Row>, NoMemory>
    requires at { row.at < length tables.now.other }
    requires number { row.number + 1 < 2 ^ 32 }
    requires few { length tables.now.other < 2 ^ 32 }
    requires standing { length standing.now ≡ length tables.now.ends }
    requires lasts { length lasts.old ≡ length tables.now.ends }
    ensures steps { OnOk result (steps.new.items ≡ steps.old.items ++ (bigon_by tables.now corner.arc corner.start row.at (widest_by tables.now standing.now row.at (spacing lasts.old (slice_index tables.now.side row.at) row.at row.most)) row.number ++ rectangle_by tables.now standing.now corner.arc corner.start row.at (widest_by tables.now standing.now row.at (spacing lasts.old (slice_index tables.now.side row.at) row.at row.most)) row.number)) }
    ensures last { IfOk result (λ next. IfNone next (ends_by tables.now standing.now (slice_index tables.now.other row.at) (widest_by tables.now standing.now row.at (spacing lasts.old (slice_index tables.now.side row.at) row.at row.most)) ≡ true)) }

    ensures goes_on { IfOk result (λ next. IfSome next (λ r. ends_by tables.now standing.now (slice_index tables.now.other row.at) (widest_by tables.now standing.now row.at (spacing lasts.old (slice_index tables.now.side row.at) row.at row.most)) ≡ false)) }
    ensures at { IfOk result (λ next. IfSome next (λ r. r.at ≡ slice_index tables.now.opposite (slice_index tables.now.other row.at))) }
    ensures inside { IfOk result (λ next. IfSome next (λ r. r.at < length tables.now.other)) }
    ensures most { IfOk result (λ next. IfSome next (λ r. r.most ≡ (widest_by tables.now standing.now row.at (spacing lasts.old (slice_index tables.now.side row.at) row.at row.most)))) }
    ensures number { IfOk result (λ next. IfSome next (λ r. r.number ≡ suc row.number)) }
    ensures began { IfOk result (λ next. IfSome next (λ r. lasts.new ≡ slice_set lasts.old (slice_index tables.now.side row.at) (suc row.at))) }
    ensures size { length lasts.new ≡ length lasts.old }
{
    let side = tables.side(row.at) as usize;
    let back = tables.other(row.at);
    let next = tables.opposite(back);
    let width = width(tables, standing, lasts, row);
    read_bigon(tables, corner, row, back, width, steps)?;
    read_rectangle(tables, standing, corner, row, back, width, steps)?;
    if ends(tables, standing, back, next, width) {
        return Ok(None);
    }
    lasts[side] = row.at + 1;
    Ok(Some(Row {
        at: next,
        most: width,
        number: row.number + 1,
    }))
}

// Puts the steps of the strip behind a corner last. Before it no row began on any side.
pub(crate) fn strip(
    tables: &Tables,
    standing: &[u32],
    corner: Corner,
    lasts: &mut [u32],
    steps: &mut Vec<Step>,
) -> Result<(), NoMemory>
    requires start { corner.start < length tables.now.other }
    requires standing { length standing.now ≡ length tables.now.ends }
    requires lasts { length lasts.old ≡ length tables.now.ends }
    ensures steps { OnOk result (steps.new.items ≡ steps.old.items ++ strip_by tables.now standing.now corner.arc corner.start (length tables.now.other) corner.start (room_by tables.now corner.start) 0 lasts.old) }
    ensures size { length lasts.new ≡ length lasts.old }
{
    let mut row = Row {
        at: corner.start,
        most: tables.room(corner.start),
        number: 0,
    };
    while row.number < tables.count() {
        match read_row(tables, standing, lasts, corner, row, steps)? {
            Some(next) => row = next,
            None => return Ok(()),
        }
    }
    Ok(())
}
