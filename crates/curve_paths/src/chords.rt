// The chords of a path in the place order of its page.
ghost use Rattle.std.specs.Prelude.{◌≡◌, ℕ, ◌<◌, ◌≤◌, ◌+◌, ◌-◌, ◌*◌, ◌++◌, suc, [], cond, map, length, nat_eq, not, find, slice_index, slice_index_or, IfOk, OnOk};
ghost use Rattle.std.specs.List.{range_with_len};
ghost use Rattle.obd_base.specs.Lists.{below};
ghost use Rattle.page_surface.specs.Drawing.{beyond, crosses};
ghost use Rattle.page_surface.specs.Joining.{other_side};
ghost use Rattle.page_surface.specs.Labels.{labels_of, side_labels_of};
ghost use Rattle.page_surface.specs.Page.{IsPage};
ghost use Rattle.curve_paths.specs.Paths.{crossing_at, following, is_within, label_points, path_chord, path_chords, path_spot, row};
ghost use Rattle.curve_paths.specs.PathRules.{crossing_pair as first_pair, do_cross, pair};
ghost use Rattle.curve_paths.specs.PlaceTables.{ArePlaced, AreSides, AreStarts, IsPlaceOrder};

use crate::crossing::Crossing;
use obd_base::NoMemory;
use page_surface::{Page, SideLabel};
use std::alloc::Global;
use std::marker::Model;

// A chord by the numbers of its two ends.
#[derive(Clone, Copy, Debug, PartialEq, Eq)]
pub(crate) struct PathChord {
    from: u32,
    to: u32,
}

impl Model for PathChord {
    ghost use Rattle.page_surface.specs.Drawing.{Chord};

    ghost Value = { Chord };

    ghost view = { λ c. record { from = c.from; to = c.to } };

    ghost inverse = { λ c. record { from = c.from; to = c.to } };
}

// Two chords by their numbers.
#[derive(Clone, Copy, Debug, PartialEq, Eq)]
pub(crate) struct ChordPair {
    pub(crate) first: u32,
    pub(crate) second: u32,
}

// The place order of a page for a path: how many points each label has, and the number from which the points
// of each side are counted, by label and occurrence.
#[derive(Drop)]
pub(crate) struct PlaceOrder {
    counts: Vec<u32>,
    starts: Vec<u32>,
}

// The sides of a polygon, put after others.
fn push_sides(page: &Page, polygon: u32, sides: &mut Vec<SideLabel>) -> Result<(), NoMemory>
    requires { polygon < length page.now }
    ensures { OnOk result (sides.new.items ≡ sides.old.items ++ slice_index_or (side_labels_of [] page.now) polygon []) }
{
    for side in 0..page.sides_of(polygon) {
        sides.push(page.label_at(polygon, side))?;
    }
    Ok(())
}

// All sides of the page in one row, polygon by polygon. Linear in the sides.
fn page_row(alloc: Global, page: &Page) -> Result<Vec<SideLabel>, NoMemory>
    ensures value { IfOk result (λ sides. sides.items ≡ row page.now) }
    ensures valid { IsPage page.now }
{
    let mut sides = Vec::new(alloc);
    for polygon in 0..page.polygon_count() {
        push_sides(page, polygon, &mut sides)?;
    }
    Ok(sides)
}

// For each label and occurrence, the number from which the points of the side are counted.
fn side_starts(alloc: Global, sides: &[SideLabel], counts: &[u32]) -> Result<Vec<u32>, NoMemory>
    requires { AreSides sides.now counts.now }
    ensures { IfOk result (λ starts. AreStarts sides.now counts.now starts.items) }
{
    let mut starts = vec![in alloc; 0; counts.len() * 2]?;
    let mut start = 0;
    for side in sides {
        let label = side.label.number() as usize;
        starts[label * 2 + side.occurrence as usize] = start;
        start += counts[label] + 2;
    }
    Ok(starts)
}

impl PlaceOrder {
    // The place order for a path whose labels have so many points. Linear in the sides and the labels.
    pub(crate) fn of(alloc: Global, page: &Page, counts: Vec<u32>) -> Result<PlaceOrder, NoMemory>
        requires size { length counts.items ≡ length (labels_of page.now) }
        requires few { (label : ℕ) → label < length counts.items → slice_index counts.items label ≤ 32 }
        ensures counts { IfOk result (λ order. order.counts.items ≡ counts.items) }
        ensures starts { IfOk result (λ order. AreStarts (row page.now) counts.items order.starts.items) }
    {
        let sides = page_row(alloc, page)?;
        let starts = side_starts(alloc, &sides, &counts)?;
        Ok(PlaceOrder { counts, starts })
    }

    // The number of the point on a side that is at a place of the side's label.
    fn spot(&self, side: SideLabel, place: u32) -> u32
        requires label { side.label < length self.now.counts.items }
        requires size { length self.now.starts.items ≡ length self.now.counts.items * 2 }
        requires occurrence { side.occurrence ≤ 1 }
        requires place { place < slice_index self.now.counts.items side.label }
        requires few { slice_index self.now.counts.items side.label ≤ 32 }
        requires fits { slice_index self.now.starts.items (side.label * 2 + side.occurrence) ≤ 48 * 34 }
        ensures { result ≡ slice_index self.now.starts.items (side.label * 2 + side.occurrence)
            + cond (nat_eq side.occurrence 0) place (slice_index self.now.counts.items side.label - 1 - place) }
    {
        let label = side.label.number() as usize;
        let start = self.starts[label * 2 + side.occurrence as usize];
        if side.occurrence == 0 {
            start + place
        } else {
            start + (self.counts[label] - 1 - place)
        }
    }

    // The counts alone.
    pub(crate) fn into_counts(self) -> Vec<u32>
        ensures { result ≡ self.counts }
    {
        self.counts
    }
}

// The other side of a side's label.
fn other(side: SideLabel) -> SideLabel
    requires { side.occurrence ≤ 1 }
    ensures { result ≡ other_side side }
{
    let SideLabel { label, occurrence } = side;
    SideLabel {
        label,
        occurrence: 1 - occurrence,
    }
}

// The crossing after one, read round.
fn next_crossing(crossings: &[Crossing], at: usize) -> Crossing
    requires { at < length crossings.now }
    ensures { result ≡ crossing_at crossings.now (following (length crossings.now) at) }
{
    if at + 1 == crossings.len() {
        crossings[0]
    } else {
        crossings[at + 1]
    }
}

// The two ends of a chord lie on one polygon.
fn is_on_one_polygon(page: &Page, crossings: &[Crossing], at: usize) -> bool
    requires at { at < length crossings.now }
    requires placed { ArePlaced page.now crossings.now }
    ensures { result ≡ is_within page.now crossings.now at }
{
    let from = other(crossings[at].side);
    let to = next_crossing(crossings, at).side;
    page.polygon_of(from.label, from.occurrence) == page.polygon_of(to.label, to.occurrence)
}

// The first chord whose two ends lie on two polygons. Linear in the crossings.
pub(crate) fn first_apart(page: &Page, crossings: &[Crossing]) -> Option<u32>
    requires { ArePlaced page.now crossings.now }
    ensures { result ≡ find (λ i. not (is_within page.now crossings.now i)) (below (length crossings.now)) }
{
    for at in 0..crossings.len() {
        if !is_on_one_polygon(page, crossings, at) {
            return Some(at as u32);
        }
    }
    None
}

// The chord after a crossing.
fn chord_after(page: &Page, crossings: &[Crossing], order: &PlaceOrder, at: usize) -> PathChord
    requires at { at < length crossings.now }
    requires placed { ArePlaced page.now crossings.now }
    requires order { IsPlaceOrder page.now crossings.now order.now.counts.items order.now.starts.items }
    ensures { result ≡ path_chord page.now crossings.now at }
{
    let Crossing {
        side: left,
        place: entry,
    } = crossings[at];
    let Crossing {
        side: next,
        place: exit,
    } = next_crossing(crossings, at);
    let from = order.spot(other(left), entry);
    let to = order.spot(next, exit);
    PathChord { from, to }
}

// The chords of a path. Linear in the crossings.
pub(crate) fn chords_of(
    alloc: Global,
    page: &Page,
    crossings: &[Crossing],
    order: &PlaceOrder,
) -> Result<Vec<PathChord>, NoMemory>
    requires placed { ArePlaced page.now crossings.now }
    requires order { IsPlaceOrder page.now crossings.now order.now.counts.items order.now.starts.items }
    ensures { IfOk result (λ chords. chords.items ≡ path_chords page.now crossings.now) }
{
    let mut chords = Vec::new(alloc);
    for at in 0..crossings.len() {
        chords.push(chord_after(page, crossings, order, at))?;
    }
    Ok(chords)
}

impl PathChord {
    // The number is met on the way counterclockwise from the lesser end to the greater end.
    fn has_beyond(self, spot: u32) -> bool
        ensures { result ≡ beyond self spot }
    {
        (self.from < spot) != (self.to < spot)
    }

    // The ends of two chords interleave.
    fn crosses(self, other: PathChord) -> bool
        ensures { result ≡ crosses self other }
    {
        self.has_beyond(other.from) != self.has_beyond(other.to)
    }
}

// The first chord after a chord that crosses it.
fn crossed_after(chords: &[PathChord], first: u32) -> Option<u32>
    requires first { first < length chords.now }
    requires few { length chords.now ≤ 32 }
    ensures { result ≡ find (λ second. do_cross chords.now (pair first second)) (range_with_len (suc first) (length chords.now - suc first)) }
{
    for second in first + 1..chords.len() as u32 {
        if chords[first as usize].crosses(chords[second as usize]) {
            return Some(second);
        }
    }
    None
}

// The first two chords that cross. There are at most 32, so each two are tried.
pub(crate) fn crossing_pair(chords: &[PathChord]) -> Option<ChordPair>
    requires { length chords.now ≤ 32 }
    ensures { result ≡ first_pair chords.now }
{
    for first in 0..chords.len() as u32 {
        if let Some(second) = crossed_after(chords, first) {
            return Some(ChordPair { first, second });
        }
    }
    None
}
