// The tight drawing of some words, made directly and then tested.
ghost use Rattle.std.specs.Prelude.{◌≡◌, ◌+◌, ◌<◌, ◌≤◌, All, length, map, IfOk, IfSome};
ghost use Rattle.curve_paths.specs.Twists.{AreWords, letters};
ghost use Rattle.monodromy.specs.Drawn.{IsDrawn};

use crate::compare::has_words;
use crate::futures::ranked;
use crate::ways::{Way, ways_of};
use drawing::{DrawRefusal, Drawing};
use obd_base::{Exit, Items, NoMemory, SideNo};
use page_surface::Polygon;
use std::alloc::Global;

// How many ways leave through lower sides than one.
fn lower_ways(ways: &[Way], side: u32) -> u32
    requires { length ways.now ≤ 8000 }
    ensures { result ≤ 8000 }
{
    let mut count = 0;
    for way in ways {
        if way.side.number() < side {
            count += 1;
        }
    }
    count
}

// For each side how many ways leave through lower ones: the rank of its first point.
fn first_ranks(alloc: Global, sides: u32, ways: &[Way]) -> Result<Vec<u32>, NoMemory>
    requires { length ways.now ≤ 8000 }
    ensures { IfOk result (λ ranks. length ranks.items ≡ sides) }
{
    let mut ranks = Vec::new(alloc);
    for side in 0..sides {
        ranks.push(lower_ways(ways, side))?;
    }
    Ok(ranks)
}

// The exits of a strand, by its word and the ranks of its ways on: the place of a point is the number of those on its side that
// come before it.
fn exits_of(
    alloc: Global,
    word: &[SideNo],
    ranks: &[u32],
    first_ranks: &[u32],
) -> Result<Vec<Exit>, NoMemory>
    requires ranks { length word.now ≤ length ranks.now }
    requires in_range { All (λ s. s < length first_ranks.now) word.now }
    ensures { IfOk result (λ exits. map (λ e. e.side) exits.items ≡ word.now) }
{
    let mut exits = Vec::new(alloc);
    for (at, side) in word.iter().enumerate() {
        let first = first_ranks[side.number() as usize];
        exits.push(Exit {
            side: *side,
            place: ranks[at].saturating_sub(first),
        })?;
    }
    Ok(exits)
}

// The exits of all strands, by their words and the ranks of all ways.
fn strands_of(
    alloc: Global,
    words: &[Items<SideNo>],
    ranks: &[u32],
    first_ranks: &[u32],
) -> Result<Vec<Vec<Exit>>, NoMemory>
    requires ranks { length ranks.now ≡ letters words.now + letters words.now }
    requires in_range { All (λ w. All (λ s. s < length first_ranks.now) w) words.now }
    ensures { IfOk result (λ strands. map (map (λ e. e.side)) (map (λ s. s.items) strands.items) ≡ words.now) }
{
    let mut strands = Vec::new(alloc);
    let mut first_way = 0;
    for word in words {
        let ranks = &ranks[first_way..];
        strands.push(exits_of(alloc, word.as_slice(), ranks, first_ranks)?)?;
        first_way += 2 * word.len();
    }
    Ok(strands)
}

// The exits that some words have in a tight drawing, if they have one.
fn tight_strands(
    alloc: Global,
    polygon: &Polygon,
    words: &[Items<SideNo>],
) -> Result<Vec<Vec<Exit>>, NoMemory>
    requires { AreWords polygon.now words.now }
    ensures { IfOk result (λ strands. map (map (λ e. e.side)) (map (λ s. s.items) strands.items) ≡ words.now) }
{
    let ways = ways_of(alloc, polygon, words)?;
    let ranks = ranked(alloc, &ways)?;
    let first_ranks = first_ranks(alloc, polygon.sides(), &ways)?;
    strands_of(alloc, words, &ranks, &first_ranks)
}

// A drawing made tight, if it has some words then.
fn tight_with_words(drawing: Drawing, words: &[Items<SideNo>]) -> Result<Option<Drawing>, NoMemory>
    requires { letters words.now ≤ 4000 }
    ensures { IfOk result (λ tight. IfSome tight (λ d. IsDrawn drawing.drawing.polygon words.now d.drawing)) }
{
    let mut drawing = drawing;
    drawing.tighten();
    // A drawing is embedded.
    let _ = drawing.points();
    if !has_words(&drawing, words)? {
        return Ok(None);
    }
    Ok(Some(drawing))
}

/// The tight drawing of some words, if it is found: the points of each side are put in the order of the futures of the strands
/// that pass there. That this finds it wherever it is there isn't proved, so the drawing is tested: that no two chords
/// cross, and that it has these words when it is made tight. The cost is that of 13 sorts of twice the letters.
pub(crate) fn drawn_directly(
    alloc: Global,
    polygon: &Polygon,
    words: &[Items<SideNo>],
) -> Result<Option<Drawing>, NoMemory>
    requires { AreWords polygon.now words.now }
    ensures { IfOk result (λ drawing. IfSome drawing (λ d. IsDrawn polygon.now words.now d.drawing)) }
{
    let strands = tight_strands(alloc, polygon, words)?;
    match Drawing::read(alloc, polygon, &strands) {
        Ok(drawing) => tight_with_words(drawing, words),
        Err(DrawRefusal::NoMemory) => Err(NoMemory),
        Err(_) => Ok(None),
    }
}
