// The lines of the strands in the first drawing, and their rules.
ghost use Rattle.std.specs.Prelude.{◌≡◌, ◌≢◌, ◌<◌, ◌≤◌, ◌^◌, ◌↔◌, [], false, true, length, map, nat_lt, slice_index_or, IfErr, IfNone, IfOk, IfSome, IsTrue, None, Ok, OnOk};
ghost use Rattle.std.specs.List.{list_all};
ghost use Rattle.std.specs.Result.{IsErrAnd};
ghost use Rattle.drawing.specs.declared.refusal.DrawRefusal.TheVariants as DrawRefusal;
ghost use Rattle.page_surface.specs.Drawing.{IsEmbedded, all_exits, is_embedded};
ghost use Rattle.page_surface.specs.Polygon.{arc_count, sides};
ghost use Rattle.curve_paths.specs.Twists.{AreWords};
ghost use Rattle.drawing.specs.Layout.{drawn};
ghost use Rattle.drawing.specs.Room.{rows};
ghost use Rattle.mod2_rank.specs.Linear.{same_list};
ghost use Rattle.witness_check.specs.Checked.{first_fault};
ghost use Rattle.witness_check.specs.DrawingRules.{BeginsStrands, Finds, HasStrands, IsFirst, Stops, word_rules};
ghost use Rattle.witness_check.specs.Rules.{each, strand_rules};

use crate::checked::Reason;
use crate::fault::{Fault, Stop};
use drawing::{DrawRefusal, Drawing};
use obd_base::{Exit, Items, NoMemory, SideNo};
use page_surface::Polygon;
use std::alloc::Global;

// Whether some exits leave by the sides of a word.
fn has_sides(exits: &[Exit], word: &[SideNo]) -> bool
    ensures { IsTrue result ↔ (map (λ e. e.side) exits.now ≡ word.now) }
{
    if exits.len() != word.len() {
        return false;
    }
    for at in 0..exits.len() {
        if exits[at].side != word[at] {
            return false;
        }
    }
    true
}

// Whether a strand's exits leave by the sides of its word. A word that isn't there is empty.
fn has_word(words: &[Items<SideNo>], strand: usize, exits: &[Exit]) -> bool
    ensures { result ≡ same_list (map (λ e. e.side) exits.now) (slice_index_or words.now strand []) }
{
    if strand < words.len() {
        has_sides(exits, words[strand].as_slice())
    } else {
        has_sides(exits, &[])
    }
}

/// Among the strand lines read so far, the first whose sides aren't the word of its strand. Linear in the exits.
pub(crate) fn first_wrong_word(words: &[Items<SideNo>], strands: &[Items<Exit>]) -> Option<Fault>
    requires few { length strands.now < 2 ^ 32 }
    ensures first { result ≡ first_fault (each (word_rules words.now) strands.now) }
    ensures begun { Finds (BeginsStrands words.now strands.now) (λ c. each (strand_rules c) strands.now) result }
{
    for at in 0..strands.len() {
        if !has_word(words, at, strands[at].as_slice()) {
            return Some(Fault {
                at: at as u32,
                reason: Reason::Word,
            });
        }
    }
    None
}

// Lists of exits of their own.
fn copied(alloc: Global, strands: &[Items<Exit>]) -> Result<Vec<Vec<Exit>>, NoMemory>
    ensures { IfOk result (λ copy. rows copy.items ≡ strands.now) }
{
    let mut copy = Vec::new(alloc);
    for strand in strands {
        copy.push(Vec::from_slice(alloc, strand.as_slice())?)?;
    }
    Ok(copy)
}

// A drawing, and `None` exactly where it is refused and memory isn't wanting.
fn unless_memory(read: Result<Drawing, DrawRefusal>) -> Result<Option<Drawing>, NoMemory>
    ensures some { IfOk result (λ kept. IfSome kept (λ drawing. read ≡ Ok drawing)) }
    ensures none { IfOk result (λ kept. IfNone kept (IsErrAnd read (λ refusal. refusal ≢ DrawRefusal.NoMemory))) }
{
    match read {
        Ok(drawing) => Ok(Some(drawing)),
        Err(DrawRefusal::NoMemory) => Err(NoMemory),
        Err(DrawRefusal::PlaceWrong { .. }) => Ok(None),
        Err(DrawRefusal::Crosses) => Ok(None),
        Err(DrawRefusal::NotCut { .. }) => Ok(None),
    }
}

// The drawing with the exits of these strands, and `None` exactly where they are no embedded drawing.
fn read(
    alloc: Global,
    polygon: &Polygon,
    strands: &[Items<Exit>],
) -> Result<Option<Drawing>, NoMemory>
    requires each { length strands.now ≡ arc_count polygon.now }
    requires on_sides { list_all (λ e. nat_lt e.side (sides polygon.now)) (all_exits (drawn polygon.now strands.now)) ≡ true }
    requires few { length (all_exits (drawn polygon.now strands.now)) ≤ 4000 }
    ensures drawing { IfOk result (λ read. IfSome read (λ made. made.drawing ≡ drawn polygon.now strands.now)) }
    ensures embedded { IfOk result (λ read. IfSome read (λ _. IsEmbedded (drawn polygon.now strands.now))) }
    ensures refused { IfOk result (λ read. IfNone read (is_embedded (drawn polygon.now strands.now) ≡ false)) }
{
    let strands = copied(alloc, strands)?;
    unless_memory(Drawing::read(alloc, polygon, &strands))
}

/// The drawing of all strand lines, one for each arc, by the words of the strands: the lines are tried in order, each by its
/// word, and the last one then by whether the drawing is embedded. Linear in the exits and sides.
pub(crate) fn first_drawing(
    alloc: Global,
    polygon: &Polygon,
    words: &[Items<SideNo>],
    strands: &[Items<Exit>],
) -> Result<Drawing, Stop>
    requires words { AreWords polygon.now words.now }
    requires each { length strands.now ≡ arc_count polygon.now }
    ensures drawing { IfOk result (λ made. made.drawing ≡ drawn polygon.now strands.now) }
    ensures first { IfOk result (λ made. IsFirst made.drawing) }
    ensures kept { OnOk result (Finds (HasStrands polygon.now words.now strands.now) (λ c. each (strand_rules c) strands.now) None) }
    ensures fault { IfErr result (Stops (HasStrands polygon.now words.now strands.now) (λ c. each (strand_rules c) strands.now)) }
{
    let _ = polygon.sides();
    if let Some(fault) = first_wrong_word(words, strands) {
        return Err(Stop::Fault(fault));
    }
    match read(alloc, polygon, strands)? {
        Some(drawing) => Ok(drawing),
        None => Err(Stop::Fault(Fault {
            at: strands.len() as u32 - 1,
            reason: Reason::Drawing,
        })),
    }
}
