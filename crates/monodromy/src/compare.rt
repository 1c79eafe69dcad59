// Whether a drawing has some words.
ghost use Rattle.std.specs.Prelude.{◌≡◌, ◌<◌, map, IfOk, IsTrue};
ghost use Rattle.page_surface.specs.Drawing.{strand_exits, words};
ghost use Rattle.page_surface.specs.Polygon.{arc_count};

use drawing::Drawing;
use obd_base::{Items, NoMemory, SideNo, StrandNo};

// Whether two words are one.
fn are_same(word: &[SideNo], wanted: &[SideNo]) -> bool
    ensures { IsTrue result → word.now ≡ wanted.now }
{
    if word.len() != wanted.len() {
        return false;
    }
    for at in 0..word.len() {
        if word[at] != wanted[at] {
            return false;
        }
    }
    true
}

// Whether the word of a strand is this.
fn has_word(drawing: &Drawing, strand: StrandNo, wanted: &[SideNo]) -> Result<bool, NoMemory>
    requires { strand < arc_count drawing.now.drawing.polygon }
    ensures { IfOk result (λ same. IsTrue same → map (λ e. e.side) (strand_exits drawing.now.drawing strand) ≡ wanted.now) }
{
    let word = drawing.word(strand)?;
    Ok(are_same(word.as_slice(), wanted))
}

/// Whether the words of the strands are these. Linear in the letters.
pub(crate) fn has_words(drawing: &Drawing, wanted: &[Items<SideNo>]) -> Result<bool, NoMemory>
    ensures { IfOk result (λ same. IsTrue same → words drawing.now.drawing ≡ wanted.now) }
{
    // That a drawing has points says that it has a strand for each arc.
    let _ = drawing.points();
    let strands = drawing.polygon().sides() / 2;
    if wanted.len() != strands as usize {
        return Ok(false);
    }
    for strand in 0..strands {
        let word = wanted[strand as usize].as_slice();
        if !has_word(drawing, StrandNo::new(strand), word)? {
            return Ok(false);
        }
    }
    Ok(true)
}
