// The stage of the strands.
ghost use Rattle.std.specs.Prelude.{◌≡◌, ℕ, List, IfErr, IfOk};
ghost use Rattle.curve_paths.specs.Twists.{AreWords};
ghost use Rattle.witness_check.specs.Between.{AfterBook, AfterStrands, Refutes};
ghost use Rattle.witness_check.specs.DrawingRules.{IsFirst};

use crate::fault::Refusal;
use crate::lines::Lines;
use crate::settling::{broken_off, settled};
use crate::strand_lines::{first_drawing, first_wrong_word};
use crate::taking::read_rows;
use drawing::Drawing;
use obd_base::{Exit, Items, SideNo};
use page_surface::Polygon;
use std::alloc::Global;

/// Reads the lines of the strands, one for each arc, and tries them by the words of the strands: the drawing of the lines. Linear in the
/// lines that are taken, the exits and the sides.
pub(crate) fn strands_stage(
    alloc: Global,
    lines: &mut Lines,
    polygon: &Polygon,
    words: &[Items<SideNo>],
) -> Result<Drawing, Refusal>
    requires words { AreWords polygon.now words.now }
    ensures passed { IfOk result (λ made. (text : List ℕ) → AfterBook polygon.now words.now text lines.old → AfterStrands made.drawing text lines.new) }
    ensures polygon { IfOk result (λ made. made.drawing.polygon ≡ polygon.now) }
    ensures first { IfOk result (λ made. IsFirst made.drawing) }
    ensures refuted { IfErr result (λ refusal. (text : List ℕ) → AfterBook polygon.now words.now text lines.old → Refutes text refusal) }
{
    let count = polygon.sides() / 2;
    let first = lines.number();
    let rows = read_rows::<Items<Exit>>(alloc, lines, "strand", count)?;
    if let Some(line) = rows.breaks {
        let fault = first_wrong_word(words, rows.items.as_slice());
        return Err(broken_off(first, fault, line));
    }
    let tried = first_drawing(alloc, polygon, words, rows.items.as_slice());
    settled(first, tried, None)
}
