// The stage of the strands in the last drawing.
ghost use Rattle.std.specs.Prelude.{ℕ, List, IfErr, IfOk};
ghost use Rattle.witness_check.specs.Between.{AfterFinals, AfterFingers, Refutes};
ghost use Rattle.witness_check.specs.LastDrawing.{IsLast};

use crate::fault::Refusal;
use crate::final_lines::{LastDrawing, first_wrong_final, last_drawing};
use crate::lines::Lines;
use crate::settling::{broken_off, settled};
use crate::taking::read_rows;
use drawing::Drawing;
use obd_base::{Exit, Items};
use std::alloc::Global;

/// Reads the lines of the strands in the last drawing, one for each arc, and tries them by that drawing: its diagram with the table of
/// regions. Linear in the lines that are taken, the exits and the sides.
pub(crate) fn finals_stage(
    alloc: Global,
    lines: &mut Lines,
    drawing: Drawing,
) -> Result<LastDrawing, Refusal>
    ensures passed { IfOk result (λ last. (text : List ℕ) → AfterFingers drawing.drawing text lines.old → AfterFinals last.diagram text lines.new) }
    ensures last { IfOk result IsLast }
    ensures refuted { IfErr result (λ refusal. (text : List ℕ) → AfterFingers drawing.drawing text lines.old → Refutes text refusal) }
{
    let count = drawing.polygon().sides() / 2;
    let first = lines.number();
    let rows = read_rows::<Items<Exit>>(alloc, lines, "final", count)?;
    if let Some(line) = rows.breaks {
        let fault = first_wrong_final(&drawing, rows.items.as_slice());
        return Err(broken_off(first, fault, line));
    }
    let tried = last_drawing(alloc, drawing, rows.items.as_slice());
    settled(first, tried, None)
}
