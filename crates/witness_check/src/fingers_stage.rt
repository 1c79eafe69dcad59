// The stage of the fingers.
ghost use Rattle.std.specs.Prelude.{◌≡◌, ◌≤◌, ℕ, List, length, IfErr, IfOk};
ghost use Rattle.page_surface.specs.Drawing.{all_exits};
ghost use Rattle.witness_check.specs.Between.{AfterFingers, AfterStrands, Refutes};

use crate::checked::Reason;
use crate::fault::Refusal;
use crate::finger_lines::moved;
use crate::lines::Lines;
use crate::settling::settled;
use crate::taking::{next_count, read_rows};
use drawing::{Drawing, Finger};
use std::alloc::Global;

// The most fingers of a certificate.
const MOST: u32 = 20_000;

/// Reads the lines of the fingers and carries them out: the drawing that they lead to. The cost is that of `moved`.
pub(crate) fn fingers_stage(
    alloc: Global,
    lines: &mut Lines,
    drawing: Drawing,
) -> Result<Drawing, Refusal>
    requires few { length (all_exits drawing.drawing) ≤ 4000 }
    ensures passed { IfOk result (λ moved. (text : List ℕ) → AfterStrands drawing.drawing text lines.old → AfterFingers moved.drawing text lines.new) }
    ensures polygon { IfOk result (λ moved. moved.drawing.polygon ≡ drawing.drawing.polygon) }
    ensures refuted { IfErr result (λ refusal. (text : List ℕ) → AfterStrands drawing.drawing text lines.old → Refutes text refusal) }
{
    let count = next_count(lines, "fingers", 0, MOST, Reason::Limit)?;
    let first = lines.number();
    let rows = read_rows::<Finger>(alloc, lines, "finger", count)?;
    settled(first, moved(drawing, rows.items.as_slice()), rows.breaks)
}
