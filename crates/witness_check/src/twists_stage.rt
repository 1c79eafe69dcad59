// The stage of the twists.
ghost use Rattle.std.specs.Prelude.{◌≡◌, ◌≤◌, ℕ, List, All, length, IfErr, IfOk, IfSome};
ghost use Rattle.curve_paths.specs.Curves.{IsCurve};
ghost use Rattle.curve_paths.specs.Twists.{AreWords};
ghost use Rattle.page_surface.specs.Labels.{Label};
ghost use Rattle.witness_check.specs.Between.{AfterSlides, AfterTwists, Refutes};

use crate::checked::Reason;
use crate::fault::Refusal;
use crate::lines::Lines;
use crate::settling::settled;
use crate::surface::Surface;
use crate::taking::{next_count, read_rows};
use crate::twist_lines::words_of;
use curve_paths::{NamedPath, NamedTwist};
use obd_base::{Items, SideNo};
use std::alloc::Global;

// The most entries of a certificate's twist word.
const MOST: u32 = 256;

/// Reads the lines of the twists: the words of all strands after them. The cost is that of `words_of`.
pub(crate) fn twists_stage(
    alloc: Global,
    lines: &mut Lines,
    surface: &Surface,
    curves: &[NamedPath],
) -> Result<Items<Items<SideNo>>, Refusal>
    requires few { length curves.now ≤ 32 }
    requires curves { All (λ curve. IfSome curve (IsCurve surface.now.slid.polygon)) surface.now.slid.curves }
    ensures passed { IfOk result (λ words. (page : List (List Label)) (text : List ℕ) → AfterSlides page curves.now surface.now.slid text lines.old → AfterTwists page surface.now.slid.polygon words text lines.new) }
    ensures words { IfOk result (λ words. AreWords surface.now.slid.polygon words) }
    ensures refuted { IfErr result (λ refusal. (page : List (List Label)) (text : List ℕ) → AfterSlides page curves.now surface.now.slid text lines.old → Refutes text refusal) }
{
    let count = next_count(lines, "twists", 0, MOST, Reason::Limit)?;
    let first = lines.number();
    let rows = read_rows::<NamedTwist>(alloc, lines, "twist", count)?;
    let found = words_of(alloc, surface, curves, rows.items.as_slice());
    settled(first, found, rows.breaks)
}
