// The stage of the slides.
ghost use Rattle.std.specs.Prelude.{◌≡◌, ℕ, List, All, IfErr, IfOk, IfSome};
ghost use Rattle.curve_paths.specs.Curves.{IsCurve};
ghost use Rattle.page_surface.specs.Joining.{joined as joined_page};
ghost use Rattle.witness_check.specs.Between.{AfterCurves, AfterSlides, Refutes};
ghost use Rattle.witness_check.specs.BookRules.{on_page};

use crate::checked::Reason;
use crate::curves_stage::Curves;
use crate::fault::Refusal;
use crate::lines::Lines;
use crate::settling::settled;
use crate::surface::{Surface, surface_of};
use crate::taking::{next_count, read_rows};
use obd_base::SideNo;
use page_surface::Page;
use std::alloc::Global;

// The most slides of a certificate.
const MOST: u32 = 64;

/// Reads the lines of the slides: the surface of the page and the curves after them. The cost is that of `surface_of`.
pub(crate) fn slides_stage(
    alloc: Global,
    lines: &mut Lines,
    page: &Page,
    curves: &Curves,
) -> Result<Surface, Refusal>
    requires on_page { curves.now.on_page ≡ on_page page.now curves.now.named }
    requires page { All (λ curve. curve.page ≡ page.now) curves.now.on_page }
    ensures passed { IfOk result (λ surface. (text : List ℕ) → AfterCurves page.now curves.now.named text lines.old → AfterSlides page.now curves.now.named surface.slid text lines.new) }
    ensures basis { IfOk result (λ surface. surface.basis ≡ joined_page page.now) }
    ensures curves { IfOk result (λ surface. All (λ curve. IfSome curve (IsCurve surface.slid.polygon)) surface.slid.curves) }
    ensures refuted { IfErr result (λ refusal. (text : List ℕ) → AfterCurves page.now curves.now.named text lines.old → Refutes text refusal) }
{
    let count = next_count(lines, "slides", 0, MOST, Reason::Limit)?;
    let first = lines.number();
    let rows = read_rows::<SideNo>(alloc, lines, "slide", count)?;
    let found = surface_of(
        alloc,
        page,
        curves.on_page.as_slice(),
        rows.items.as_slice(),
    );
    settled(first, found, rows.breaks)
}
