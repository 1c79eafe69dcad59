// The stage of the curves.
ghost use Rattle.std.specs.Prelude.{◌≡◌, ◌≤◌, ℕ, List, All, length, IfErr, IfOk};
ghost use Rattle.witness_check.specs.Between.{AfterCurves, AfterPolygons, Refutes};
ghost use Rattle.witness_check.specs.BookRules.{on_page};

use crate::checked::Reason;
use crate::curve_lines::curves_of;
use crate::fault::Refusal;
use crate::lines::Lines;
use crate::settling::settled;
use crate::taking::{next_count, read_rows};
use curve_paths::{NamedPath, PageCurve};
use obd_base::Items;
use page_surface::Page;
use std::alloc::Global;

// The most curves of a certificate.
const MOST: u32 = 32;

/// Curves by their names, and each on the page.
pub(crate) struct Curves {
    pub(crate) named: Items<NamedPath>,
    pub(crate) on_page: Items<PageCurve>,
}

// By hand, so that a caller's proof holds one call and not the drop of each field.
impl Drop for Curves {
    fn drop(self) {
        let Curves {
            named: _named,
            on_page: _on_page,
        } = self;
    }
}

/// Reads the lines of the curves: the curves on the page. The cost is that of `curves_of`.
pub(crate) fn curves_stage(alloc: Global, lines: &mut Lines, page: &Page) -> Result<Curves, Refusal>
    ensures passed { IfOk result (λ curves. (text : List ℕ) → AfterPolygons page.now text lines.old → AfterCurves page.now curves.named text lines.new) }
    ensures on_page { IfOk result (λ curves. curves.on_page ≡ on_page page.now curves.named) }
    ensures page { IfOk result (λ curves. All (λ curve. curve.page ≡ page.now) curves.on_page) }
    ensures few { IfOk result (λ curves. length curves.named ≤ 32) }
    ensures refuted { IfErr result (λ refusal. (text : List ℕ) → AfterPolygons page.now text lines.old → Refutes text refusal) }
{
    let count = next_count(lines, "curves", 0, MOST, Reason::Limit)?;
    let first = lines.number();
    let rows = read_rows::<NamedPath>(alloc, lines, "curve", count)?;
    let found = curves_of(alloc, page, rows.items.as_slice());
    let on_page = settled(first, found, rows.breaks)?;
    Ok(Curves {
        named: rows.items,
        on_page,
    })
}
