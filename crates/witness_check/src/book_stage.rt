// The stage of the book: its page, its curves, its slides, its twists, and the seams and the basis.
ghost use Rattle.std.specs.Prelude.{◌≡◌, ◌≤◌, ℕ, All, List, length, IfErr, IfOk, IfSome};
ghost use Rattle.curve_paths.specs.Curves.{IsCurve};
ghost use Rattle.curve_paths.specs.Twists.{AreWords};
ghost use Rattle.page_surface.specs.Joining.{joined as joined_page};
ghost use Rattle.witness_check.specs.Between.{AfterBook, AfterCurves, AfterPolygons, AfterSlides, AfterVersion, Refutes};
ghost use Rattle.witness_check.specs.BookRules.{on_page};

use crate::basis_stage::joined_stage;
use crate::curves_stage::{Curves, curves_stage};
use crate::fault::Refusal;
use crate::lines::Lines;
use crate::polygons_stage::polygons_stage;
use crate::slides_stage::slides_stage;
use crate::surface::Surface;
use crate::twists_stage::twists_stage;
use curve_paths::NamedPath;
use obd_base::{Items, SideNo};
use page_surface::Page;
use std::alloc::Global;

/// The surface after the slides of a book, and the words of all strands after its twists.
pub(crate) struct Book {
    pub(crate) surface: Surface,
    pub(crate) words: Items<Items<SideNo>>,
}

// By hand, so that a caller's proof holds one call and not the drop of each field.
impl Drop for Book {
    fn drop(self) {
        let Book {
            surface: _surface,
            words: _words,
        } = self;
    }
}

// The words, by the lines behind those of the slides.
fn words_stage(
    alloc: Global,
    lines: &mut Lines,
    page: &Page,
    curves: &[NamedPath],
    surface: &Surface,
) -> Result<Items<Items<SideNo>>, Refusal>
    requires few { length curves.now ≤ 32 }
    requires basis { surface.now.basis ≡ joined_page page.now }
    requires curves { All (λ curve. IfSome curve (IsCurve surface.now.slid.polygon)) surface.now.slid.curves }
    ensures passed { IfOk result (λ words. (text : List ℕ) → AfterSlides page.now curves.now surface.now.slid text lines.old → AfterBook surface.now.slid.polygon words text lines.new) }
    ensures words { IfOk result (AreWords surface.now.slid.polygon) }
    ensures refuted { IfErr result (λ refusal. (text : List ℕ) → AfterSlides page.now curves.now surface.now.slid text lines.old → Refutes text refusal) }
{
    let words = twists_stage(alloc, lines, surface, curves)?;
    joined_stage(alloc, lines, page, surface)?;
    Ok(words)
}

// The surface and the words, by the lines behind those of the curves.
fn surface_stage(
    alloc: Global,
    lines: &mut Lines,
    page: &Page,
    curves: &Curves,
) -> Result<Book, Refusal>
    requires on_page { curves.now.on_page ≡ on_page page.now curves.now.named }
    requires page { All (λ curve. curve.page ≡ page.now) curves.now.on_page }
    requires few { length curves.now.named ≤ 32 }
    ensures passed { IfOk result (λ book. (text : List ℕ) → AfterCurves page.now curves.now.named text lines.old → AfterBook book.surface.slid.polygon book.words text lines.new) }
    ensures words { IfOk result (λ book. AreWords book.surface.slid.polygon book.words) }
    ensures refuted { IfErr result (λ refusal. (text : List ℕ) → AfterCurves page.now curves.now.named text lines.old → Refutes text refusal) }
{
    let surface = slides_stage(alloc, lines, page, curves)?;
    let words = words_stage(alloc, lines, page, curves.named.as_slice(), &surface)?;
    Ok(Book { surface, words })
}

// The surface and the words, by the lines behind those of the polygons.
fn curved_stage(alloc: Global, lines: &mut Lines, page: &Page) -> Result<Book, Refusal>
    ensures passed { IfOk result (λ book. (text : List ℕ) → AfterPolygons page.now text lines.old → AfterBook book.surface.slid.polygon book.words text lines.new) }
    ensures words { IfOk result (λ book. AreWords book.surface.slid.polygon book.words) }
    ensures refuted { IfErr result (λ refusal. (text : List ℕ) → AfterPolygons page.now text lines.old → Refutes text refusal) }
{
    let curves = curves_stage(alloc, lines, page)?;
    surface_stage(alloc, lines, page, &curves)
}

/// Reads the lines of a book, from those of the polygons to that of the basis: its surface after the slides, and the words of all
/// strands after the twists. The cost is that of the stages.
pub(crate) fn book_stage(alloc: Global, lines: &mut Lines) -> Result<Book, Refusal>
    ensures passed { IfOk result (λ book. (text : List ℕ) → AfterVersion text lines.old → AfterBook book.surface.slid.polygon book.words text lines.new) }
    ensures words { IfOk result (λ book. AreWords book.surface.slid.polygon book.words) }
    ensures refuted { IfErr result (λ refusal. (text : List ℕ) → AfterVersion text lines.old → Refutes text refusal) }
{
    let page = polygons_stage(alloc, lines)?;
    curved_stage(alloc, lines, &page)
}
