// The surface of a book: its page joined to one polygon, and the polygon and its curves after the book's slides.
ghost use Rattle.std.specs.Prelude.{◌≡◌, ◌≢◌, ◌≤◌, ◌<◌, All, length, map, Err, IfErr, IfOk, IfSome};
ghost use Rattle.arc_basis.specs.Basis.{joined_polygon};
ghost use Rattle.curve_paths.specs.Curves.{IsCurve};
ghost use Rattle.curve_paths.specs.Through.{exits_through};
ghost use Rattle.handle_slide.specs.Slide.{some_curve};
ghost use Rattle.handle_slide.specs.declared.refusal.RefusedSlide.{RefusedSlide as Refused};
ghost use Rattle.handle_slide.specs.declared.refusal.SlideRefusal.TheVariants as why;
ghost use Rattle.page_surface.specs.Joining.{joined as joined_page};
ghost use Rattle.page_surface.specs.Labels.{labels_of};
ghost use Rattle.obd_doc.specs.Document.{IsBook};
ghost use Rattle.witness_check.specs.OpenBook.{arcs as arcs_of, joined_surface, seam_names as names_of_seams, surface_of};
ghost use Rattle.obd_cli.specs.Opened.{names_of, open_book};
ghost use Rattle.obd_cli.specs.Steps.{IsSurfaceOf};

use arc_basis::{Basis, join};
use curve_paths::Curve;
use handle_slide::{RefusedSlide, Slid, SlideRefusal, slide_all};
use obd_base::{ArcNo, Items, LabelNo, Name, NoMemory, SideNo};
use obd_doc::{Book, NamedCurve};
use page_surface::{Page, Polygon};
use std::alloc::Global;

/// A page joined to one polygon, and the polygon and the curves that slides leave of it, by their numbers in the book:
/// none where a curve crosses no side.
pub(crate) struct Surface {
    pub(crate) basis: Basis,
    pub(crate) slid: Slid,
}

// By hand, so that a caller's proof holds one call and not the drop of each field.
impl Drop for Surface {
    fn drop(self) {
        let Surface {
            basis: _basis,
            slid: _slid,
        } = self;
    }
}

/// Why a book has no surface.
#[derive(Clone, Copy)]
pub(crate) enum SurfaceRefusal {
    /// A slide is refused.
    Slide(RefusedSlide),
    /// Memory is wanting.
    NoMemory,
}

impl From<NoMemory> for SurfaceRefusal {
    ghost use Rattle.obd_cli.specs.declared.surface.SurfaceRefusal.TheVariants as refused;

    ghost from_gives = { λ _ refusal. refusal ≡ refused.NoMemory };

    fn from(_: NoMemory) -> Self {
        SurfaceRefusal::NoMemory
    }
}

// The refusal of a slide, which may be want of memory.
fn not_slid(refused: RefusedSlide) -> SurfaceRefusal
    ensures { (other : Refused) → result ≡ SurfaceRefusal.Slide other → (refused ≡ other) × (other.reason ≢ why.NoMemory) }
{
    match refused.reason {
        SlideRefusal::NoMemory => SurfaceRefusal::NoMemory,
        _ => SurfaceRefusal::Slide(refused),
    }
}

// A curve on the joined polygon, none where it crosses seams alone.
fn joined_curve(named: &NamedCurve, basis: &Basis) -> Result<Option<Curve>, NoMemory>
    requires { basis.now ≡ joined_page named.now.curve.page }
    ensures exits { IfOk result (λ curve. curve ≡ some_curve (exits_through named.now.curve.page named.now.curve.path)) }
    ensures curve { IfOk result (λ curve. IfSome curve (IsCurve (joined_polygon basis.now))) }
{
    named.curve.through(basis)
}

// The curves of a book on the joined polygon.
fn joined_curves(
    alloc: Global,
    book: &Book,
    basis: &Basis,
) -> Result<Items<Option<Curve>>, NoMemory>
    requires book { IsBook book.now }
    requires basis { basis.now ≡ joined_page book.now.page }
    ensures exits { IfOk result (λ curves. curves ≡ (joined_surface (open_book book.now)).curves) }
    ensures curves { IfOk result (λ curves. All (λ curve. IfSome curve (IsCurve (joined_polygon basis.now))) curves) }
{
    let mut curves = Items::new(alloc);
    for named in book.curves.as_slice() {
        curves.push(joined_curve(named, basis)?)?;
    }
    Ok(curves)
}

// The joined polygon with the curves of a book on it.
fn joined_surface(alloc: Global, book: &Book, basis: &Basis) -> Result<Slid, NoMemory>
    requires book { IsBook book.now }
    requires basis { basis.now ≡ joined_page book.now.page }
    ensures value { IfOk result (λ slid. slid ≡ joined_surface (open_book book.now)) }
    ensures curves { IfOk result (λ slid. All (λ curve. IfSome curve (IsCurve slid.polygon)) slid.curves) }
{
    Ok(Slid {
        polygon: basis.polygon().copy()?,
        curves: joined_curves(alloc, book, basis)?,
    })
}

/// The surface of a book. The page is joined once, each curve is carried over once, and then the slides are carried out one
/// after another. `Slide` comes exactly where one of these is refused, with the first such slide.
pub(crate) fn surface_of(alloc: Global, book: &Book) -> Result<Surface, SurfaceRefusal>
    requires { IsBook book.now }
    ensures surface { IfOk result (IsSurfaceOf book.now) }
    ensures refused { IfErr result (λ refusal. (refused : Refused) → refusal ≡ SurfaceRefusal.Slide refused → surface_of (open_book book.now) ≡ Err refused) }
{
    let basis = join(alloc, &book.page)?;
    let joined = joined_surface(alloc, book, &basis)?;
    match slide_all(alloc, joined, book.slides.as_slice()) {
        Ok(slid) => Ok(Surface { basis, slid }),
        Err(refused) => Err(not_slid(refused)),
    }
}

// The names of some labels of the page.
fn label_names(alloc: Global, page: &Page, labels: &[LabelNo]) -> Result<Items<Name>, NoMemory>
    requires { All (λ label. label < length (labels_of page.now)) labels.now }
    ensures { IfOk result (λ names. names ≡ names_of page.now labels.now) }
{
    let mut names = Items::new(alloc);
    for label in labels {
        names.push(Name::from_str(alloc, page.name(*label))?)?;
    }
    Ok(names)
}

// The arc of each side of a polygon.
fn side_arcs(alloc: Global, polygon: &Polygon) -> Result<Items<ArcNo>, NoMemory>
    ensures { IfOk result (λ arcs. arcs ≡ arcs_of polygon.now) }
{
    let mut arcs = Items::new(alloc);
    for side in 0..polygon.sides() {
        arcs.push(polygon.arc(SideNo::new(side)))?;
    }
    Ok(arcs)
}

impl Surface {
    /// The names of the labels that became seams. Linear in the text that they make.
    pub(crate) fn seam_names(&self, alloc: Global, page: &Page) -> Result<Items<Name>, NoMemory>
        requires { self.now.basis ≡ joined_page page.now }
        ensures { IfOk result (λ names. names ≡ names_of_seams page.now) }
    {
        // That a page has labels says that it is one.
        let _ = page.label_count();
        label_names(alloc, page, self.basis.seams())
    }

    /// The arc of each side after the slides. Linear in the sides.
    pub(crate) fn arcs(&self, alloc: Global) -> Result<Items<ArcNo>, NoMemory>
        ensures { IfOk result (λ arcs. arcs ≡ arcs_of self.now.slid.polygon) }
    {
        side_arcs(alloc, &self.slid.polygon)
    }
}
