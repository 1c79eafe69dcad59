// The surface that the lines from the polygons to the slides say.
ghost use Rattle.std.specs.Prelude.{◌≡◌, ◌≢◌, ◌<◌, ◌^◌, All, length, Err, IfErr, IfOk, IfSome, None, Ok, OnOk, Some};
ghost use Rattle.arc_basis.specs.Basis.{joined_polygon};
ghost use Rattle.curve_paths.specs.Curves.{IsCurve};
ghost use Rattle.curve_paths.specs.Through.{exits_through};
ghost use Rattle.handle_slide.specs.Slide.{some_curve};
ghost use Rattle.handle_slide.specs.Slides.{slid};
ghost use Rattle.handle_slide.specs.declared.refusal.RefusedSlide.{RefusedSlide as Refused};
ghost use Rattle.page_surface.specs.Joining.{joined as joined_page};
ghost use Rattle.witness_check.specs.BookRules.{SlidesCome, SlidesLeave, joined_curves, joined_with};
ghost use Rattle.witness_check.specs.declared.fault.Fault.{Fault as Broken};

use crate::checked::Reason;
use crate::fault::{Fault, Stop};
use arc_basis::{Basis, join};
use curve_paths::{Curve, PageCurve};
use handle_slide::{RefusedSlide, Slid, SlideRefusal, slide_all};
use obd_base::{Items, NoMemory, SideNo};
use page_surface::Page;
use std::alloc::Global;

/// A page joined to one polygon, and the polygon and the curves that slides leave of it, by their numbers: none
/// where a curve crosses no side.
pub(crate) struct Surface {
    pub(crate) basis: Basis,
    pub(crate) slid: Slid,
}

// By hand, so that a caller's proof holds one call and not the drop of each field.
impl Drop for Surface {
    fn drop(self) {
        let Surface {
            basis: _basis,
            slid: _slid,
        } = self;
    }
}

// A curve on the joined polygon, none where it crosses seams alone.
fn joined_curve(curve: &PageCurve, basis: &Basis) -> Result<Option<Curve>, NoMemory>
    requires { basis.now ≡ joined_page curve.now.page }
    ensures exits { IfOk result (λ joined. joined ≡ some_curve (exits_through curve.now.page curve.now.path)) }
    ensures curve { IfOk result (λ joined. IfSome joined (IsCurve (joined_polygon basis.now))) }
{
    curve.through(basis)
}

// The curves on the joined polygon.
fn joined_curves(
    alloc: Global,
    curves: &[PageCurve],
    basis: &Basis,
) -> Result<Items<Option<Curve>>, NoMemory>
    requires { All (λ curve. basis.now ≡ joined_page curve.page) curves.now }
    ensures exits { IfOk result (λ joined. joined ≡ joined_curves curves.now) }
    ensures curves { IfOk result (λ joined. All (λ curve. IfSome curve (IsCurve (joined_polygon basis.now))) joined) }
{
    let mut joined = Items::new(alloc);
    for curve in curves {
        joined.push(joined_curve(curve, basis)?)?;
    }
    Ok(joined)
}

// The joined polygon with the curves on it.
fn joined_surface(
    alloc: Global,
    page: &Page,
    curves: &[PageCurve],
    basis: &Basis,
) -> Result<Slid, NoMemory>
    requires pages { All (λ curve. curve.page ≡ page.now) curves.now }
    requires basis { basis.now ≡ joined_page page.now }
    ensures value { IfOk result (λ slid. slid ≡ joined_with page.now curves.now) }
    ensures curves { IfOk result (λ slid. All (λ curve. IfSome curve (IsCurve slid.polygon)) slid.curves) }
{
    Ok(Slid {
        polygon: basis.polygon().copy()?,
        curves: joined_curves(alloc, curves, basis)?,
    })
}

// The fault of a slide that isn't carried out, unless memory is wanting.
fn not_slid(refused: RefusedSlide) -> Stop
    requires { refused.reason ≢ SlideRefusal.NoMemory → refused.slide < 2 ^ 32 }
    ensures { (fault : Broken) → result ≡ Stop.Fault fault → (fault ≡ record { at = refused.slide; reason = Reason.Slide }) × (refused.reason ≢ SlideRefusal.NoMemory) }
{
    match refused.reason {
        SlideRefusal::NoMemory => Stop::NoMemory,
        _ => Stop::Fault(Fault {
            at: refused.slide as u32,
            reason: Reason::Slide,
        }),
    }
}

/// The surface of a page with some curves after some slides. The fault is the first slide that is refused. The
/// page is joined once, each curve is carried over once, and then the slides are carried out one after another.
pub(crate) fn surface_of(
    alloc: Global,
    page: &Page,
    curves: &[PageCurve],
    slides: &[SideNo],
) -> Result<Surface, Stop>
    requires few { length slides.now < 2 ^ 32 }
    requires pages { All (λ curve. curve.page ≡ page.now) curves.now }
    ensures basis { IfOk result (λ surface. surface.basis ≡ joined_page page.now) }
    ensures slid { IfOk result (λ surface. SlidesLeave page.now curves.now slides.now surface.slid) }
    ensures curves { IfOk result (λ surface. All (λ curve. IfSome curve (IsCurve surface.slid.polygon)) surface.slid.curves) }
    ensures kept { OnOk result (SlidesCome page.now curves.now slides.now None) }
    ensures fault { IfErr result (λ stop. (fault : Broken) → stop ≡ Stop.Fault fault → SlidesCome page.now curves.now slides.now (Some fault)) }
{
    let basis = join(alloc, page)?;
    let joined = joined_surface(alloc, page, curves, &basis)?;
    match slide_all(alloc, joined, slides) {
        Ok(slid) => Ok(Surface { basis, slid }),
        Err(refused) => Err(not_slid(refused)),
    }
}
