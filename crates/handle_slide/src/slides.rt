// Slides of a list, one after another.
ghost use Rattle.std.specs.Prelude.{◌≡◌, ◌≢◌, All, Ok, Err, None, Some, IfErr, IfOk, IfSome, OnOk};
ghost use Rattle.handle_slide.specs.Refused.{after_slide, refusal_of};
ghost use Rattle.handle_slide.specs.Slides.{slid};
ghost use Rattle.curve_paths.specs.Curves.{IsCurve};
ghost use Rattle.handle_slide.specs.declared.refusal.SlideRefusal.TheVariants as why;

use crate::refusal::RefusedSlide;
use crate::slid::Slid;
use crate::top::slide;
use obd_base::SideNo;
use std::alloc::Global;

// One slide of a list.
fn slide_once(
    alloc: Global,
    surface: &Slid,
    number: u64,
    side: SideNo,
) -> Result<Slid, RefusedSlide>
    requires { All (λ curve. IfSome curve (IsCurve surface.now.polygon)) surface.now.curves }
    ensures after { IfOk result (λ now. now ≡ after_slide surface.now side) }
    ensures stays { IfOk result (λ now. All (λ curve. IfSome curve (IsCurve now.polygon)) now.curves) }
    ensures accepted { OnOk result (refusal_of surface.now.polygon surface.now.curves side ≡ None) }
    ensures refused { IfErr result (λ refused. (refused.slide ≡ number) × (refused.side ≡ side)
        × (refused.reason ≢ why.NoMemory → refusal_of surface.now.polygon surface.now.curves side ≡ Some refused.reason)) }
{
    match slide(alloc, &surface.polygon, surface.curves.as_slice(), side) {
        Ok(slid) => Ok(slid),
        Err(reason) => Err(RefusedSlide {
            slide: number,
            side,
            reason,
        }),
    }
}

/// Carries slides out, one after another: the side of each is a side of the polygon that the slides before it leave.
///
/// Refuses with the first slide that is refused, exactly where there is one, by its number in the list, its side and why;
/// or wants memory, with the number of the slide that does. The cost is that of `slide` for each.
pub fn slide_all(alloc: Global, surface: Slid, slides: &[SideNo]) -> Result<Slid, RefusedSlide>
    requires curves { All (λ curve. IfSome curve (IsCurve surface.polygon)) surface.curves }
    ensures slid { IfOk result (λ now. slid 0 surface slides.now ≡ Ok now) }
    ensures stays { IfOk result (λ now. All (λ curve. IfSome curve (IsCurve now.polygon)) now.curves) }
    ensures refused { IfErr result (λ refused. refused.reason ≢ why.NoMemory → slid 0 surface slides.now ≡ Err refused) }
{
    let mut now = surface;
    for number in 0..slides.len() {
        now = slide_once(alloc, &now, number as u64, slides[number])?;
    }
    Ok(now)
}
