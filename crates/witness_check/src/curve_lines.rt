// The curves that the curve lines say.
ghost use Rattle.std.specs.Prelude.{◌≡◌, ◌≤◌, All, length, IfErr, IfOk, IfSome, None, OnOk, Some};
ghost use Rattle.std.specs.Option.{is_some};
ghost use Rattle.curve_paths.specs.PathTables.{HaveOccurrences};
ghost use Rattle.witness_check.specs.BookRules.{CurvesCome, is_curve_name, is_new_curve, on_page};
ghost use Rattle.witness_check.specs.declared.fault.Fault.{Fault as Broken};

use crate::checked::Reason;
use crate::fault::{Fault, Stop};
use curve_paths::{CurveRefusal, NamedPath, PageCurve};
use obd_base::{Items, Name, NoMemory};
use page_surface::Page;
use std::alloc::Global;

// The most crossings that a curve has.
const MOST_CROSSINGS: usize = 32;

// Whether some curve has the name.
pub(crate) fn has_name(curves: &[NamedPath], name: &Name) -> bool
    ensures { result ≡ is_curve_name curves.now name.now }
{
    curves
        .iter()
        .any(|curve| name.as_str() == curve.name.as_str())
}

// A curve on the page, `None` exactly where a curve before has its name or its path is no curve.
fn curve_of(
    alloc: Global,
    page: &Page,
    before: &[NamedPath],
    curve: &NamedPath,
) -> Result<Option<PageCurve>, NoMemory>
    requires { HaveOccurrences curve.now.path }
    ensures value { IfOk result (λ found. IfSome found (λ it. it ≡ record { page = page.now; path = curve.now.path })) }
    ensures some { IfOk result (λ found. is_some found ≡ is_new_curve page.now before.now curve.now) }
{
    let path = curve.path.as_slice();
    if has_name(before, &curve.name) || path.len() > MOST_CROSSINGS {
        return Ok(None);
    }
    match PageCurve::new(alloc, page, path) {
        Ok(curve) => Ok(Some(curve)),
        Err(CurveRefusal::NoMemory) => Err(NoMemory),
        Err(_) => Ok(None),
    }
}

/// The curves of some lines on the page, in order. The fault is the first line whose curve has the name of one
/// before, or is no curve on the page. For each curve linear in the page, its path and the names before, but
/// that each two of at most 32 chords are tried; a longer path isn't looked into.
pub(crate) fn curves_of(
    alloc: Global,
    page: &Page,
    curves: &[NamedPath],
) -> Result<Items<PageCurve>, Stop>
    requires few { length curves.now ≤ 32 }
    requires occurrences { All (λ curve. HaveOccurrences curve.path) curves.now }
    ensures curves { IfOk result (λ found. found ≡ on_page page.now curves.now) }
    ensures page { IfOk result (λ found. All (λ curve. curve.page ≡ page.now) found) }
    ensures kept { OnOk result (CurvesCome page.now curves.now None) }
    ensures fault { IfErr result (λ stop. (fault : Broken) → stop ≡ Stop.Fault fault → CurvesCome page.now curves.now (Some fault)) }
{
    let mut found = Items::new(alloc);
    for (number, curve) in curves.iter().enumerate() {
        match curve_of(alloc, page, &curves[..number], curve)? {
            Some(curve) => found.push(curve)?,
            None => {
                return Err(Stop::Fault(Fault {
                    at: number as u32,
                    reason: Reason::Curve,
                }));
            }
        }
    }
    Ok(found)
}
