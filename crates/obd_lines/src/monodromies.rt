// What is told of twist words that are drawn.
ghost use Rattle.std.specs.Prelude.{◌≡◌, ◌≤◌, All, length, IfOk, IfSome};
ghost use Rattle.arc_basis.specs.Basis.{joined_polygon};
ghost use Rattle.page_surface.specs.Joining.{joined};
ghost use Rattle.curve_paths.specs.Curves.{IsCurve};
ghost use Rattle.curve_paths.specs.PathTables.{HaveOccurrences};

use crate::drawings::strands_told;
use crate::pages::page_of;
use crate::paths::path_of;
use crate::stop::Stop;
use arc_basis::{Basis, join};
use curve_paths::{Cross, Curve, PageCurve, Twist};
use monodromy::{MonodromyRefusal, drawn};
use obd_base::NoMemory;
use page_surface::{Page, Polygon};
use std::alloc::Global;

/// A twist word on a page, `PAGE : PATHS : TWISTS`: `,` stands between paths, and `0^-2` is the twist
/// along the curve of path 0 to the power -2. The exits of its drawing; or `TooLong` with the entry and the letters.
pub(crate) fn monodromy_told(alloc: Global, given: &str) -> Result<String, Stop> {
    let Some((page, rest)) = given.split_once(" : ") else {
        return Err(Stop::NotRead);
    };
    let Some((paths, twists)) = rest.split_once(" :") else {
        return Err(Stop::NotRead);
    };
    let page = page_of(alloc, page)?;
    monodromy_on(alloc, &page, paths, twists)
}

fn monodromy_on(alloc: Global, page: &Page, paths: &str, twists: &str) -> Result<String, Stop> {
    match join(alloc, page) {
        Ok(basis) => monodromy_along(alloc, page, &basis, paths, twists),
        Err(NoMemory) => Err(Stop::NoMemory),
    }
}

fn monodromy_along(
    alloc: Global,
    page: &Page,
    basis: &Basis,
    paths: &str,
    twists: &str,
) -> Result<String, Stop>
    requires basis { basis.now ≡ joined page.now }
{
    let curves = curves_of(alloc, page, basis, paths)?;
    monodromy_by(alloc, basis.polygon(), &curves, twists)
}

fn monodromy_by(
    alloc: Global,
    polygon: &Polygon,
    curves: &[Option<Curve>],
    twists: &str,
) -> Result<String, Stop>
    requires { All (λ curve. IfSome curve (IsCurve polygon.now)) curves.now }
{
    let twists = twists_of(alloc, twists)?;
    match drawn(alloc, polygon, curves, &twists) {
        Ok(drawing) => strands_told(alloc, &drawing),
        Err(MonodromyRefusal::TooLong(long)) => {
            Ok(format!(in alloc; "TooLong {} {}", long.twist, long.letters)?)
        }
        Err(MonodromyRefusal::NoMemory) => Err(Stop::NoMemory),
    }
}

/// The curves of paths, with `,` between them, on the joined polygon.
pub(crate) fn curves_of(
    alloc: Global,
    page: &Page,
    basis: &Basis,
    paths: &str,
) -> Result<Vec<Option<Curve>>, Stop>
    requires basis { basis.now ≡ joined page.now }
    ensures { IfOk result (λ curves. All (λ curve. IfSome curve (IsCurve (joined_polygon basis.now))) curves.items) }
{
    let mut curves = Vec::new(alloc);
    for path in paths.split(',') {
        curves.push(curve_of(alloc, page, basis, path)?)?;
    }
    Ok(curves)
}

fn curve_of(alloc: Global, page: &Page, basis: &Basis, path: &str) -> Result<Option<Curve>, Stop>
    requires basis { basis.now ≡ joined page.now }
    ensures { IfOk result (λ curve. IfSome curve (IsCurve (joined_polygon basis.now))) }
{
    let path = path_of(alloc, path)?;
    curve_along(alloc, page, basis, &path)
}

fn curve_along(
    alloc: Global,
    page: &Page,
    basis: &Basis,
    path: &[Cross],
) -> Result<Option<Curve>, Stop>
    requires path { HaveOccurrences path.now }
    requires basis { basis.now ≡ joined page.now }
    ensures { IfOk result (λ curve. IfSome curve (IsCurve (joined_polygon basis.now))) }
{
    if path.len() > 1000 {
        return Err(Stop::NotRead);
    }
    match PageCurve::new(alloc, page, path) {
        Ok(curve) => Ok(curve.through(basis)?),
        Err(_) => Err(Stop::NotRead),
    }
}

// The entries of a twist word.
fn twists_of(alloc: Global, text: &str) -> Result<Vec<Twist>, Stop> {
    let mut twists = Vec::new(alloc);
    for word in text.split_whitespace() {
        twists.push(twist_of(word)?)?;
    }
    Ok(twists)
}

fn twist_of(word: &str) -> Result<Twist, Stop> {
    let Some((curve, power)) = word.split_once('^') else {
        return Err(Stop::NotRead);
    };
    let Ok(curve) = curve.parse::<u32>() else {
        return Err(Stop::NotRead);
    };
    let Ok(power) = power.parse::<i32>() else {
        return Err(Stop::NotRead);
    };
    Ok(Twist { curve, power })
}
