// What is told of slides. Each function owns one value at most and lends the others.
ghost use Rattle.std.specs.Prelude.{◌≡◌, All, IfSome};
ghost use Rattle.curve_paths.specs.Curves.{IsCurve};
ghost use Rattle.page_surface.specs.Joining.{joined};

use crate::exits::put_exits;
use crate::monodromies::curves_of;
use crate::pages::page_of;
use crate::stop::Stop;
use arc_basis::{Basis, join};
use curve_paths::Curve;
use handle_slide::{Slid, slide_all};
use obd_base::{Items, NoMemory, SideNo};
use page_surface::{Page, Polygon};
use std::alloc::{AllocError, Global};

/// Slides on a page, `PAGE : SIDES : PATHS`, with `,` between paths: for each side of the polygon after them its arc, and
/// then the exits of each curve; or the first slide that is refused, by its number, its side and why.
pub(crate) fn slides_told(alloc: Global, given: &str) -> Result<String, Stop> {
    let Some((page, rest)) = given.split_once(" : ") else {
        return Err(Stop::NotRead);
    };
    let Some((sides, paths)) = rest.split_once(" :") else {
        return Err(Stop::NotRead);
    };
    let sides = side_numbers(alloc, sides)?;
    slides_of(alloc, page, &sides, paths)
}

// Sides by their numbers. None needs to be one of the polygon.
fn side_numbers(alloc: Global, text: &str) -> Result<Vec<SideNo>, Stop> {
    let mut sides = Vec::new(alloc);
    for word in text.split_whitespace() {
        let Ok(number) = word.parse::<u32>() else {
            return Err(Stop::NotRead);
        };
        sides.push(SideNo::new(number))?;
    }
    Ok(sides)
}

fn slides_of(alloc: Global, page: &str, sides: &[SideNo], paths: &str) -> Result<String, Stop> {
    let page = page_of(alloc, page)?;
    slides_on(alloc, &page, sides, paths)
}

fn slides_on(alloc: Global, page: &Page, sides: &[SideNo], paths: &str) -> Result<String, Stop> {
    match join(alloc, page) {
        Ok(basis) => slides_along(alloc, page, &basis, sides, paths),
        Err(NoMemory) => Err(Stop::NoMemory),
    }
}

fn slides_along(
    alloc: Global,
    page: &Page,
    basis: &Basis,
    sides: &[SideNo],
    paths: &str,
) -> Result<String, Stop>
    requires basis { basis.now ≡ joined page.now }
{
    let curves = curves_of(alloc, page, basis, paths)?;
    match basis.polygon().copy() {
        Ok(polygon) => slides_from(alloc, polygon, curves, sides),
        Err(NoMemory) => Err(Stop::NoMemory),
    }
}

fn slides_from(
    alloc: Global,
    polygon: Polygon,
    curves: Vec<Option<Curve>>,
    sides: &[SideNo],
) -> Result<String, Stop>
    requires { All (λ curve. IfSome curve (IsCurve polygon)) curves.items }
{
    let surface = Slid {
        polygon,
        curves: Items::from_vec(curves),
    };
    match slide_all(alloc, surface, sides) {
        Ok(slid) => slid_told(alloc, &slid),
        Err(refused) => {
            Ok(format!(in alloc;
                "{} {} {:?}",
                refused.slide,
                refused.side.number(),
                refused.reason
            )?)
        }
    }
}

fn slid_told(alloc: Global, slid: &Slid) -> Result<String, Stop> {
    let mut text = String::from_str(alloc, "arcs ")?;
    for side in 0..slid.polygon.sides() {
        write!(text, "{} ", slid.polygon.arc(SideNo::new(side)).number())?;
    }
    put_curves(&mut text, slid.curves.as_slice())?;
    Ok(text)
}

fn put_curves(text: &mut String, curves: &[Option<Curve>]) -> Result<(), AllocError> {
    for curve in curves {
        text.push_str(": ")?;
        match curve {
            Some(curve) => put_exits(text, curve.exits())?,
            None => text.push_str("no side ")?,
        }
    }
    Ok(())
}
