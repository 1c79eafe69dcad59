// What is told of curves and of the twists along them. Each function owns one value at most and lends the others: where a
// function may end early, its proof drops all that it owns there.
ghost use Rattle.std.specs.Prelude.{◌≡◌, ◌<◌, ◌≤◌, length, All};
ghost use Rattle.arc_basis.specs.Basis.{joined_polygon};
ghost use Rattle.page_surface.specs.Joining.{joined};
ghost use Rattle.page_surface.specs.Polygon.{sides};
ghost use Rattle.curve_paths.specs.Curves.{IsCurve};
ghost use Rattle.curve_paths.specs.PathTables.{HaveOccurrences};

use crate::exits::put_exits;
use crate::pages::page_of;
use crate::paths::path_of;
use crate::stop::Stop;
use crate::words::{put_sides, sides_of};
use arc_basis::{Basis, join};
use curve_paths::{Cross, Curve, PageCurve};
use obd_base::{ArcNo, NoMemory, SideNo, Sign};
use page_surface::{Page, Polygon};
use path_words::{ActRefusal, act};
use std::alloc::Global;

/// A curve on a page, `PAGE : PATH`: its exits on the joined polygon; or its refusal.
pub(crate) fn curve_told(alloc: Global, given: &str) -> Result<String, Stop> {
    let Some((page, path)) = given.split_once(" :") else {
        return Err(Stop::NotRead);
    };
    let page = page_of(alloc, page)?;
    curve_on(alloc, &page, path)
}

fn curve_on(alloc: Global, page: &Page, path: &str) -> Result<String, Stop> {
    let path = path_of(alloc, path)?;
    curve_along(alloc, page, &path)
}

fn curve_along(alloc: Global, page: &Page, path: &[Cross]) -> Result<String, Stop>
    requires { HaveOccurrences path.now }
{
    if path.len() > 1000 {
        return Err(Stop::NotRead);
    }
    match PageCurve::new(alloc, page, path) {
        Ok(curve) => exits_told(alloc, page, &curve),
        Err(refusal) => Ok(format!(in alloc; "{refusal:?}")?),
    }
}

fn exits_told(alloc: Global, page: &Page, curve: &PageCurve) -> Result<String, Stop>
    requires { curve.now.page ≡ page.now }
{
    let mut text = String::from_str(alloc, "curve ")?;
    put_joined(alloc, page, curve, &mut text)?;
    Ok(text)
}

fn put_joined(alloc: Global, page: &Page, curve: &PageCurve, text: &mut String) -> Result<(), Stop>
    requires curve { curve.now.page ≡ page.now }
{
    let basis = join(alloc, page)?;
    match curve.through(&basis) {
        Ok(Some(joined)) => Ok(put_exits(text, joined.exits())?),
        Ok(None) => Ok(text.push_str("across seams alone")?),
        Err(NoMemory) => Err(Stop::NoMemory),
    }
}

/// A single twist along a curve, `PAGE : PATH : SIGN ARC : WORD` with SIGN `+` or `-`: the image of the word as one of the
/// strand of the arc.
pub(crate) fn image_told(alloc: Global, given: &str) -> Result<String, Stop> {
    let Some((page, rest)) = given.split_once(" : ") else {
        return Err(Stop::NotRead);
    };
    let Some((path, rest)) = rest.split_once(" : ") else {
        return Err(Stop::NotRead);
    };
    let page = page_of(alloc, page)?;
    image_on(alloc, &page, path, rest)
}

fn image_on(alloc: Global, page: &Page, path: &str, rest: &str) -> Result<String, Stop> {
    match join(alloc, page) {
        Ok(basis) => image_by_path(alloc, page, &basis, path, rest),
        Err(NoMemory) => Err(Stop::NoMemory),
    }
}

fn image_by_path(
    alloc: Global,
    page: &Page,
    basis: &Basis,
    path: &str,
    rest: &str,
) -> Result<String, Stop>
    requires basis { basis.now ≡ joined page.now }
{
    let path = path_of(alloc, path)?;
    if path.len() > 1000 {
        return Err(Stop::NotRead);
    }
    match PageCurve::new(alloc, page, &path) {
        Ok(curve) => image_by_curve(alloc, &curve, basis, rest),
        Err(_) => Err(Stop::NotRead),
    }
}

fn image_by_curve(
    alloc: Global,
    curve: &PageCurve,
    basis: &Basis,
    rest: &str,
) -> Result<String, Stop>
    requires basis { basis.now ≡ joined curve.now.page }
{
    match curve.through(basis) {
        Ok(Some(curve)) => image_of(alloc, basis.polygon(), &curve, rest),
        Ok(None) => Err(Stop::NotRead),
        Err(NoMemory) => Err(Stop::NoMemory),
    }
}

fn image_of(alloc: Global, polygon: &Polygon, curve: &Curve, rest: &str) -> Result<String, Stop>
    requires { IsCurve polygon.now curve.now }
{
    let Some((strand, word)) = rest.split_once(" :") else {
        return Err(Stop::NotRead);
    };
    let Some((sign, arc)) = strand.split_once(' ') else {
        return Err(Stop::NotRead);
    };
    let Ok(arc) = arc.parse::<u32>() else {
        return Err(Stop::NotRead);
    };
    if arc >= polygon.sides() / 2 {
        return Err(Stop::NotRead);
    }
    let sign = if sign == "-" { Sign::Minus } else { Sign::Plus };
    let first = polygon.first_side(ArcNo::new(arc));
    let word = sides_of(alloc, polygon, word)?;
    image_told_of(alloc, polygon, curve, sign, &word, first)
}

fn image_told_of(
    alloc: Global,
    polygon: &Polygon,
    curve: &Curve,
    sign: Sign,
    word: &[SideNo],
    first: SideNo,
) -> Result<String, Stop>
    requires curve { IsCurve polygon.now curve.now }
    requires word { All (λ s. s < sides polygon.now) word.now }
    requires first { first < sides polygon.now }
{
    let second = polygon.pair(first);
    if word.len() > 4000 || second.number() >= polygon.sides() {
        return Err(Stop::NotRead);
    }
    match act(alloc, polygon, curve, sign, word, second, first) {
        Ok(image) => word_line(alloc, &image),
        Err(ActRefusal::TooLong { letters }) => Ok(format!(in alloc; "TooLong {letters}")?),
        Err(ActRefusal::NoMemory) => Err(Stop::NoMemory),
    }
}

fn word_line(alloc: Global, word: &[SideNo]) -> Result<String, Stop> {
    let mut text = String::from_str(alloc, "word")?;
    put_sides(&mut text, word)?;
    Ok(text)
}
