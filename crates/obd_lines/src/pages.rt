// Pages, written shortly, and what is told of them.
ghost use Rattle.std.specs.Prelude.{◌<◌, ◌^◌, map, length, string_bytes, IsTrue};
ghost use Rattle.page_surface.specs.Labels.{all_sides};

use crate::stop::Stop;
use arc_basis::join;
use obd_base::{LabelNo, NoMemory};
use page_surface::{Page, Polygon};
use std::alloc::{AllocError, Global};

// The labels of polygons: a letter is a label, blanks part polygons, and `.` is a polygon without a side.
fn polygons_of(alloc: Global, text: &str) -> Result<Vec<Vec<String>>, AllocError> {
    let mut polygons = Vec::new(alloc);
    for word in text.split_whitespace() {
        polygons.push(labels_of_word(alloc, word)?)?;
    }
    Ok(polygons)
}

fn labels_of_word(alloc: Global, word: &str) -> Result<Vec<String>, AllocError> {
    let mut labels = Vec::new(alloc);
    for letter in word.chars() {
        if letter != '.' {
            let mut label = String::new(alloc);
            label.push(letter)?;
            labels.push(label)?;
        }
    }
    Ok(labels)
}

// There are few polygons and few sides.
fn is_small(polygons: &[Vec<String>]) -> bool
    ensures few_polygons { IsTrue result → length polygons.now < 2 ^ 32 }
    ensures few { IsTrue result → length (all_sides (map (λ p. map string_bytes p.items) polygons.now)) < 2 ^ 32 }
{
    let mut sides = 0u32;
    for labels in polygons {
        if labels.len() > 1000 || sides > 1000 {
            return false;
        }
        sides += labels.len() as u32;
    }
    polygons.len() < 1000
}

/// A page, `POLYGONS`: its labels, each with its number; or its refusal.
pub(crate) fn page_told(alloc: Global, given: &str) -> Result<String, Stop> {
    let polygons = polygons_of(alloc, given)?;
    page_on(alloc, &polygons)
}

fn page_on(alloc: Global, polygons: &[Vec<String>]) -> Result<String, Stop> {
    if !is_small(polygons) {
        return Err(Stop::NotRead);
    }
    match Page::new(alloc, polygons) {
        Ok(page) => labels_told(alloc, &page),
        Err(refusal) => Ok(format!(in alloc; "{refusal:?}")?),
    }
}

fn labels_told(alloc: Global, page: &Page) -> Result<String, Stop> {
    let mut text = String::from_str(alloc, "page")?;
    for number in 0..page.label_count() {
        let name = page.name(LabelNo::new(number));
        if let Some(label) = page.label(name) {
            write!(text, " {name}={}", label.number())?;
        }
    }
    Ok(text)
}

/// The page of some polygons.
pub(crate) fn page_of(alloc: Global, text: &str) -> Result<Page, Stop> {
    let polygons = polygons_of(alloc, text)?;
    if !is_small(&polygons) {
        return Err(Stop::NotRead);
    }
    match Page::new(alloc, &polygons) {
        Ok(page) => Ok(page),
        Err(_) => Err(Stop::NotRead),
    }
}

/// The polygon that a page is joined to.
pub(crate) fn polygon_of(alloc: Global, text: &str) -> Result<Polygon, Stop> {
    let page = page_of(alloc, text)?;
    polygon_on(alloc, &page)
}

fn polygon_on(alloc: Global, page: &Page) -> Result<Polygon, Stop> {
    match join(alloc, page) {
        Ok(basis) => Ok(basis.polygon().copy()?),
        Err(NoMemory) => Err(Stop::NoMemory),
    }
}
