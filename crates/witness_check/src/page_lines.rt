// The page that the polygon lines say.
ghost use Rattle.std.specs.Prelude.{◌≡◌, ◌≤◌, ◌↔◌, false, length, map, string_bytes, None, IfOk, IfSome};
ghost use Rattle.std.specs.List.{list_all};
ghost use Rattle.std.specs.Option.{is_none};
ghost use Rattle.page_surface.specs.Page.{refusal_of as page_refusal};
ghost use Rattle.witness_check.specs.BookRules.{is_narrow};

use obd_base::{Items, Name, NoMemory};
use page_surface::{Page, PageRefusal};
use std::alloc::Global;

// The most sides that the polygons of a page have together: 24 labels, each twice.
const MOST_SIDES: usize = 48;

// The strings of some names.
fn strings_of(alloc: Global, names: &[Name]) -> Result<Vec<String>, NoMemory>
    ensures { IfOk result (λ strings. map string_bytes strings.items ≡ names.now) }
{
    let mut strings = Vec::new(alloc);
    for name in names {
        strings.push(String::from_str(alloc, name.as_str())?)?;
    }
    Ok(strings)
}

// The labels of each polygon, as strings.
fn labels_of(alloc: Global, polygons: &[Items<Name>]) -> Result<Vec<Vec<String>>, NoMemory>
    ensures { IfOk result (λ labels. map (λ p. map string_bytes p.items) labels.items ≡ polygons.now) }
{
    let mut labels = Vec::new(alloc);
    for polygon in polygons {
        labels.push(strings_of(alloc, polygon.as_slice())?)?;
    }
    Ok(labels)
}

// Whether no polygon has more sides than a page.
fn are_narrow(polygons: &[Items<Name>]) -> bool
    ensures { result ≡ list_all is_narrow polygons.now }
{
    polygons.iter().all(|polygon| polygon.len() <= MOST_SIDES)
}

/// The page of some polygons, `None` exactly where they are no page. Expected time linear in the sides of a
/// page, and for what is joined to one another once more for each polygon; a polygon with more sides than any
/// page has isn't looked into.
pub(crate) fn page_of(alloc: Global, polygons: &[Items<Name>]) -> Result<Option<Page>, NoMemory>
    requires { length polygons.now ≤ 16 }
    ensures value { IfOk result (λ found. IfSome found (λ page. page ≡ polygons.now)) }
    ensures none { IfOk result (λ found. (found ≡ None) ↔ (is_none (page_refusal polygons.now) ≡ false)) }
{
    if !are_narrow(polygons) {
        return Ok(None);
    }
    let labels = labels_of(alloc, polygons)?;
    match Page::new(alloc, &labels) {
        Ok(page) => Ok(Some(page)),
        Err(PageRefusal::NoMemory) => Err(NoMemory),
        Err(_) => Ok(None),
    }
}
