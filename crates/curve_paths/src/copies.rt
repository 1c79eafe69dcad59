// Copies of a page's polygons and of a path.
ghost use Rattle.std.specs.Prelude.{◌≡◌, ◌<◌, [], length, slice_index_or, IfOk};

use crate::Cross;
use obd_base::{Items, Name, NoMemory};
use page_surface::Page;
use std::alloc::Global;

// The labels of a polygon of a page, by name.
fn polygon_names(alloc: Global, page: &Page, polygon: u32) -> Result<Items<Name>, NoMemory>
    requires { polygon < length page.now }
    ensures { IfOk result (λ names. names ≡ slice_index_or page.now polygon []) }
{
    let mut names = Items::new(alloc);
    for side in 0..page.sides_of(polygon) {
        let label = page.label_at(polygon, side).label;
        names.push(Name::from_str(alloc, page.name(label))?)?;
    }
    Ok(names)
}

/// The polygons of a page, each the list of its labels by name. Linear in the sides.
pub fn page_names(alloc: Global, page: &Page) -> Result<Items<Items<Name>>, NoMemory>
    ensures { IfOk result (λ names. names ≡ page.now) }
{
    let mut names = Items::new(alloc);
    for polygon in 0..page.polygon_count() {
        names.push(polygon_names(alloc, page, polygon)?)?;
    }
    Ok(names)
}

/// A path of its own that is equal to this one. Linear in the names.
pub fn copied_path(alloc: Global, path: &[Cross]) -> Result<Items<Cross>, NoMemory>
    ensures { IfOk result (λ copied. copied ≡ path.now) }
{
    let mut copied = Items::new(alloc);
    for cross in path {
        copied.push(Cross {
            label: Name::from_str(alloc, cross.label.as_str())?,
            occurrence: cross.occurrence,
            place: cross.place,
        })?;
    }
    Ok(copied)
}
