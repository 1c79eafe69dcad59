// A path's crossings by number.
ghost use Rattle.std.specs.Prelude.{◌≡◌, ◌<◌, ◌≤◌, ◌^◌, length, not, position, true, None, IfOk};
ghost use Rattle.std.specs.List.{list_all};
ghost use Rattle.curve_paths.specs.Paths.{is_known, crossings};

use crate::Cross;
use obd_base::NoMemory;
use page_surface::{Page, SideLabel};
use std::alloc::Global;

// A crossing of a curve: the side through which it leaves, and the place along the label.
#[derive(Clone, Copy, Debug, PartialEq, Eq)]
pub(crate) struct Crossing {
    pub(crate) side: SideLabel,
    pub(crate) place: u32,
}

// The first crossing that names no label of the page. Linear in the names.
pub(crate) fn first_unknown(page: &Page, path: &[Cross]) -> Option<u32>
    requires { length path.now < 2 ^ 32 }
    ensures { result ≡ position (λ c. not (is_known page.now c)) path.now }
{
    for at in 0..path.len() {
        if page.label(path[at].label.as_str()).is_none() {
            return Some(at as u32);
        }
    }
    None
}

// The crossings by number, each of which names a label of the page.
pub(crate) fn numbered(
    alloc: Global,
    page: &Page,
    path: &[Cross],
) -> Result<Vec<Crossing>, NoMemory>
    requires { list_all (is_known page.now) path.now ≡ true }
    ensures { IfOk result (λ numbers. numbers.items ≡ crossings page.now path.now) }
{
    let mut numbers = Vec::new(alloc);
    for cross in path {
        let label = page.label(cross.label.as_str()).unwrap();
        numbers.push(Crossing {
            side: SideLabel {
                label,
                occurrence: cross.occurrence,
            },
            place: cross.place,
        })?;
    }
    Ok(numbers)
}
