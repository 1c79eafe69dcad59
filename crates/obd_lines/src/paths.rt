// Paths on pages, written shortly.
ghost use Rattle.std.specs.Prelude.{◌≤◌, All, IfOk};

use crate::stop::Stop;
use curve_paths::Cross;
use obd_base::Name;
use std::alloc::Global;

/// A path with these crossings: a word `A:1:0` is one with label A, that leaves by occurrence 1, at place 0.
pub(crate) fn path_of(alloc: Global, text: &str) -> Result<Vec<Cross>, Stop>
    ensures { IfOk result (λ path. All (λ c. c.occurrence ≤ 1) path.items) }
{
    let mut path = Vec::new(alloc);
    for word in text.split_whitespace() {
        path.push(crossing_of(alloc, word)?)?;
    }
    Ok(path)
}

fn crossing_of(alloc: Global, word: &str) -> Result<Cross, Stop>
    ensures { IfOk result (λ c. c.occurrence ≤ 1) }
{
    let Some((label, numbers)) = word.split_once(':') else {
        return Err(Stop::NotRead);
    };
    let Some((occurrence, place)) = numbers.split_once(':') else {
        return Err(Stop::NotRead);
    };
    let Ok(place) = place.parse::<u32>() else {
        return Err(Stop::NotRead);
    };
    Ok(Cross {
        label: Name::from_str(alloc, label)?,
        occurrence: if occurrence == "0" { 0 } else { 1 },
        place,
    })
}
