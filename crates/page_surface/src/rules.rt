// The rules of a page, stage by stage.
ghost use Rattle.std.specs.Prelude.{◌≡◌, ◌<◌, ◌≤◌, ◌^◌, map, position, length, nat_eq, not, string_bytes, None, IfOk};
ghost use Rattle.page_surface.specs.Labels.{labels_of};
ghost use Rattle.obd_base.specs.Options.{first_of};
ghost use Rattle.page_surface.specs.Page.{is_empty};
ghost use Rattle.page_surface.specs.Stages.{polygon_rules, label_rules, joining_rules};

use crate::PageRefusal;
use crate::labelled::Labelled;
use obd_base::{LabelNo, Name, NoMemory};
use std::alloc::Global;

// The greatest number of polygons.
const MOST_POLYGONS: u32 = 16;

// The greatest number of labels.
const MOST_LABELS: u32 = 24;

// The greatest number of arcs.
const MOST_ARCS: u32 = 8;

// The first polygon without a side.
fn first_empty(polygons: &[Vec<String>]) -> Option<u32>
    requires { length polygons.now < 2 ^ 32 }
    ensures { result ≡ position is_empty (map (λ p. map string_bytes p.items) polygons.now) }
{
    for (number, polygon) in polygons.iter().enumerate() {
        if polygon.as_slice().is_empty() {
            return Some(number as u32);
        }
    }
    None
}

// The first count that isn't 2.
fn first_wrong(counts: &[u32]) -> Option<usize>
    ensures { result ≡ position (λ count. not (nat_eq count 2)) counts.now }
{
    counts.iter().position(|count| *count != 2)
}

// The first rule on the polygons that fails.
pub(crate) fn polygon_refusal(polygons: &[Vec<String>]) -> Option<PageRefusal>
    requires { length polygons.now < 2 ^ 32 }
    ensures { result ≡ first_of (polygon_rules (map (λ p. map string_bytes p.items) polygons.now)) }
{
    let count = polygons.len() as u32;
    if count == 0 {
        return Some(PageRefusal::NoPolygon);
    }
    if count > MOST_POLYGONS {
        return Some(PageRefusal::TooManyPolygons { count });
    }
    let polygon = first_empty(polygons)?;
    Some(PageRefusal::EmptyPolygon { polygon })
}

// The first rule on the labels that fails. Linear in the sides.
pub(crate) fn label_refusal(
    alloc: Global,
    labelled: &Labelled,
) -> Result<Option<PageRefusal>, NoMemory>
    ensures { IfOk result (λ refusal. refusal ≡ first_of (label_rules labelled.now)) }
{
    let label_count = labelled.label_count();
    if label_count > MOST_LABELS {
        return Ok(Some(PageRefusal::TooManyLabels { count: label_count }));
    }
    let counts = labelled.label_counts(alloc)?;
    let Some(label) = first_wrong(&counts) else {
        return Ok(None);
    };
    let name = labelled.name(LabelNo::new(label as u32));
    Ok(Some(PageRefusal::LabelCount {
        label: Name::from_str(alloc, name)?,
        count: counts[label],
    }))
}

// The first rule on joining that fails. Linear in the sides, times the polygons.
pub(crate) fn joining_refusal(
    alloc: Global,
    labelled: &Labelled,
) -> Result<Option<PageRefusal>, NoMemory>
    requires some { 0 < length labelled.now }
    requires full { position is_empty labelled.now ≡ None }
    requires few_labels { length (labels_of labelled.now) ≤ 24 }
    ensures { IfOk result (λ refusal. refusal ≡ first_of (joining_rules labelled.now)) }
{
    let all = labelled.polygon_count();
    let reached = labelled.reached_count(alloc)?;
    if reached < all {
        return Ok(Some(PageRefusal::NotJoined { reached, all }));
    }
    let arcs = (labelled.label_count() + 1).saturating_sub(all);
    if arcs > MOST_ARCS {
        return Ok(Some(PageRefusal::TooManyArcs { arcs }));
    }
    if arcs == 0 {
        return Ok(Some(PageRefusal::DiskPage));
    }
    Ok(None)
}
