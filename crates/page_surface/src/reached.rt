// The polygons that are reached from polygon 0 through labels.
ghost use Rattle.std.specs.Prelude.{◌≡◌, ℕ, ◌<◌, ◌^◌, false, ◌||◌, length, map, slice_index_or, count_by, All, IfOk};
ghost use Rattle.std.specs.List.{list_any};
ghost use Rattle.page_surface.specs.Marks.{is_of, is_marked, marked_next, marked_within};

use crate::SideLabel;
use obd_base::{Items, NoMemory};
use std::alloc::Global;

// Marks the labels of a polygon's sides.
fn mark_labels(marks: &mut [bool], sides: &[SideLabel])
    requires { All (λ s. s.label < length marks.old) sides.now }
    ensures { (label : ℕ) → label < length marks.old
        → slice_index_or marks.new label false ≡ (slice_index_or marks.old label false || list_any (is_of label) sides.now) }
{
    for side in sides {
        marks[side.label.number() as usize] = true;
    }
}

// Marks the labels of the marked polygons.
fn marked_labels(
    alloc: Global,
    label_count: usize,
    polygons: &[Items<SideLabel>],
    marked: &[bool],
) -> Result<Vec<bool>, NoMemory>
    requires in_range { All (λ polygon. All (λ s. s.label < label_count) polygon) polygons.now }
    requires each { length marked.now ≡ length polygons.now }
    ensures size { IfOk result (λ labels. length labels.items ≡ label_count) }
    ensures marks { IfOk result (λ labels. (label : ℕ) → label < label_count
        → slice_index_or labels.items label false ≡ is_marked polygons.now marked.now label) }
{
    let mut labels = vec![in alloc; false; label_count]?;
    for (number, polygon) in polygons.iter().enumerate() {
        if marked[number] {
            mark_labels(&mut labels, polygon.as_slice());
        }
    }
    Ok(labels)
}

// Whether the label of one of the sides is marked.
fn has_mark(sides: &[SideLabel], labels: &[bool]) -> bool
    requires { All (λ s. s.label < length labels.now) sides.now }
    ensures { result ≡ list_any (λ s. slice_index_or labels.now s.label false) sides.now }
{
    for side in sides {
        if labels[side.label.number() as usize] {
            return true;
        }
    }
    false
}

// Marks the polygons with a side whose label is marked.
fn polygons_with_mark(
    alloc: Global,
    polygons: &[Items<SideLabel>],
    labels: &[bool],
) -> Result<Vec<bool>, NoMemory>
    requires { All (λ polygon. All (λ s. s.label < length labels.now) polygon) polygons.now }
    ensures { IfOk result (λ marked. marked.items ≡ map (list_any (λ s. slice_index_or labels.now s.label false)) polygons.now) }
{
    let mut marked = Vec::new(alloc);
    for polygon in polygons {
        marked.push(has_mark(polygon.as_slice(), labels))?;
    }
    Ok(marked)
}

// Marks the polygons that share a label with a marked polygon. Linear in the sides and labels.
fn mark_next(
    alloc: Global,
    label_count: usize,
    polygons: &[Items<SideLabel>],
    marked: &[bool],
) -> Result<Vec<bool>, NoMemory>
    requires in_range { All (λ polygon. All (λ s. s.label < label_count) polygon) polygons.now }
    requires each { length marked.now ≡ length polygons.now }
    ensures { IfOk result (λ next. next.items ≡ marked_next polygons.now marked.now) }
{
    let labels = marked_labels(alloc, label_count, polygons, marked)?;
    polygons_with_mark(alloc, polygons, &labels)
}

// How many marks are set.
fn count_marks(marks: &[bool]) -> usize
    ensures { result ≡ count_by (λ mark. mark) marks.now }
{
    marks.iter().filter(|mark| **mark).count()
}

// How many polygons are reached from polygon 0, in as many rounds as there are polygons.
pub(crate) fn count_reached(
    alloc: Global,
    label_count: usize,
    polygons: &[Items<SideLabel>],
) -> Result<u32, NoMemory>
    requires some { 0 < length polygons.now }
    requires few { length polygons.now < 2 ^ 32 }
    requires in_range { All (λ polygon. All (λ s. s.label < label_count) polygon) polygons.now }
    ensures { IfOk result (λ count. count ≡ count_by (λ mark. mark) (marked_within polygons.now (length polygons.now))) }
{
    let mut marked = vec![in alloc; false; polygons.len()]?;
    marked[0] = true;
    for _ in 0..polygons.len() {
        marked = mark_next(alloc, label_count, polygons, &marked)?;
    }
    Ok(count_marks(&marked) as u32)
}
