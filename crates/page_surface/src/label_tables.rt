// Tables with one entry a label, filled from the sides.
ghost use Rattle.std.specs.Prelude.{◌≡◌, ℕ, ◌+◌, ◌<◌, ◌^◌, cond, length, slice_index, count_by, All, IfOk};
ghost use Rattle.std.specs.List.{flat_map};
ghost use Rattle.page_surface.specs.Joining.{has_side, side};
ghost use Rattle.page_surface.specs.Marks.{is_of, side_counts};
ghost use Rattle.page_surface.specs.PageTables.{lies_on};

use crate::SideLabel;
use obd_base::{Items, NoMemory};
use std::alloc::Global;

// Counts each side of a polygon at its label.
fn count_sides(counts: &mut [u32], sides: &[SideLabel])
    requires in_range { All (λ s. s.label < length counts.old) sides.now }
    requires few { (label : ℕ) → slice_index counts.old label + length sides.now < 2 ^ 32 }
    ensures { (label : ℕ) → label < length counts.old
        → slice_index counts.new label ≡ slice_index counts.old label + count_by (is_of label) sides.now }
{
    for side in sides {
        counts[side.label.number() as usize] += 1;
    }
}

// How many sides each of so many labels has. Linear in the sides and labels.
pub(crate) fn label_counts(
    alloc: Global,
    label_count: usize,
    polygons: &[Items<SideLabel>],
) -> Result<Vec<u32>, NoMemory>
    requires in_range { All (λ polygon. All (λ s. s.label < label_count) polygon) polygons.now }
    requires few { length (flat_map (λ polygon. polygon) polygons.now) < 2 ^ 32 }
    ensures { IfOk result (λ counts. counts.items ≡ side_counts label_count polygons.now) }
{
    let mut counts = vec![in alloc; 0; label_count]?;
    for polygon in polygons {
        count_sides(&mut counts, polygon.as_slice());
    }
    Ok(counts)
}

// Sets the polygon at the labels of its sides of this occurrence.
fn set_polygon(table: &mut [u32], polygon: u32, sides: &[SideLabel], occurrence: u8)
    requires { All (λ s. s.label < length table.old) sides.now }
    ensures { (label : ℕ) → label < length table.old
        → slice_index table.new label ≡ cond (has_side (side label occurrence) sides.now) polygon (slice_index table.old label) }
{
    for side in sides {
        if side.occurrence == occurrence {
            table[side.label.number() as usize] = polygon;
        }
    }
}

// The first polygon with a side of this occurrence, for each of so many labels, and the number of
// polygons where there is none. The polygons are read from the last to the first. Linear in the sides and labels.
pub(crate) fn polygons_of(
    alloc: Global,
    label_count: usize,
    polygons: &[Items<SideLabel>],
    occurrence: u8,
) -> Result<Vec<u32>, NoMemory>
    requires in_range { All (λ polygon. All (λ s. s.label < label_count) polygon) polygons.now }
    requires few { length polygons.now < 2 ^ 32 }
    ensures { IfOk result (λ table. table.items ≡ lies_on polygons.now label_count occurrence) }
{
    let mut polygon = polygons.len();
    let mut table = vec![in alloc; polygon as u32; label_count]?;
    while polygon > 0 {
        polygon -= 1;
        set_polygon(
            &mut table,
            polygon as u32,
            polygons[polygon].as_slice(),
            occurrence,
        );
    }
    Ok(table)
}
