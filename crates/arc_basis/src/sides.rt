// Sides by label and occurrence: those of a polygon, and where each stands.
ghost use Rattle.std.specs.Prelude.{◌≡◌, ◌<◌, ◌≤◌, ◌^◌, [], cond, map, length, nat_eq, position, slice_index_or, None, IfOk};
ghost use Rattle.std.specs.List.{position_or_len};
ghost use Rattle.page_surface.specs.Joining.{is_side, other_side};
ghost use Rattle.page_surface.specs.Labels.{side_labels_of};
ghost use Rattle.arc_basis.specs.BasisTables.{AreAllFound, AreNamed, side_table as table_of};

use obd_base::{Items, LabelNo, NoMemory, SideNo};
use page_surface::{Page, SideLabel};
use std::alloc::Global;

// The sides of a polygon of a page by label and occurrence.
pub(crate) fn polygon_sides(
    alloc: Global,
    page: &Page,
    polygon: u32,
) -> Result<Items<SideLabel>, NoMemory>
    requires { polygon < length page.now }
    ensures { IfOk result (λ sides. sides ≡ slice_index_or (side_labels_of [] page.now) polygon []) }
{
    let mut sides = Items::new(alloc);
    for side in 0..page.sides_of(polygon) {
        sides.push(page.label_at(polygon, side))?;
    }
    Ok(sides)
}

// For each label, which of the sides is its first one with this occurrence. Linear in both.
pub(crate) fn side_table(
    alloc: Global,
    sides: &[SideLabel],
    label_count: u32,
    occurrence: u8,
) -> Result<Items<Option<SideNo>>, NoMemory>
    requires few { length sides.now < 2 ^ 32 }
    requires named { AreNamed sides.now label_count }
    ensures { IfOk result (λ table. table ≡ table_of sides.now label_count occurrence) }
{
    let mut table = vec![in alloc; None; label_count as usize]?;
    for number in 0..sides.len() {
        let side = sides[number];
        let label = side.label.number() as usize;
        if side.occurrence == occurrence && table[label].is_none() {
            table[label] = Some(SideNo::new(number as u32));
        }
    }
    Ok(Items::from_vec(table))
}

// Where the tables of both occurrences have a label's occurrence.
pub(crate) fn side_in(
    first_sides: &[Option<SideNo>],
    second_sides: &[Option<SideNo>],
    label: LabelNo,
    occurrence: u8,
) -> Option<SideNo>
    requires first { label < length first_sides.now }
    requires second { label < length second_sides.now }
    ensures { result ≡ slice_index_or (cond (nat_eq occurrence 0) first_sides.now second_sides.now) label None }
{
    let table = if occurrence == 0 {
        first_sides
    } else {
        second_sides
    };
    table[label.number() as usize]
}

// The partner of each side: where the other side of its label stands.
pub(crate) fn partners(
    alloc: Global,
    sides: &[SideLabel],
    first_sides: &[Option<SideNo>],
    second_sides: &[Option<SideNo>],
) -> Result<Vec<SideNo>, NoMemory>
    requires { AreAllFound sides.now first_sides.now second_sides.now (length first_sides.now) }
    ensures { IfOk result (λ pairs. pairs.items ≡ map (λ s. position_or_len (is_side (other_side s)) sides.now) sides.now) }
{
    let mut pairs = Vec::new(alloc);
    for side in sides {
        let other = side_in(first_sides, second_sides, side.label, 1 - side.occurrence);
        pairs.push(other.unwrap())?;
    }
    Ok(pairs)
}
