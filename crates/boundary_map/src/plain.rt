// The columns by trying every set of inner pieces.
ghost use Rattle.std.specs.Prelude.{◌≡◌, ℕ, suc, ◌<◌, ◌≤◌, ◌^◌, false, List, [], filter, length, map, slice_index_or, IfOk};
ghost use Rattle.std.specs.List.Sorted.{IsStrictlyIncreasing};
ghost use Rattle.obd_base.specs.Lists.{Mem, below};
ghost use Rattle.drawing.specs.Points.{generators as all_generators};
ghost use Rattle.hkm_diagram.specs.Domains.{column, columns};
ghost use Rattle.page_surface.specs.Drawing.{IsEmbedded};
ghost use Rattle.region_table.specs.Table.{IsTableOf};

use crate::tried::try_sets;
use generator_list::Generators;
use hkm_diagram::Diagram;
use obd_base::{Column, GenNo, Items, NoMemory};
use region_table::Regions;
use std::alloc::Global;

// The numbers that are flagged, ascending.
fn flagged(alloc: Global, flags: &[bool]) -> Result<Items<u32>, NoMemory>
    requires { length flags.now < 2 ^ 32 }
    ensures { IfOk result (λ rows. rows ≡ filter (λ i. slice_index_or flags.now i false) (below (length flags.now))) }
{
    let mut rows = Items::new(alloc);
    for number in 0..flags.len() {
        if flags[number] {
            rows.push(number as u32)?;
        }
    }
    Ok(rows)
}

// The column of a generator.
fn column_plain(
    alloc: Global,
    diagram: &Diagram,
    regions: &Regions,
    generators: &Generators,
    number: GenNo,
) -> Result<Column, NoMemory>
    requires valid { IsEmbedded diagram.now }
    requires table { IsTableOf diagram.now regions.now }
    requires generators { generators.now ≡ all_generators diagram.now }
    requires few { length regions.now.inner ≤ 16 }
    requires number { number < length generators.now }
    ensures { IfOk result (λ found. found.rows ≡ column diagram.now (slice_index_or generators.now number [])) }
{
    let _ = generators.count();
    let odd = try_sets(
        alloc,
        diagram,
        regions,
        generators,
        generators.points(number),
    )?;
    Ok(Column {
        rows: flagged(alloc, &odd)?,
    })
}

/// The columns of the differential, one for each generator in order, by trying every set of inner pieces. The table of
/// regions and the generators must be the diagram's, and there must be at most 16 inner pieces; the drawing need not
/// be nice. The column of a generator holds the numbers of the generators to which an odd number of domains lead from
/// it, ascending; that of the contact generator, which comes last, is empty.
///
/// At most 65,536 sets are tried for each generator, and for each set at most two passes are made over all points of
/// the diagram: time as the generators times the points times 2 to the number of inner pieces; memory for the
/// columns and one flag a generator.
pub fn columns_plain(
    alloc: Global,
    diagram: &Diagram,
    regions: &Regions,
    generators: &Generators,
) -> Result<Items<Column>, NoMemory>
    requires table { IsTableOf diagram.now regions.now }
    requires generators { generators.now ≡ all_generators diagram.now }
    requires few { length regions.now.inner ≤ 16 }

    ensures columns { IfOk result (λ found. map (λ c. c.rows) found ≡ columns diagram.now) }

    ensures one_each { IfOk result (λ found. length found ≡ length generators.now) }
    ensures contact { IfOk result (λ found. (last : ℕ) → suc last ≡ length generators.now → slice_index_or (map (λ c. c.rows) found) last [] ≡ []) }
    ensures ascend { IfOk result (λ found. (rows : List ℕ) → Mem rows (map (λ c. c.rows) found) → IsStrictlyIncreasing rows) }
    ensures below { IfOk result (λ found. (rows : List ℕ) → Mem rows (map (λ c. c.rows) found) → (row : ℕ) → Mem row rows → row < length generators.now) }
{
    let _ = diagram.drawing().points();
    let _ = generators.contact();
    let mut columns = Items::new(alloc);
    for number in 0..generators.count() {
        let column = column_plain(alloc, diagram, regions, generators, GenNo::new(number))?;
        columns.push(column)?;
    }
    Ok(columns)
}
