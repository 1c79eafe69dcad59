// The columns by walks.
ghost use Rattle.std.specs.Prelude.{◌≡◌, ℕ, suc, ◌<◌, List, [], length, map, slice_index_or, IfOk};
ghost use Rattle.std.specs.Ordering.{nat_cmp};
ghost use Rattle.std.specs.List.Sorted.{IsSorted, IsStrictlyIncreasing};
ghost use Rattle.obd_base.specs.Lists.{Mem};
ghost use Rattle.boundary_map.specs.Odds.{IsOdds};
ghost use Rattle.drawing.specs.Points.{generators as all_generators};
ghost use Rattle.empty_domains.specs.Walks.{AreWalksOf};
ghost use Rattle.hkm_diagram.specs.Domains.{column, columns as all_columns};
ghost use Rattle.region_table.specs.Nice.{IsNice};
ghost use Rattle.region_table.specs.Table.{IsTableOf};

use empty_domains::Walks;
use generator_list::Generators;
use hkm_diagram::Diagram;
use obd_base::{Column, GenNo, Items, NoMemory};
use region_table::Regions;
use std::alloc::Global;

// The numbers that stand an odd number of times among sorted ones, ascending: a number that is there already takes the one
// before it out.
fn odd_ones(alloc: Global, sorted: &[u32]) -> Result<Items<u32>, NoMemory>
    requires { IsSorted nat_cmp sorted.now }
    ensures { IfOk result (λ odds. IsOdds sorted.now odds) }
{
    let mut odds: Vec<u32> = Vec::new(alloc);
    for number in sorted {
        if odds.last().copied() == Some(*number) {
            let _ = odds.pop();
        } else {
            odds.push(*number)?;
        }
    }
    Ok(Items::from_vec(odds))
}

// The column of a generator.
fn column(
    alloc: Global,
    walks: &Walks,
    diagram: &Diagram,
    generators: &Generators,
    number: GenNo,
) -> Result<Column, NoMemory>
    requires walks { AreWalksOf diagram.now walks.now }
    requires nice { IsNice diagram.now }
    requires generators { generators.now ≡ all_generators diagram.now }
    requires number { number < length generators.now }
    ensures { IfOk result (λ found. found.rows ≡ column diagram.now (slice_index_or generators.now number [])) }
{
    let mut targets = walks.targets(alloc, diagram, generators, number)?;
    targets.sort_unstable();
    Ok(Column {
        rows: odd_ones(alloc, &targets)?,
    })
}

/// The columns of the differential, one for each generator in order, by walks along rows of squares. The diagram must be
/// nice, and the table of regions and the generators must be the diagram's. The column of a generator holds the numbers of
/// the generators to which an odd number of domains lead from it, ascending; that of the contact generator, which comes
/// last, is empty.
///
/// Time and memory for the tables of the walks, which are linear in the points, then for each generator the rows of the
/// strips behind its points, and the targets, which are sorted. No set of pieces is kept. The domains counted are the empty
/// embedded bigons and rectangles of Sarkar and Wang (2010).
pub fn columns(
    alloc: Global,
    diagram: &Diagram,
    regions: &Regions,
    generators: &Generators,
) -> Result<Items<Column>, NoMemory>
    requires table { IsTableOf diagram.now regions.now }
    requires nice { IsNice diagram.now }
    requires generators { generators.now ≡ all_generators diagram.now }

    ensures columns { IfOk result (λ found. map (λ c. c.rows) found ≡ all_columns diagram.now) }

    ensures one_each { IfOk result (λ found. length found ≡ length generators.now) }
    ensures contact { IfOk result (λ found. (last : ℕ) → suc last ≡ length generators.now → slice_index_or (map (λ c. c.rows) found) last [] ≡ []) }
    ensures ascend { IfOk result (λ found. (rows : List ℕ) → Mem rows (map (λ c. c.rows) found) → IsStrictlyIncreasing rows) }
    ensures below { IfOk result (λ found. (rows : List ℕ) → Mem rows (map (λ c. c.rows) found) → (row : ℕ) → Mem row rows → row < length generators.now) }
{
    let _ = diagram.drawing().points();
    let _ = generators.contact();
    let walks = Walks::of(alloc, diagram, regions)?;
    let mut columns = Items::new(alloc);
    for number in 0..generators.count() {
        let column = column(alloc, &walks, diagram, generators, GenNo::new(number))?;
        columns.push(column)?;
    }
    Ok(columns)
}
