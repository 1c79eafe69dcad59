// The complex of a drawing: the number of its generators, and the outcome of the elimination of their columns.
ghost use Rattle.std.specs.Prelude.{◌≡◌, ℕ, ◌≤◌, length, IfOk};
ghost use Rattle.drawing.specs.Points.{generators as generators_of};
ghost use Rattle.obd_cli.specs.Steps.{IsComplexOf};
ghost use Rattle.region_table.specs.Nice.{IsNice};
ghost use Rattle.region_table.specs.Table.{IsTableOf};

use boundary_map::columns;
use generator_list::Generators;
use hkm_diagram::Diagram;
use mod2_rank::{Outcome, eliminate};
use obd_base::NoMemory;
use region_table::Regions;
use std::alloc::Global;

// The number of generators, and what the elimination of their columns finds.
#[derive(Drop)]
pub(crate) struct Complex {
    pub(crate) generators: u32,
    pub(crate) outcome: Outcome,
}

/// The complex of a nice drawing, by its table of regions and its generators. Its cost is that of `columns` and of
/// `eliminate`.
pub(crate) fn complex_of(
    alloc: Global,
    diagram: &Diagram,
    regions: &Regions,
    generators: &Generators,
) -> Result<Complex, NoMemory>
    requires table { IsTableOf diagram.now regions.now }
    requires generators { generators.now ≡ generators_of diagram.now }
    requires nice { IsNice diagram.now }
    ensures { IfOk result (λ complex. (limit : ℕ) → length generators.now ≤ limit → IsComplexOf diagram.now limit complex) }
{
    let columns = columns(alloc, diagram, regions, generators)?;
    let rows = generators.count();
    let outcome = eliminate(alloc, columns.as_slice(), rows)?;
    Ok(Complex {
        generators: rows,
        outcome,
    })
}
