// The numbers of the generators to which the steps of a generator lead.
ghost use Rattle.std.specs.Prelude.{◌≡◌, ◌<◌, ◌^◌, IfOk};
ghost use Rattle.page_surface.specs.Drawing.{IsEmbedded};
ghost use Rattle.drawing.specs.Layout.{offsets_of};
ghost use Rattle.drawing.specs.Pieces.{piece_table, span_count};
ghost use Rattle.drawing.specs.Points.{IsGenerator, generators as all_generators};
ghost use Rattle.empty_domains.specs.Ground.{IsGround, IsStanding};
ghost use Rattle.empty_domains.specs.Strip.{all_strips};
ghost use Rattle.empty_domains.specs.Targets.{AreLed};
ghost use Rattle.region_table.specs.Nice.{IsNice};

use crate::strip::Step;
use crate::tables::Tables;
use crate::verify::verify;
use generator_list::Generators;
use hkm_diagram::Diagram;
use obd_base::NoMemory;
use page_surface::Polygon;
use std::alloc::Global;

// The numbers of the generators to which the steps of a generator lead, in the order of the steps.
pub(crate) fn targets_of(
    alloc: Global,
    diagram: &Diagram,
    polygon: &Polygon,
    tables: &Tables,
    starts: &[u32],
    pieces: &[u32],
    generators: &Generators,
    y: &[u32],
    from: &[u32],
    steps: &[Step],
) -> Result<Vec<u32>, NoMemory>
    requires valid { IsEmbedded diagram.now }
    requires nice { IsNice diagram.now }
    requires polygon { polygon.now ≡ diagram.now.polygon }
    requires tables { IsGround diagram.now tables.now }
    requires starts { starts.now ≡ offsets_of diagram.now }
    requires pieces { pieces.now ≡ piece_table diagram.now }
    requires generators { generators.now ≡ all_generators diagram.now }
    requires y { IsGenerator diagram.now y.now }
    requires from { IsStanding diagram.now y.now from.now }
    requires steps { steps.now ≡ all_strips diagram.now y.now }
    requires few { span_count diagram.now < 2 ^ 30 }
    ensures { IfOk result (λ targets. AreLed diagram.now y.now generators.now steps.now targets.items) }
{
    let mut targets = Vec::new(alloc);
    let mut rows = Vec::with_capacity(alloc, pieces.len())?;
    let mut found = Vec::with_capacity(alloc, pieces.len())?;
    let mut marks = vec![in alloc; false; pieces.len()]?;
    for step in steps {
        let led = verify(
            alloc, diagram, polygon, tables, starts, pieces, generators, y, from, *step, &mut rows,
            &mut marks, &mut found,
        )?;
        if let Some(to) = led {
            targets.push(to.number())?;
        }
    }
    Ok(targets)
}
