// The domains from a generator, each with its target.
ghost use Rattle.std.specs.Prelude.{◌≡◌, ◌<◌, ◌^◌, IfOk};
ghost use Rattle.obd_base.specs.Lists.{Once};
ghost use Rattle.page_surface.specs.Drawing.{IsEmbedded};
ghost use Rattle.drawing.specs.Layout.{offsets_of};
ghost use Rattle.drawing.specs.Pieces.{piece_table, span_count};
ghost use Rattle.drawing.specs.Points.{IsGenerator, generators as all_generators};
ghost use Rattle.empty_domains.specs.Found.{AreFound, IsAscending};
ghost use Rattle.empty_domains.specs.Ground.{IsGround, IsStanding};
ghost use Rattle.empty_domains.specs.Strip.{all_strips};
ghost use Rattle.region_table.specs.Nice.{IsNice};

use crate::strip::Step;
use crate::tables::Tables;
use crate::verify::verify;
use generator_list::Generators;
use hkm_diagram::Diagram;
use obd_base::{GenNo, NoMemory};
use page_surface::Polygon;
use std::alloc::Global;
use std::marker::Model;

/// A domain from a generator: the generator to which it leads, and its pieces, each by the number of its first span, in
/// ascending order; `Regions::span_names` tells the name of the piece of a span. Contracts see a `Found`.
pub struct Domain {
    target: GenNo,
    pieces: Vec<u32>,
}

// By hand, so that a caller's proof holds one call and not the drop of each field.
impl Drop for Domain {
    fn drop(self) {
        let Domain {
            target: _target,
            pieces: _pieces,
        } = self;
    }
}

impl Model for Domain {
    ghost use Rattle.empty_domains.specs.Found.{Found};

    ghost Value = { Found };

    ghost view = { λ f. record { target = f.target; pieces = f.pieces.items } };
}

impl Domain {
    /// The generator to which it leads.
    pub fn target(&self) -> GenNo
        ensures { result ≡ self.now.target }
    {
        self.target
    }

    /// The first spans of its pieces, in ascending order.
    pub fn pieces(&self) -> &[u32]
        ensures { result.now ≡ self.now.pieces }
    {
        &self.pieces
    }
}

// The same numbers in ascending order.
fn ascending(alloc: Global, found: &[u32]) -> Result<Vec<u32>, NoMemory>
    requires { Once found.now }
    ensures { IfOk result (λ sorted. IsAscending found.now sorted.items) }
{
    let mut sorted = Vec::from_slice(alloc, found)?;
    sorted.sort_unstable();
    Ok(sorted)
}

// The domains to which the steps of a generator lead, in the order of the steps.
pub(crate) fn domains_of(
    alloc: Global,
    diagram: &Diagram,
    polygon: &Polygon,
    tables: &Tables,
    starts: &[u32],
    pieces: &[u32],
    generators: &Generators,
    y: &[u32],
    from: &[u32],
    steps: &[Step],
) -> Result<Vec<Domain>, NoMemory>
    requires valid { IsEmbedded diagram.now }
    requires nice { IsNice diagram.now }
    requires polygon { polygon.now ≡ diagram.now.polygon }
    requires tables { IsGround diagram.now tables.now }
    requires starts { starts.now ≡ offsets_of diagram.now }
    requires pieces { pieces.now ≡ piece_table diagram.now }
    requires generators { generators.now ≡ all_generators diagram.now }
    requires y { IsGenerator diagram.now y.now }
    requires from { IsStanding diagram.now y.now from.now }
    requires steps { steps.now ≡ all_strips diagram.now y.now }
    requires few { span_count diagram.now < 2 ^ 30 }
    ensures { IfOk result (λ domains. AreFound diagram.now y.now generators.now steps.now domains.items) }
{
    let mut domains = Vec::new(alloc);
    let mut rows = Vec::with_capacity(alloc, pieces.len())?;
    let mut found = Vec::with_capacity(alloc, pieces.len())?;
    let mut marks = vec![in alloc; false; pieces.len()]?;
    for step in steps {
        let led = verify(
            alloc, diagram, polygon, tables, starts, pieces, generators, y, from, *step, &mut rows,
            &mut marks, &mut found,
        )?;
        if let Some(target) = led {
            let set = ascending(alloc, &found)?;
            domains.push(Domain {
                target,
                pieces: set,
            })?;
        }
    }
    Ok(domains)
}
