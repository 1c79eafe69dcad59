// The tables by which the domains of a diagram are walked.
ghost use Rattle.std.specs.Prelude.{◌≡◌, ◌<◌, ◌^◌, [], length, map, slice_index_or, IfOk};
ghost use Rattle.drawing.specs.Pieces.{piece_of, span_count, spans};
ghost use Rattle.drawing.specs.Round.{other_end};
ghost use Rattle.page_surface.specs.Drawing.{IsEmbedded, chords};
ghost use Rattle.drawing.specs.Points.{generators as all_generators};
ghost use Rattle.empty_domains.specs.Found.{AreDomains};
ghost use Rattle.empty_domains.specs.Leads.{IsWalk};
ghost use Rattle.empty_domains.specs.Strip.{step_leads};
ghost use Rattle.empty_domains.specs.Targets.{AreTargets};
ghost use Rattle.empty_domains.specs.Walks.{AreWalksOf};
ghost use Rattle.region_table.specs.Nice.{IsNice};
ghost use Rattle.region_table.specs.Table.{IsTableOf};

use crate::domains::{Domain, domains_of};
use crate::drawing_tables::drawing_tables;
use crate::generator_sides::standing;
use crate::steps::steps_from;
use crate::strip::Step;
use crate::tables::Tables;
use crate::targets::targets_of;
use generator_list::Generators;
use hkm_diagram::Diagram;
use obd_base::{GenNo, NoMemory};
use region_table::Regions;
use std::alloc::Global;
use std::marker::Model;

/// The tables by which the domains of a diagram are walked, made once for all its generators. Contracts say by
/// `AreWalksOf` whose they are. Twenty bytes for each point on each of its two sides.
pub struct Walks {
    tables: Tables,
    starts: Vec<u32>,
    pieces: Vec<u32>,
}

// By hand, so that a caller's proof holds one call and not the drop of each field.
impl Drop for Walks {
    fn drop(self) {
        let Walks {
            tables: _tables,
            starts: _starts,
            pieces: _pieces,
        } = self;
    }
}

impl Model for Walks {
    ghost use Rattle.empty_domains.specs.Walks.{WalkTables};

    ghost Value = { WalkTables };

    ghost view = { λ w. record { tables = w.tables; starts = w.starts.items; pieces = w.pieces.items } };
}

// The first span of the piece of each span. A span begins a piece where the number before it is the lesser end of its
// chord, and lies in the piece before the chord's other end where it isn't.
fn first_spans(alloc: Global, diagram: &Diagram, other: &[u32]) -> Result<Vec<u32>, NoMemory>
    requires valid { IsEmbedded diagram.now }
    requires other { other.now ≡ map (other_end (chords diagram.now)) (spans diagram.now) }
    requires few { span_count diagram.now < 2 ^ 30 }
    ensures { IfOk result (λ firsts. firsts.items ≡ map (piece_of diagram.now) (spans diagram.now)) }
{
    let mut firsts: Vec<u32> = Vec::new(alloc);
    firsts.push(0)?;
    for at in 1..other.len() {
        let mate = other[at - 1];
        if mate >= at as u32 {
            firsts.push(at as u32)?;
        } else {
            let first = firsts[mate as usize];
            firsts.push(first)?;
        }
    }
    Ok(firsts)
}

impl Walks {
    /// The tables of a diagram, by the table of its regions. Linear in the points, time and memory, with a few steps
    /// more at each point for each side.
    pub fn of(alloc: Global, diagram: &Diagram, regions: &Regions) -> Result<Walks, NoMemory>
        requires table { IsTableOf diagram.now regions.now }
        ensures { IfOk result (λ walks. AreWalksOf diagram.now walks) }
    {
        let _ = diagram.drawing().points();
        let polygon = diagram.drawing().polygon();
        let _ = polygon.sides();
        let tables = drawing_tables(alloc, diagram, regions)?;
        let starts = Vec::from_slice(alloc, regions.side_starts())?;
        let pieces = first_spans(alloc, diagram, regions.other_ends())?;
        Ok(Walks {
            tables,
            starts,
            pieces,
        })
    }

    /// The steps of the strips behind a generator's points. The drawing must be nice, and the tables and generators the
    /// diagram's. A step names a bigon or a rectangle whose rows of squares begin at one of these points, and the row at
    /// which its width was read off. Those of the steps that no earlier row ends and whose pieces are a domain lead by
    /// just the domains from the generator, each set once.
    ///
    /// A strip ends at a base piece, at a point of the generator inside, and where the chords of a row don't run side by
    /// side; rows of one strip never overlap. Constant time a row.
    pub fn steps(
        &self,
        alloc: Global,
        diagram: &Diagram,
        generators: &Generators,
        from: GenNo,
    ) -> Result<Vec<Step>, NoMemory>
        requires walks { AreWalksOf diagram.now self.now }
        requires nice { IsNice diagram.now }
        requires generators { generators.now ≡ all_generators diagram.now }
        requires from { from < length generators.now }
        ensures { IfOk result (λ steps. IsWalk diagram.now (slice_index_or generators.now from []) (step_leads diagram.now (slice_index_or generators.now from []) steps.items)) }
    {
        let _ = diagram.drawing().points();
        let polygon = diagram.drawing().polygon();
        let _ = polygon.sides();
        let y = generators.points(from);
        let standing = standing(alloc, diagram, polygon, &self.starts, y)?;
        steps_from(alloc, diagram, polygon, &self.tables, &standing)
    }

    /// The numbers of the generators to which the domains from a generator lead, one for each domain, so that a number
    /// comes as often as there are domains to it. The drawing must be nice, and the tables and generators the diagram's.
    ///
    /// The steps are tested one by one, each in time linear in the pieces along its rows, besides the sides and the search
    /// for its target; no set is written down. A mark for each point is cleared once a call.
    pub fn targets(
        &self,
        alloc: Global,
        diagram: &Diagram,
        generators: &Generators,
        from: GenNo,
    ) -> Result<Vec<u32>, NoMemory>
        requires walks { AreWalksOf diagram.now self.now }
        requires nice { IsNice diagram.now }
        requires generators { generators.now ≡ all_generators diagram.now }
        requires from { from < length generators.now }
        ensures { IfOk result (λ targets. AreTargets diagram.now (slice_index_or generators.now from []) generators.now targets.items) }
    {
        let _ = diagram.drawing().points();
        let polygon = diagram.drawing().polygon();
        let _ = polygon.sides();
        let y = generators.points(from);
        let standing = standing(alloc, diagram, polygon, &self.starts, y)?;
        let steps = steps_from(alloc, diagram, polygon, &self.tables, &standing)?;
        targets_of(
            alloc,
            diagram,
            polygon,
            &self.tables,
            &self.starts,
            &self.pieces,
            generators,
            y,
            &standing,
            &steps,
        )
    }

    /// All domains from a generator, each set once, with the generator to which it leads. The drawing must be nice, and
    /// the tables and generators the diagram's.
    ///
    /// In time linear in the pieces along the rows of the steps, besides the sides, the sorting of each set and the
    /// search for its target; a mark for each point is cleared once a call.
    pub fn domains(
        &self,
        alloc: Global,
        diagram: &Diagram,
        generators: &Generators,
        from: GenNo,
    ) -> Result<Vec<Domain>, NoMemory>
        requires walks { AreWalksOf diagram.now self.now }
        requires nice { IsNice diagram.now }
        requires generators { generators.now ≡ all_generators diagram.now }
        requires from { from < length generators.now }
        ensures { IfOk result (λ domains. AreDomains diagram.now (slice_index_or generators.now from []) generators.now domains.items) }
    {
        let _ = diagram.drawing().points();
        let polygon = diagram.drawing().polygon();
        let _ = polygon.sides();
        let y = generators.points(from);
        let standing = standing(alloc, diagram, polygon, &self.starts, y)?;
        let steps = steps_from(alloc, diagram, polygon, &self.tables, &standing)?;
        domains_of(
            alloc,
            diagram,
            polygon,
            &self.tables,
            &self.starts,
            &self.pieces,
            generators,
            y,
            &standing,
            &steps,
        )
    }
}

/// All domains from a generator of a nice drawing, each set once, with the generator to which it leads. The table of
/// regions and the generators must be the diagram's.
///
/// It makes the tables of `Walks::of` and asks `Walks::domains`: linear in the points for the tables, and then in the
/// pieces along the rows of the steps, besides the sorting of each set and the search for its target.
pub fn domains_from(
    alloc: Global,
    diagram: &Diagram,
    regions: &Regions,
    generators: &Generators,
    from: GenNo,
) -> Result<Vec<Domain>, NoMemory>
    requires table { IsTableOf diagram.now regions.now }
    requires nice { IsNice diagram.now }
    requires generators { generators.now ≡ all_generators diagram.now }
    requires from { from < length generators.now }
    ensures { IfOk result (λ domains. AreDomains diagram.now (slice_index_or generators.now from []) generators.now domains.items) }
{
    let walks = Walks::of(alloc, diagram, regions)?;
    walks.domains(alloc, diagram, generators, from)
}
