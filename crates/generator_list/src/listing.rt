// The listing of a drawing's generators.
ghost use Rattle.std.specs.Prelude.{◌≡◌, ℕ, ◌+◌, ◌<◌, ◌≤◌, ◌^◌, length, IfOk, IfErr};
ghost use Rattle.drawing.specs.Points.{generators};
ghost use Rattle.page_surface.specs.Polygon.{arc_count};
ghost use Rattle.generator_list.specs.Links.{AreLinked};
ghost use Rattle.generator_list.specs.Search.{AreSmall, all_strands, open_rows};

use crate::generators::Generators;
use crate::links::all_links;
use crate::open_rows::open_rows;
use crate::packed::Packed;
use crate::points::all_strands;
use crate::refusal::ListRefusal;
use crate::search::Search;
use drawing::Drawing;
use obd_base::NoMemory;
use std::alloc::Global;

// The search through a drawing.
fn search_of(alloc: Global, drawing: &Drawing, limit: u32) -> Result<Search, NoMemory>
    ensures arcs { IfOk result (λ search. search.arcs ≡ all_strands drawing.now.drawing) }
    ensures open { IfOk result (λ search. search.open ≡ open_rows search.arcs) }
    ensures links { IfOk result (λ search. AreLinked search.arcs search.links) }
    ensures small { IfOk result (λ search. AreSmall search.arcs) }
    ensures limit { IfOk result (λ search. search.limit ≡ limit) }
    ensures few { IfOk result (λ search. length search.arcs ≤ 8) }
{
    let _ = drawing.points();
    let _ = drawing.polygon().sides();
    let arcs = all_strands(alloc, drawing)?;
    let links = all_links(alloc, arcs.as_slice())?;
    let open = open_rows(alloc, arcs.as_slice())?;
    Ok(Search {
        alloc,
        arcs,
        links,
        open,
        limit,
    })
}

/// The generators of a drawing in lexicographic order, each once.
///
/// `GeneratorLimit` comes exactly where there are more generators than the limit; it names the limit and one, and the
/// search stops there. The limit is below 2^32 - 1.
///
/// Linear in the points of the drawing and in the numbers written: at most 16 steps a number. Takes 4 bytes a number
/// written, at most three times that while the list grows, and while it runs 8 bytes a point of the drawing and at
/// most 9 tables of 256 bytes.
pub fn list(alloc: Global, drawing: &Drawing, limit: u32) -> Result<Generators, ListRefusal>
    requires { limit + 1 < 2 ^ 32 }
    ensures listed { IfOk result (λ listed. listed ≡ generators drawing.now.drawing) }
    ensures within { IfOk result (λ listed. length listed ≤ limit) }
    ensures over { IfErr result (λ refusal. (over : ℕ) → refusal ≡ ListRefusal.GeneratorLimit over
        → (over ≡ limit + 1) × (limit < length (generators drawing.now.drawing))) }
{
    let search = search_of(alloc, drawing, limit)?;
    let mut found = Packed::new(alloc, search.arcs.len() as u32);
    search.run(0, &[], &mut found)?;
    Ok(Generators::of(found))
}
