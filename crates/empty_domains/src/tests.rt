// What no clause says: that memory suffices for a worked walk.
ghost use Rattle.std.specs.Prelude.{◌≡◌, ◌<◌, [], ◌∷◌, length, IfOk};
ghost use Rattle.page_surface.specs.Drawing.{identity};
ghost use Rattle.page_surface.specs.Polygon.{paired};
ghost use Rattle.drawing.specs.Points.{generators as all_generators};
ghost use Rattle.region_table.specs.Nice.{IsNice};
ghost use Rattle.region_table.specs.Table.{IsTableOf};

use crate::{Walks, domains_from};
use generator_list::{Generators, list};
use hkm_diagram::{Diagram, first};
use obd_base::{GenNo, NoMemory, SideNo};
use page_surface::Polygon;
use region_table::Regions;
use std::alloc::Global;
use std::test::Fail;

// The diagram of the annulus without a twist.
fn untwisted_annulus(alloc: Global) -> Result<Diagram, NoMemory>
    ensures { IfOk result (λ diagram. diagram ≡ identity (paired (1 ∷ 0 ∷ []))) }
{
    let mut pairs = Vec::new(alloc);
    pairs.push(SideNo::new(1))?;
    pairs.push(SideNo::new(0))?;
    let polygon = Polygon::of(alloc, pairs)?;
    first(alloc, &polygon)
}

// The generators of a diagram that has at most ten.
fn generators_of(alloc: Global, diagram: &Diagram) -> Result<Generators, NoMemory>
    ensures { IfOk result (λ found. found ≡ all_generators diagram.now) }
{
    match list(alloc, diagram.drawing(), 10) {
        Ok(found) => Ok(found),
        Err(_) => Err(NoMemory),
    }
}

// Whether so many steps, targets and domains are found from the first generator.
fn finds(
    alloc: Global,
    diagram: &Diagram,
    regions: &Regions,
    generators: &Generators,
    count: usize,
) -> Result<bool, NoMemory>
    requires table { IsTableOf diagram.now regions.now }
    requires nice { IsNice diagram.now }
    requires generators { generators.now ≡ all_generators diagram.now }
    requires some { 0 < length generators.now }
{
    let from = GenNo::new(0);
    let walks = Walks::of(alloc, diagram, regions)?;
    let steps = walks.steps(alloc, diagram, generators, from)?;
    let targets = walks.targets(alloc, diagram, generators, from)?;
    let domains = domains_from(alloc, diagram, regions, generators, from)?;
    Ok(steps.len() == count && targets.len() == count && domains.len() == count)
}

#[test]
fn two_bigons_of_the_untwisted_annulus(rt: HostRuntime) -> Result<(), Fail> {
    let alloc = rt.alloc();
    let diagram = untwisted_annulus(alloc)?;
    let regions = Regions::of(alloc, diagram.drawing())?;
    let generators = generators_of(alloc, &diagram)?;
    assert!(rt; generators.count() == 2);
    assert!(rt; finds(alloc, &diagram, &regions, &generators, 2)?);
    Ok(())
}
