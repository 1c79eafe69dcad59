// Trying every set of inner pieces.
ghost use Rattle.std.specs.Prelude.{◌≡◌, ◌<◌, ◌≤◌, suc, length, map, IfOk, OnOk};
ghost use Rattle.obd_base.specs.Lists.{Mem, below, parts};
ghost use Rattle.drawing.specs.Points.{IsGenerator, generators as all_generators};
ghost use Rattle.page_surface.specs.Drawing.{IsEmbedded};
ghost use Rattle.region_table.specs.Table.{IsTableOf};
ghost use Rattle.boundary_map.specs.Sets.{AreInner, chosen, doubled, firsts};
ghost use Rattle.boundary_map.specs.Tried.{AreOdd, IsTarget};

use crate::led::led_to;
use crate::rules::{all_corners, is_domain};
use crate::sets::{set_count, set_of};
use generator_list::Generators;
use hkm_diagram::Diagram;
use obd_base::{GenNo, NoMemory, PieceNo};
use region_table::Regions;
use std::alloc::Global;

// The generator to which a set of inner pieces leads as a domain.
fn led_target(
    alloc: Global,
    diagram: &Diagram,
    regions: &Regions,
    generators: &Generators,
    set: &[PieceNo],
    y: &[u32],
) -> Result<Option<GenNo>, NoMemory>
    requires valid { IsEmbedded diagram.now }
    requires table { IsTableOf diagram.now regions.now }
    requires generators { generators.now ≡ all_generators diagram.now }
    requires set { AreInner regions.now set.now }
    requires small { length set.now ≤ 16 }
    requires part { Mem (firsts regions.now set.now) (parts (firsts regions.now regions.now.inner)) }
    requires from { IsGenerator diagram.now y.now }
    ensures { IfOk result (λ target. IsTarget diagram.now generators.now y.now (firsts regions.now set.now) target) }
{
    let _ = diagram.drawing().points();
    let _ = diagram.drawing().polygon().sides();
    let x = led_to(alloc, diagram, regions, set, y)?;
    match generators.find(x.as_slice()) {
        Some(number) => {
            if is_domain(diagram, regions, set, y, x.as_slice()) {
                Ok(Some(number))
            } else {
                Ok(None)
            }
        }
        None => Ok(None),
    }
}

// The same. Without enough corners for the angles to add up, a set leads nowhere.
fn target(
    alloc: Global,
    diagram: &Diagram,
    regions: &Regions,
    generators: &Generators,
    set: &[PieceNo],
    y: &[u32],
) -> Result<Option<GenNo>, NoMemory>
    requires valid { IsEmbedded diagram.now }
    requires table { IsTableOf diagram.now regions.now }
    requires generators { generators.now ≡ all_generators diagram.now }
    requires set { AreInner regions.now set.now }
    requires small { length set.now ≤ 16 }
    requires part { Mem (firsts regions.now set.now) (parts (firsts regions.now regions.now.inner)) }
    requires from { IsGenerator diagram.now y.now }
    ensures { IfOk result (λ target. IsTarget diagram.now generators.now y.now (firsts regions.now set.now) target) }
{
    if 4 * set.len() as u64 > 4 + all_corners(regions, set) {
        return Ok(None);
    }
    led_target(alloc, diagram, regions, generators, set, y)
}

// Notes the domain that one more set is, where it is one.
fn try_set(
    alloc: Global,
    diagram: &Diagram,
    regions: &Regions,
    generators: &Generators,
    number: u32,
    y: &[u32],
    odd: &mut [bool],
) -> Result<(), NoMemory>
    requires valid { IsEmbedded diagram.now }
    requires table { IsTableOf diagram.now regions.now }
    requires generators { generators.now ≡ all_generators diagram.now }
    requires few { length regions.now.inner ≤ 16 }
    requires number { number < doubled (length regions.now.inner) }
    requires from { IsGenerator diagram.now y.now }
    requires odd { AreOdd diagram.now y.now generators.now (map (chosen (firsts regions.now regions.now.inner)) (below number)) odd.old }
    ensures { OnOk result (AreOdd diagram.now y.now generators.now (map (chosen (firsts regions.now regions.now.inner)) (below (suc number))) odd.new) }
{
    let set = set_of(alloc, regions.inner(), number)?;
    match target(alloc, diagram, regions, generators, set.as_slice(), y)? {
        Some(target) => {
            let place = target.number() as usize;
            odd[place] = !odd[place];
        }
        None => {}
    }
    Ok(())
}

// For each generator whether an odd number of domains lead to it, by trying every set of inner pieces.
pub(crate) fn try_sets(
    alloc: Global,
    diagram: &Diagram,
    regions: &Regions,
    generators: &Generators,
    y: &[u32],
) -> Result<Vec<bool>, NoMemory>
    requires valid { IsEmbedded diagram.now }
    requires table { IsTableOf diagram.now regions.now }
    requires generators { generators.now ≡ all_generators diagram.now }
    requires few { length regions.now.inner ≤ 16 }
    requires from { IsGenerator diagram.now y.now }
    ensures { IfOk result (λ odd. AreOdd diagram.now y.now generators.now (parts (firsts regions.now regions.now.inner)) odd.items) }
{
    let mut odd = vec![in alloc; false; generators.count() as usize]?;
    for number in 0..set_count(regions.inner().len()) {
        try_set(alloc, diagram, regions, generators, number, y, &mut odd)?;
    }
    Ok(odd)
}
