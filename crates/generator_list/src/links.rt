// The points of an arc strand by strand, so that a search passes over none that doesn't go on.
ghost use Rattle.std.specs.Prelude.{◌≡◌, ℕ, ◌<◌, ◌≤◌, ◌^◌, length, replicate, slice_index, IfOk};
ghost use Rattle.std.specs.List.{All};
ghost use Rattle.obd_base.specs.Lists.{Mem};
ghost use Rattle.generator_list.specs.Links.{AreLinked, IsLinkedFrom};
ghost use Rattle.generator_list.specs.Search.{AreSmall};

use obd_base::{Items, NoMemory, StrandNo};
use std::alloc::Global;

// The first point of an arc on each of 8 strands, and for each point the next one on the same strand; the number of
// points where there is none.
#[derive(Drop)]
pub(crate) struct Links {
    pub(crate) first: Items<u32>,
    pub(crate) next: Items<u32>,
}

// As many places that lead to the end.
fn ends(alloc: Global, count: usize, end: u32) -> Result<Items<u32>, NoMemory>
    ensures { IfOk result (λ ends. ends ≡ replicate count end) }
{
    Ok(Items::from_vec(vec![in alloc; end; count]?))
}

// Linear in the points.
fn links_of(alloc: Global, strands: &[StrandNo]) -> Result<Links, NoMemory>
    requires few { length strands.now < 2 ^ 32 }
    requires strands { All (λ strand. strand < 8) strands.now }
    ensures { IfOk result (λ links. IsLinkedFrom strands.now links 0) }
{
    let end = strands.len() as u32;
    let mut links = Links {
        first: ends(alloc, 8, end)?,
        next: ends(alloc, strands.len(), end)?,
    };
    for point in (0..strands.len()).rev() {
        let strand = strands[point].number() as usize;
        links.next.set(point, *links.first.item(strand));
        links.first.set(strand, point as u32);
    }
    Ok(links)
}

// The links of each arc.
pub(crate) fn all_links(alloc: Global, arcs: &[Items<StrandNo>]) -> Result<Items<Links>, NoMemory>
    requires { AreSmall arcs.now }
    ensures { IfOk result (AreLinked arcs.now) }
{
    let mut links = Items::new(alloc);
    for strands in arcs {
        links.push(links_of(alloc, strands.as_slice())?)?;
    }
    Ok(links)
}

// The least of some numbers.
pub(crate) fn least(numbers: &[u32; 8]) -> u32
    ensures least { (k : ℕ) → k < 8 → result ≤ slice_index numbers.now k }
    ensures one { Mem result numbers.now }
{
    let mut least = numbers[0];
    for number in numbers {
        if *number < least {
            least = *number;
        }
    }
    least
}
