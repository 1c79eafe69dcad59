// How many points each side has, and where each side begins.
ghost use Rattle.std.specs.Prelude.{◌≡◌, ℕ, suc, ◌+◌, ◌<◌, ◌≤◌, ◌^◌, true, map, length, nat_lt, take, IfOk};
ghost use Rattle.std.specs.List.{flat_map, list_all, sum_by};
ghost use Rattle.obd_base.specs.Lists.{below};
ghost use Rattle.page_surface.specs.Polygon.{sides};
ghost use Rattle.drawing.specs.Layout.{count_on};
ghost use Rattle.drawing.specs.Room.{rows};

use obd_base::{Exit, NoMemory};
use page_surface::Polygon;
use std::alloc::Global;

// The exits of all strands.
pub(crate) fn joined(alloc: Global, strands: &[Vec<Exit>]) -> Result<Vec<Exit>, NoMemory>
    ensures { IfOk result (λ exits. exits.items ≡ flat_map (λ strand. strand) (rows strands.now)) }
{
    let mut exits = Vec::new(alloc);
    for strand in strands {
        exits.extend_from_slice(strand)?;
    }
    Ok(exits)
}

// How many exits and entries there are on each side. Linear in the exits and sides.
pub(crate) fn side_counts(
    alloc: Global,
    polygon: &Polygon,
    exits: &[Exit],
) -> Result<Vec<u32>, NoMemory>
    requires on_sides { list_all (λ e. nat_lt e.side (sides polygon.now)) exits.now ≡ true }
    requires few { length exits.now < 2 ^ 28 }
    ensures { IfOk result (λ counts. counts.items ≡ map (count_on polygon.now exits.now) (below (sides polygon.now))) }
{
    let mut counts = vec![in alloc; 0; polygon.sides() as usize]?;
    for exit in exits {
        counts[exit.side.number() as usize] += 1;
        counts[polygon.pair(exit.side).number() as usize] += 1;
    }
    Ok(counts)
}

// Where each side begins, and where the last one ends: a side takes two numbers more than it has points.
pub(crate) fn offsets(alloc: Global, counts: &[u32]) -> Result<Vec<u32>, NoMemory>
    requires { sum_by (λ count. count + 2) counts.now < 2 ^ 30 }
    ensures { IfOk result (λ offsets. offsets.items ≡ map (λ k. sum_by (λ count. count + 2) (take k counts.now)) (below (suc (length counts.now)))) }
{
    let mut offsets = Vec::new(alloc);
    let mut offset: u32 = 0;
    offsets.push(offset)?;
    for count in counts {
        offset += count + 2;
        offsets.push(offset)?;
    }
    Ok(offsets)
}
