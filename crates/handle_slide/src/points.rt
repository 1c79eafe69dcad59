// The points of a curve, counted.
ghost use Rattle.std.specs.Prelude.{◌≡◌, ◌+◌, ◌<◌, ◌≤◌, cond, length, map, slice_index_or, slice_set, All, IfOk};
ghost use Rattle.obd_base.specs.Lists.{below};
ghost use Rattle.page_surface.specs.Polygon.{sides};
ghost use Rattle.curve_paths.specs.Curves.{curve_points};
ghost use Rattle.handle_slide.specs.Carried.{staying_of};

use obd_base::{Exit, NoMemory, SideNo};
use page_surface::Polygon;
use std::alloc::Global;

// Counts one more point on a side.
fn count_point(counts: &mut Vec<u32>, side: SideNo)
    requires side { side < length counts.old.items }
    requires few { slice_index_or counts.old.items side 0 ≤ 64 }
    ensures { counts.new.items ≡ slice_set counts.old.items side (slice_index_or counts.old.items side 0 + 1) }
{
    counts[side.number() as usize] += 1;
}

// How many points a curve has on each side. Linear in the sides and the exits.
pub(crate) fn points_on_sides(
    alloc: Global,
    polygon: &Polygon,
    exits: &[Exit],
) -> Result<Vec<u32>, NoMemory>
    requires in_range { All (λ e. e.side < sides polygon.now) exits.now }
    requires few { length exits.now ≤ 32 }
    ensures { IfOk result (λ counts. counts.items ≡ map (curve_points polygon.now exits.now) (below (sides polygon.now))) }
{
    let mut counts = vec![in alloc; 0; polygon.sides() as usize]?;
    for exit in exits {
        count_point(&mut counts, exit.side);
        count_point(&mut counts, polygon.pair(exit.side));
    }
    Ok(counts)
}

// Counts one more point where it stays.
fn count_if_stays(count: u32, goes: bool) -> u32
    requires { count ≤ 128 }
    ensures { result ≡ cond goes count (count + 1) }
{
    if goes { count } else { count + 1 }
}

// For each number up to the number of points, how many of the first points stay, of which some are marked as going.
pub(crate) fn staying(alloc: Global, marks: &[bool]) -> Result<Vec<u32>, NoMemory>
    requires { length marks.now ≤ 128 }
    ensures { IfOk result (λ counts. counts.items ≡ staying_of marks.now) }
{
    let mut counts = Vec::new(alloc);
    let mut count = 0;
    counts.push(count)?;
    for goes in marks {
        count = count_if_stays(count, *goes);
        counts.push(count)?;
    }
    Ok(counts)
}
