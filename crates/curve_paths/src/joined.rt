// The exits of a path on the polygon that its page is joined to.
ghost use Rattle.std.specs.Prelude.{◌≡◌, ◌<◌, ◌≤◌, ◌-◌, cond, nat_eq, map, length, slice_index, filter_map, IfOk};
ghost use Rattle.obd_base.specs.Lists.{below};
ghost use Rattle.curve_paths.specs.Paths.{label_points, place_on};
ghost use Rattle.curve_paths.specs.PlaceTables.{AreOn};
ghost use Rattle.curve_paths.specs.Through.{exit_through};

use crate::crossing::Crossing;
use arc_basis::Basis;
use obd_base::{Exit, NoMemory};
use std::alloc::Global;

// The place of a crossing's point on the side through which the curve leaves, counted from the side's start.
fn place_on_side(crossing: Crossing, counts: &[u32]) -> u32
    requires label { crossing.side.label < length counts.now }
    requires place { crossing.place < slice_index counts.now crossing.side.label }
    ensures { result ≡ cond (nat_eq crossing.side.occurrence 0) crossing.place (slice_index counts.now crossing.side.label - 1 - crossing.place) }
{
    if crossing.side.occurrence == 0 {
        crossing.place
    } else {
        counts[crossing.side.label.number() as usize] - 1 - crossing.place
    }
}

// The exits of the crossings that aren't with seams. Linear in the crossings.
pub(crate) fn joined_exits(
    alloc: Global,
    crossings: &[Crossing],
    counts: &[u32],
    basis: &Basis,
) -> Result<Vec<Exit>, NoMemory>
    requires { AreOn basis.now crossings.now counts.now }
    ensures { IfOk result (λ exits. exits.items ≡ filter_map (exit_through basis.now crossings.now) crossings.now) }
{
    let mut exits = Vec::new(alloc);
    for crossing in crossings {
        if let Some(side) = basis.side(crossing.side.label, crossing.side.occurrence) {
            let place = place_on_side(*crossing, counts);
            exits.push(Exit { side, place })?;
        }
    }
    Ok(exits)
}
