// The places of a path's points on their labels.
ghost use Rattle.std.specs.Prelude.{◌≡◌, ℕ, ◌<◌, ◌≤◌, ◌+◌, ◌*◌, ◌/◌, ◌%◌, map, length, not, find, slice_index, slice_index_or, false, IfOk};
ghost use Rattle.std.specs.List.{list_all, list_any};
ghost use Rattle.obd_base.specs.Lists.{below};
ghost use Rattle.curve_paths.specs.Paths.{has_label_places, is_met_at, label_points};
ghost use Rattle.curve_paths.specs.PlaceTables.{AreMet, AreNumbered};

use crate::crossing::Crossing;
use obd_base::{LabelNo, NoMemory};
use std::alloc::Global;

// For each label, how many points of it the curve has. Linear in both.
pub(crate) fn point_counts(
    alloc: Global,
    crossings: &[Crossing],
    label_count: u32,
) -> Result<Vec<u32>, NoMemory>
    requires few { length crossings.now ≤ 32 }
    requires numbered { AreNumbered crossings.now label_count }
    ensures { IfOk result (λ counts. counts.items ≡ map (label_points crossings.now) (below label_count)) }
{
    let mut counts = vec![in alloc; 0; label_count as usize]?;
    for crossing in crossings {
        counts[crossing.side.label.number() as usize] += 1;
    }
    Ok(counts)
}

// For each label, which of its places below 32 are met, in blocks of 32. Linear in both.
fn met_table(alloc: Global, crossings: &[Crossing], label_count: u32) -> Result<Vec<bool>, NoMemory>
    requires numbered { AreNumbered crossings.now label_count }
    ensures { IfOk result (λ met. AreMet crossings.now label_count met.items) }
{
    let mut met = vec![in alloc; false; label_count as usize * 32]?;
    for crossing in crossings {
        if crossing.place < 32 {
            met[crossing.side.label.number() as usize * 32 + crossing.place as usize] = true;
        }
    }
    Ok(met)
}

// The first places in a label's block are all met.
fn is_met_below(met: &[bool], label: u32, count: u32) -> bool
    requires { label * 32 + count ≤ length met.now }
    ensures { result ≡ list_all (λ place. slice_index_or met.now (label * 32 + place) false) (below count) }
{
    for place in 0..count {
        if !met[label as usize * 32 + place as usize] {
            return false;
        }
    }
    true
}

// The first label whose places aren't 0 up to the number of its points less 1, each once.
pub(crate) fn first_wrong_label(
    alloc: Global,
    crossings: &[Crossing],
    counts: &[u32],
) -> Result<Option<LabelNo>, NoMemory>
    requires few { length crossings.now ≤ 32 }
    requires numbered { AreNumbered crossings.now (length counts.now) }
    requires counts { counts.now ≡ map (label_points crossings.now) (below (length counts.now)) }
    requires labels { length counts.now ≤ 24 }
    ensures { IfOk result (λ label. label ≡ find (λ label. not (has_label_places crossings.now label)) (below (length counts.now))) }
{
    let met = met_table(alloc, crossings, counts.len() as u32)?;
    for label in 0..counts.len() as u32 {
        if !is_met_below(&met, label, counts[label as usize]) {
            return Ok(Some(LabelNo::new(label)));
        }
    }
    Ok(None)
}
