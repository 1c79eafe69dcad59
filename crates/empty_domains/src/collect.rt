// Collecting the pieces along rows, by which the test of a step reads off what the step finds.
ghost use Rattle.std.specs.Prelude.{◌≡◌, ℕ, ◌+◌, ◌<◌, ◌≤◌, ◌^◌, ◌++◌, false, length, List, map, nat_eq, slice_index, slice_index_or, suc, IfOk, OnOk};
ghost use Rattle.std.specs.List.{count_by, flat_map};
ghost use Rattle.obd_base.specs.Lists.{Mem, below};
ghost use Rattle.empty_domains.specs.Marks.{AreMarked};

use obd_base::NoMemory;

// Collects the pieces of a row that aren't marked yet, and marks them.
fn collect_row(
    pieces: &[u32],
    start: u32,
    width: u32,
    marks: &mut [bool],
    found: &mut Vec<u32>,
) -> Result<(), NoMemory>
    requires row { start + width < length pieces.now }
    requires few { length pieces.now < 2 ^ 30 }
    requires marks { (s : ℕ) → slice_index pieces.now s < length marks.old }
    ensures size { length marks.new ≡ length marks.old }
    ensures collected { OnOk result ((spans : List ℕ) → AreMarked pieces.now spans found.old.items marks.old → AreMarked pieces.now (spans ++ map (λ i. suc (start + i)) (below width)) found.new.items marks.new) }
{
    for column in 0..width {
        let piece = pieces[(start + column) as usize + 1];
        if !marks[piece as usize] {
            marks[piece as usize] = true;
            found.push(piece)?;
        }
    }
    Ok(())
}

// Collects the pieces of some rows, and marks them.
pub(crate) fn collect(
    pieces: &[u32],
    rows: &[u32],
    width: u32,
    marks: &mut [bool],
    found: &mut Vec<u32>,
) -> Result<(), NoMemory>
    requires rows { (start : ℕ) → Mem start rows.now → start + width < length pieces.now }
    requires few { length pieces.now < 2 ^ 30 }
    requires marks { (s : ℕ) → slice_index pieces.now s < length marks.old }
    ensures size { length marks.new ≡ length marks.old }
    ensures collected { OnOk result ((spans : List ℕ) → AreMarked pieces.now spans found.old.items marks.old → AreMarked pieces.now (spans ++ flat_map (λ start. map (λ i. suc (start + i)) (below width)) rows.now) found.new.items marks.new) }
{
    for start in rows {
        collect_row(pieces, *start, width, marks, found)?;
    }
    Ok(())
}

// Takes the marks of some pieces away.
pub(crate) fn unmark(found: &[u32], marks: &mut [bool])
    requires inside { (piece : ℕ) → Mem piece found.now → piece < length marks.old }
    ensures size { length marks.new ≡ length marks.old }
    ensures here { (piece : ℕ) → Mem piece found.now → slice_index_or marks.new piece false ≡ false }
    ensures elsewhere { (piece : ℕ) → slice_index_or marks.old piece false ≡ false → slice_index_or marks.new piece false ≡ false }
{
    for piece in found {
        marks[*piece as usize] = false;
    }
}

// How many of some pieces are next to themselves.
pub(crate) fn bigons(other: &[u32], found: &[u32]) -> usize
    requires { (piece : ℕ) → Mem piece found.now → piece < length other.now }
    ensures { result ≡ count_by (λ s. nat_eq (suc (slice_index other.now s)) s) found.now }
{
    let mut count = 0;
    for piece in found {
        if other[*piece as usize] as u64 + 1 == *piece as u64 {
            count += 1;
        }
    }
    count
}
