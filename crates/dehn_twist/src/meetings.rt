// The meetings of the strands' chords with the curve, numbered along the curve.
ghost use Rattle.std.specs.Prelude.{◌≡◌, ℕ, ◌<◌, ◌≤◌, ◌^◌, suc, true, cond, [], length, map, slice_index_or, IfOk};
ghost use Rattle.std.specs.List.{sum_by};
ghost use Rattle.obd_base.specs.Lists.{Mem, below};
ghost use Rattle.page_surface.specs.Drawing.{all_exits, crosses};
ghost use Rattle.curve_paths.specs.Curves.{IsCurve};
ghost use Rattle.dehn_twist.specs.Surgery.{curve_ring, meeting_count, meeting_number, meetings_upto, merged_chords, merged_curve};
ghost use Rattle.dehn_twist.specs.Tables.{AreMeetings, AreTaken, crossed_of, curve_point, parts};

use crate::chords::{Chord, mates};
use crate::order::Merged;
use crate::ring::{CurvePoint, chord_end, chord_start, ring};
use curve_paths::Curve;
use drawing::Drawing;
use obd_base::{Items, NoMemory};
use std::alloc::Global;
use std::marker::Model;

// The tables of the meetings: the curve's chords; for each of them how many of its meetings come before each merged number, upwards; how many
// meetings there are on the chords before each, and in all; and the curve's points in order.
#[derive(Drop)]
struct Tables {
    chords: Vec<Chord>,
    crossed: Vec<Items<u32>>,
    uptos: Vec<u32>,
    ring: Vec<CurvePoint>,
}

// A drawing and a curve, with where the drawing's chords meet the curve's. A meeting has its number in constant time.
pub(crate) struct Meetings {
    merged: Merged,
    tables: Tables,
}

// By hand, so that a caller's proof holds one call and not the drop of each field.
impl Drop for Meetings {
    fn drop(self) {
        let Meetings {
            merged: _merged,
            tables: _tables,
        } = self;
    }
}

impl Model for Meetings {
    ghost use Rattle.dehn_twist.specs.Tables.{AreMeetings, Pair};

    ghost Value = { Pair };

    ghost view = { λ m. m.merged };

    ghost invariant = { λ m. AreMeetings m.merged.drawing m.merged.curve m.tables.chords.items m.tables.crossed.items m.tables.uptos.items m.tables.ring.items };
}

// The chords of the curve.
fn curve_chords(alloc: Global, merged: &Merged) -> Result<Vec<Chord>, NoMemory>
    ensures { IfOk result (λ chords. chords.items ≡ map (merged_curve merged.now.drawing merged.now.curve) (below (length merged.now.curve))) }
{
    let mut chords = Vec::new(alloc);
    for chord in 0..merged.curve().len() {
        let from = merged.curve_number(chord_start(merged, chord));
        let to = merged.curve_number(chord_end(merged, chord));
        chords.push(Chord::new(from, to))?;
    }
    Ok(chords)
}

// One for a number that lies between the ends of a chord, with its mate outside.
fn counted(mates: &[u32], chord: Chord, number: usize) -> u32
    requires number { number < length mates.now }
    requires few { length mates.now < 2 ^ 30 }
    ensures { result ≡ cond (parts mates.now chord number) 1 0 }
{
    if chord.beyond(number as u32) && !chord.beyond(mates[number]) {
        1
    } else {
        0
    }
}

// How many such numbers come before each one.
fn crossed_by(alloc: Global, mates: &[u32], chord: Chord) -> Result<Items<u32>, NoMemory>
    requires { length mates.now < 2 ^ 30 }
    ensures { IfOk result (λ counts. counts ≡ crossed_of mates.now chord) }
{
    let mut counts = Vec::new(alloc);
    let mut count: u32 = 0;
    counts.push(count)?;
    for number in 0..mates.len() {
        count += counted(mates, chord, number);
        counts.push(count)?;
    }
    Ok(Items::from_vec(counts))
}

// The same for each of some chords. Linear in the chords times the numbers.
fn all_crossed(alloc: Global, mates: &[u32], chords: &[Chord]) -> Result<Vec<Items<u32>>, NoMemory>
    requires { length mates.now < 2 ^ 30 }
    ensures { IfOk result (λ all. all.items ≡ map (crossed_of mates.now) chords.now) }
{
    let mut all = Vec::new(alloc);
    for chord in chords {
        all.push(crossed_by(alloc, mates, *chord)?)?;
    }
    Ok(all)
}

// How many meetings there are on the chords before each one, and in all.
fn uptos(alloc: Global, crossed: &[Items<u32>], size: usize) -> Result<Vec<u32>, NoMemory>
    requires few { length crossed.now ≤ 32 }
    requires sizes { (a : ℕ) → a < length crossed.now → size < length (slice_index_or crossed.now a []) }
    requires small { (a : ℕ) → a < length crossed.now → slice_index_or (slice_index_or crossed.now a []) size 0 ≤ 2 ^ 18 }
    ensures { IfOk result (λ uptos. uptos.items
        ≡ map (λ a. sum_by (λ b. slice_index_or (slice_index_or crossed.now b []) size 0) (below a)) (below (suc (length crossed.now)))) }
{
    let mut uptos = Vec::new(alloc);
    let mut upto: u32 = 0;
    uptos.push(upto)?;
    for chord in 0..crossed.len() {
        upto += *crossed[chord].item(size);
        uptos.push(upto)?;
    }
    Ok(uptos)
}

impl Tables {
    // Linear in the merged numbers times the curve's exits.
    fn of(alloc: Global, merged: &Merged) -> Result<Tables, NoMemory>
        ensures { IfOk result (λ m. AreMeetings merged.now.drawing merged.now.curve m.chords.items m.crossed.items m.uptos.items m.ring.items) }
    {
        let _ = merged.polygon();
        let mates = mates(alloc, merged)?;
        let chords = curve_chords(alloc, merged)?;
        let crossed = all_crossed(alloc, &mates, &chords)?;
        let uptos = uptos(alloc, &crossed, mates.as_slice().len())?;
        let ring = ring(alloc, merged)?;
        Ok(Tables {
            chords,
            crossed,
            uptos,
            ring,
        })
    }
}

impl Meetings {
    // Linear in the exits and sides, times the curve's exits.
    pub(crate) fn of(alloc: Global, drawing: &Drawing, curve: &Curve) -> Result<Meetings, NoMemory>
        requires curve { IsCurve drawing.now.drawing.polygon curve.now }
        requires few { length (all_exits drawing.now.drawing) ≤ 4000 }
        ensures { IfOk result (λ meetings. meetings ≡ record { drawing = drawing.now.drawing; curve = curve.now }) }
    {
        let merged = Merged::of(alloc, drawing, curve)?;
        let tables = Tables::of(alloc, &merged)?;
        Ok(Meetings { merged, tables })
    }

    // The merged order of the points.
    pub(crate) fn merged(&self) -> &Merged
        ensures value { result.now ≡ self.now }
        ensures taken { AreTaken self.now.drawing self.now.curve }
    {
        let _ = self.merged.polygon();
        &self.merged
    }

    // How many meetings there are on the chords of the curve before each one, and in all.
    pub(crate) fn uptos(&self) -> &[u32]
        ensures { result.now ≡ map (meetings_upto self.now.drawing self.now.curve) (below (suc (length self.now.curve))) }
    {
        &self.tables.uptos
    }

    // How many meetings there are: so many lines run along the curve.
    pub(crate) fn lines(&self) -> u32
        ensures value { result ≡ meeting_count self.now.drawing self.now.curve }
        ensures few { result ≤ 2 ^ 20 }
    {
        let exits = self.merged.curve();
        self.uptos()[exits.len()]
    }

    // The points of the curve in order.
    pub(crate) fn ring(&self) -> &[CurvePoint]
        ensures { result.now ≡ map (curve_point self.now.drawing self.now.curve) (curve_ring self.now.drawing.polygon self.now.curve) }
    {
        &self.tables.ring
    }

    // The number of the meeting of a chord of the curve with a strand's chord.
    pub(crate) fn number(&self, chord: u32, other: Chord) -> u32
        requires chord { chord < length self.now.curve }
        requires other { Mem other (merged_chords self.now.drawing self.now.curve) }
        requires crosses { crosses (merged_curve self.now.drawing self.now.curve chord) other ≡ true }
        ensures value { result ≡ meeting_number self.now.drawing self.now.curve chord other }
        ensures inside { result < meeting_count self.now.drawing self.now.curve }
    {
        let _ = self.merged.polygon();
        let own = self.tables.chords.as_slice()[chord as usize];
        let crossed = self.tables.crossed.as_slice()[chord as usize].as_slice();
        let before = crossed[own.inner_end(other) as usize];
        if own.goes_up() {
            self.tables.uptos.as_slice()[chord as usize] + before
        } else {
            self.tables.uptos.as_slice()[chord as usize + 1] - 1 - before
        }
    }
}
