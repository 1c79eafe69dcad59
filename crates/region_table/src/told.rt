// What is told of each piece, by its name.
ghost use Rattle.std.specs.Prelude.{◌≡◌, ℕ, suc, ◌+◌, ◌<◌, ◌≤◌, ◌^◌, false, map, filter, length, not, slice_index, slice_index_or, vec_capacity, vec_len, IfOk, OnOk};
ghost use Rattle.obd_base.specs.Lists.{below};
ghost use Rattle.page_surface.specs.Drawing.{Drawing as Shown, chords};
ghost use Rattle.drawing.specs.Layout.{offsets_of};
ghost use Rattle.drawing.specs.Pieces.{distance, span_count, spans};
ghost use Rattle.drawing.specs.Round.{other_end};
ghost use Rattle.region_table.specs.Counted.{AreTold, has_gap};
ghost use Rattle.region_table.specs.Naming.{fresh_names};
ghost use Rattle.region_table.specs.Table.{DifferInDistance, region_in};
ghost use Rattle.region_table.specs.Told.{AreSized, HasNames};

use crate::measure::{measure, set_labels};
use crate::names::count_spans;
use drawing::Drawing;
use obd_base::{NoMemory, PieceNo};
use std::alloc::Global;
use std::marker::Model;

// A piece: whether it is base, its first segment, how many segments it has, and its distance.
#[derive(Clone, Copy)]
pub(crate) struct Region {
    pub(crate) base: bool,
    pub(crate) first: u32,
    pub(crate) size: u32,
    pub(crate) distance: u32,
}

impl Model for Region {
    ghost use Rattle.region_table.specs.Table.{Region as Shown};

    ghost Value = { Shown };

    ghost view = { λ r. record { base = r.base; first = r.first; size = r.size; distance = r.distance } };

    ghost inverse = { λ r. record { base = r.base; first = r.first; size = r.size; distance = r.distance } };
}

// Marks the names of base pieces, which are the names of gaps. Before it none is marked. Linear in the sides.
pub(crate) fn mark_bases(drawing: &Drawing, starts: &[u32], names: &[u32], bases: &mut [bool])
    requires starts { starts.now ≡ offsets_of drawing.now.drawing }
    requires named { length names.now ≡ span_count drawing.now.drawing }
    requires told { (s : ℕ) → s < span_count drawing.now.drawing → slice_index names.now s < length bases.old }
    requires none { (p : ℕ) → slice_index_or bases.old p false ≡ false }
    ensures size { length bases.new ≡ length bases.old }
    ensures marked { (p : ℕ) → p < length bases.new → slice_index_or bases.new p false ≡ has_gap drawing.now.drawing (λ s. slice_index names.now s) p }
{
    for side in 0..drawing.polygon().sides() as usize {
        let gap = starts[side + 1] as usize - 1;
        bases[names[gap] as usize] = true;
    }
}

// What is told of each piece, by its name, and room for two pieces more for each of so many fingers.
pub(crate) struct Told {
    bases: Vec<bool>,
    firsts: Vec<u32>,
    sizes: Vec<u32>,
    distances: Vec<u32>,
    room: u32,
}

// By hand, so that a caller's proof holds one call and not the drop of each field.
impl Drop for Told {
    fn drop(self) {
        let Told {
            bases: _bases,
            firsts: _firsts,
            sizes: _sizes,
            distances: _distances,
            room: _room,
        } = self;
    }
}

impl Model for Told {
    ghost use Rattle.std.specs.Prelude.{length, map};
    ghost use Rattle.obd_base.specs.Lists.{below};
    ghost use Rattle.region_table.specs.Counted.{gathered};
    ghost use Rattle.region_table.specs.Told.{HoldPieces, Told as Shown};

    ghost Value = { Shown };

    ghost view = { λ t. record { regions = map (gathered t.bases.items t.firsts.items t.sizes.items t.distances.items) (below (length t.bases.items)); room = t.room } };

    ghost invariant = { λ t. HoldPieces t.bases t.firsts t.sizes t.distances t.room };
}

impl Told {
    // So many pieces, of which nothing is told yet.
    pub(crate) fn new(alloc: Global, count: usize) -> Result<Told, NoMemory>
        ensures count { IfOk result (λ told. length told.regions ≡ count) }
        ensures room { IfOk result (λ told. told.room ≡ 0) }
    {
        let bases = vec![in alloc; false; count]?;
        let firsts = vec![in alloc; 0; count]?;
        let sizes = vec![in alloc; 0; count]?;
        let distances = vec![in alloc; 0; count]?;
        Ok(Told {
            bases,
            firsts,
            sizes,
            distances,
            room: 0,
        })
    }

    // How many pieces there are.
    pub(crate) fn len(&self) -> usize
        ensures { result ≡ length self.now.regions }
    {
        self.bases.len()
    }

    // What is told of one of them.
    pub(crate) fn region(&self, name: usize) -> Region
        requires { name < length self.now.regions }
        ensures { result ≡ region_in self.now.regions name }
    {
        Region {
            base: self.bases[name],
            first: self.firsts[name],
            size: self.sizes[name],
            distance: self.distances[name],
        }
    }

    // Takes room for so many fingers.
    pub(crate) fn reserve(&mut self, fingers: u32) -> Result<(), NoMemory>
        ensures regions { self.new.regions ≡ self.old.regions }
        ensures more { self.old.room ≤ self.new.room }
        ensures ok { OnOk result (fingers ≤ self.new.room) }
    {
        let more = 2 * fingers as usize;
        self.bases.try_reserve(more)?;
        self.firsts.try_reserve(more)?;
        self.sizes.try_reserve(more)?;
        self.distances.try_reserve(more)?;
        if self.room < fingers {
            self.room = fingers;
        }
        Ok(())
    }

    // Puts two pieces last, of which nothing is told yet. It uses up the room for a finger.
    pub(crate) fn grow(&mut self)
        requires { 1 ≤ self.old.room }
        ensures count { length self.new.regions ≡ length self.old.regions + 2 }
        ensures room { suc self.new.room ≡ self.old.room }
    {
        grow_by_two(&mut self.bases, false);
        grow_by_two(&mut self.firsts, 0);
        grow_by_two(&mut self.sizes, 0);
        grow_by_two(&mut self.distances, 0);
        self.room -= 1;
    }

    // Tells anew which pieces are base. Linear in the sides, but for clearing the flags.
    pub(crate) fn mark(&mut self, drawing: &Drawing, starts: &[u32], names: &[u32])
        requires starts { starts.now ≡ offsets_of drawing.now.drawing }
        requires named { length names.now ≡ span_count drawing.now.drawing }
        requires told { (s : ℕ) → s < span_count drawing.now.drawing → slice_index names.now s < length self.old.regions }
        ensures count { length self.new.regions ≡ length self.old.regions }
        ensures room { self.new.room ≡ self.old.room }
        ensures base { (p : ℕ) → p < length self.new.regions → (region_in self.new.regions p).base ≡ has_gap drawing.now.drawing (λ s. slice_index names.now s) p }
    {
        self.bases.fill(false);
        mark_bases(drawing, starts, names, &mut self.bases);
    }

    // Tells sizes and first spans anew. Linear in the spans.
    pub(crate) fn count(&mut self, names: &[u32])
        requires few { length names.now < 2 ^ 30 }
        requires told { (s : ℕ) → s < length names.now → slice_index names.now s < length self.old.regions }
        ensures room { self.new.room ≡ self.old.room }
        ensures counted { AreSized (λ s. slice_index names.now s) (length names.now) self.old.regions self.new.regions }
    {
        self.sizes.fill(0);
        count_spans(names, &mut self.sizes, &mut self.firsts);
    }

    // Tells the distances anew. Linear in the spans.
    pub(crate) fn measure(&mut self, names: &[u32], mates: &[u32])
        requires given { (d : Shown) × HasNames d names.now mates.now self.old.regions }
        requires small { length self.old.regions < 2 ^ 31 }
        ensures others { DifferInDistance self.old.regions self.new.regions }
        ensures room { self.new.room ≡ self.old.room }
        ensures distances { (d : Shown) → HasNames d names.now mates.now self.old.regions → (s : ℕ) → s < span_count d → (region_in self.new.regions (slice_index names.now s)).distance ≡ distance d s }
    {
        let bound = self.bases.len() as u32;
        set_labels(&self.bases, &mut self.distances, bound);
        measure(names, mates, &mut self.distances, bound);
    }
}

// Puts two items last. There is room for them.
pub(crate) fn grow_by_two<T: Copy + Drop>(list: &mut Vec<T>, item: T)
    requires { vec_len list.old + 2 ≤ vec_capacity list.old }
    ensures size { length list.new.items ≡ length list.old.items + 2 }
    ensures room { vec_capacity list.new ≡ vec_capacity list.old }
{
    list.push_reserved(item);
    list.push_reserved(item);
}

// Puts the names of the pieces that aren't base in a list, in order, where those below a number are in it already. It
// takes no memory. Linear in the pieces from that number on.
fn put_inner(told: &Told, from: usize, inner: &mut Vec<PieceNo>)
    requires from { from ≤ length told.now.regions }
    requires few { length told.now.regions < 2 ^ 32 }
    requires room { length told.now.regions ≤ vec_capacity inner.old }
    requires so_far { inner.old.items ≡ filter (λ p. not (region_in told.now.regions p).base) (below from) }
    ensures inner { inner.new.items ≡ filter (λ p. not (region_in told.now.regions p).base) (below (length told.now.regions)) }
    ensures room { vec_capacity inner.new ≡ vec_capacity inner.old }
{
    for name in from..told.len() {
        let region = told.region(name);
        if !region.base {
            inner.push_reserved(PieceNo::new(name as u32));
        }
    }
}

// A piece before a finger enters it: its name, whether it is base, and how many pieces there are.
#[derive(Clone, Copy)]
pub(crate) struct Entered {
    pub(crate) piece: usize,
    pub(crate) base: bool,
    pub(crate) pieces: usize,
}

// Puts the names of the pieces that aren't base in a list after a finger, in order. A finger adds two pieces, and of the
// others only the piece entered may cease to be base: where it doesn't, all that is listed stays, and the new ones come
// last. It takes no memory. Constant time there, and else linear in the pieces.
pub(crate) fn renew_inner(told: &Told, entered: Entered, inner: &mut Vec<PieceNo>)
    requires entered { entered.piece < length told.now.regions }
    requires more { entered.pieces ≤ length told.now.regions }
    requires few { length told.now.regions < 2 ^ 32 }
    requires room { length told.now.regions ≤ vec_capacity inner.old }
    requires listed { (region_in told.now.regions entered.piece).base ≡ entered.base → inner.old.items ≡ filter (λ p. not (region_in told.now.regions p).base) (below entered.pieces) }
    ensures inner { inner.new.items ≡ filter (λ p. not (region_in told.now.regions p).base) (below (length told.now.regions)) }
    ensures room { vec_capacity inner.new ≡ vec_capacity inner.old }
{
    let now = told.region(entered.piece);
    if now.base == entered.base {
        put_inner(told, entered.pieces, inner);
    } else {
        inner.clear();
        put_inner(told, 0, inner);
    }
}

// The names of the pieces that aren't base, in a list with room for those of all.
pub(crate) fn inner_names(alloc: Global, told: &Told) -> Result<Vec<PieceNo>, NoMemory>
    requires { length told.now.regions < 2 ^ 32 }
    ensures inner { IfOk result (λ inner. inner.items ≡ filter (λ p. not (region_in told.now.regions p).base) (below (length told.now.regions))) }
    ensures room { IfOk result (λ inner. length told.now.regions ≤ vec_capacity inner) }
{
    let mut inner = Vec::with_capacity(alloc, told.len())?;
    put_inner(told, 0, &mut inner);
    Ok(inner)
}

// What is told of the pieces of a drawing with fresh names. Linear in the spans.
pub(crate) fn told_of(
    alloc: Global,
    drawing: &Drawing,
    starts: &[u32],
    mates: &[u32],
    names: &[u32],
) -> Result<Told, NoMemory>
    requires starts { starts.now ≡ offsets_of drawing.now.drawing }
    requires mates { mates.now ≡ map (other_end (chords drawing.now.drawing)) (spans drawing.now.drawing) }
    requires names { names.now ≡ fresh_names drawing.now.drawing }
    requires few { span_count drawing.now.drawing < 2 ^ 30 }
    ensures told { IfOk result (λ told. AreTold drawing.now.drawing names.now told.regions) }
    ensures room { IfOk result (λ told. told.room ≡ 0) }
{
    let count = drawing.points() + drawing.polygon().sides() / 2 + 1;
    let mut told = Told::new(alloc, count as usize)?;
    told.mark(drawing, starts, names);
    told.count(names);
    told.measure(names, mates);
    Ok(told)
}
