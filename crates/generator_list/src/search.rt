// The search for generators.
ghost use Rattle.std.specs.Prelude.{◌≡◌, ℕ, ◌+◌, ◌<◌, ◌≤◌, ◌^◌, ◌++◌, ◌∷◌, [], drop, length, slice_index_or, IfOk, OnOk, IfErr};
ghost use Rattle.generator_list.specs.Links.{AreCursors, AreLinked};
ghost use Rattle.generator_list.specs.Search.{AreSmall, chosen, goes_on, open_rows};

use crate::links::{Links, least};
use crate::packed::Packed;
use crate::refusal::ListRefusal;
use crate::strand_sets::{is_in_set, set_with};
use obd_base::{Items, NoMemory, StrandNo};
use smallvec::SmallVec;
use std::alloc::Global;

// What a search reads: the strands of each arc's points, how these points follow each other strand by strand, and for
// the last arcs, so many of them, which sets of strands leave them different strands.
#[derive(Drop)]
pub(crate) struct Search {
    pub(crate) alloc: Global,
    pub(crate) arcs: Items<Items<StrandNo>>,
    pub(crate) links: Items<Links>,
    pub(crate) open: Items<Items<bool>>,
    pub(crate) limit: u32,
}

// A list with one point more.
fn extended(alloc: Global, begun: &[u32], point: u32) -> Result<SmallVec<u32, 8>, NoMemory>
    ensures { IfOk result (λ longer. longer.items ≡ begun.now ++ point ∷ []) }
{
    let mut longer = SmallVec::from_slice(alloc, begun)?;
    longer.push(point)?;
    Ok(longer)
}

impl Search {
    // Whether a point on a strand goes on: the strand isn't used, and with it the arcs after this one, which is
    // numbered, still have different strands.
    fn goes_on(&self, arc: usize, used: u8, strand: StrandNo) -> bool
        requires open { self.now.open ≡ open_rows self.now.arcs }
        requires arc { arc < length self.now.arcs }
        requires strand { strand < 8 }
        ensures { result ≡ goes_on (drop (arc + 1) self.now.arcs) used strand }
    {
        let after = self.open.item(self.arcs.len() - arc - 1).as_slice();
        !is_in_set(used, strand) && after[set_with(used, strand) as usize]
    }

    // For each strand the first point of an arc on it, where the points on it go on, and else the number of points.
    fn cursors(&self, arc: usize, used: u8) -> [u32; 8]
        requires open { self.now.open ≡ open_rows self.now.arcs }
        requires links { AreLinked self.now.arcs self.now.links }
        requires small { AreSmall self.now.arcs }
        requires arc { arc < length self.now.arcs }
        ensures { AreCursors (slice_index_or self.now.arcs arc []) (goes_on (drop (arc + 1) self.now.arcs) used) 0 result }
    {
        let mut cursors = [self.arcs.item(arc).len() as u32; 8];
        let first = self.links.item(arc).first.as_slice();
        for strand in 0..8 {
            if self.goes_on(arc, used, StrandNo::new(strand)) {
                cursors[strand as usize] = first[strand as usize];
            }
        }
        cursors
    }

    // Finds the generators that go on from a beginning which uses some strands, in lexicographic order.
    pub(crate) fn run(&self, used: u8, begun: &[u32], found: &mut Packed) -> Result<(), ListRefusal>
        requires open { self.now.open ≡ open_rows self.now.arcs }
        requires links { AreLinked self.now.arcs self.now.links }
        requires small { AreSmall self.now.arcs }
        requires limit { self.now.limit + 1 < 2 ^ 32 }
        requires begun { length begun.now ≤ length self.now.arcs }
        requires width { found.old.width ≡ length self.now.arcs }
        ensures found { OnOk result (found.new ≡ record {
          width = found.old.width;
          lists = found.old.lists ++ chosen (drop (length begun.now) self.now.arcs) used begun.now;
        }) }
        ensures within { length found.old.lists ≤ self.now.limit → OnOk result (length found.new.lists ≤ self.now.limit) }
        ensures over { IfErr result (λ refusal. (over : ℕ) → refusal ≡ ListRefusal.GeneratorLimit over
            → (over ≡ self.now.limit + 1) × (self.now.limit < length (found.old.lists ++ chosen (drop (length begun.now) self.now.arcs) used begun.now))) }
    {
        let arc = begun.len();
        if arc == self.arcs.len() {
            return found.put(begun, self.limit);
        }
        let strands = self.arcs.item(arc).as_slice();
        let next = self.links.item(arc).next.as_slice();
        let mut cursors = self.cursors(arc, used);
        let mut point = least(&cursors);
        while (point as usize) < strands.len() {
            let strand = strands[point as usize];
            let longer = extended(self.alloc, begun, point)?;
            self.run(set_with(used, strand), longer.as_slice(), found)?;
            cursors[strand.number() as usize] = next[point as usize];
            point = least(&cursors);
        }
        Ok(())
    }
}
