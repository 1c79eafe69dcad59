// The generators, listed.
ghost use Rattle.std.specs.Prelude.{◌≡◌, ℕ, suc, ◌<◌, [], ◌↔◌, length, slice_index_or, IfSome, IsNone, IsSome};
ghost use Rattle.obd_base.specs.Lists.{Mem};
ghost use Rattle.page_surface.specs.Drawing.{Drawing};
ghost use Rattle.drawing.specs.Points.{IsGenerator, contact_generator, generators};
ghost use Rattle.generator_list.specs.Packed.{IsListed, IsNumberOf};

use crate::packed::Packed;
use obd_base::GenNo;
use std::marker::Model;

/// The generators of a drawing in lexicographic order, numbered from 0, each once. A generator is one point on each
/// arc, on strands that are all different; it is given by the numbers of its points, arc by arc. There is at least
/// one, the contact generator. Contracts see the list of these lists. Four bytes a point number; no call takes memory.
pub struct Generators {
    lists: Packed,
}

// By hand, so that a caller's proof holds one call and not the drop of each field.
impl Drop for Generators {
    fn drop(self) {
        let Generators { lists: _lists } = self;
    }
}

impl Model for Generators {
    ghost use Rattle.std.specs.Prelude.{ℕ, List};
    ghost use Rattle.generator_list.specs.Packed.{IsListed};

    ghost Value = { List (List ℕ) };

    ghost view = { λ g. g.lists.lists };

    ghost invariant = { λ g. IsListed g.lists.lists };
}

impl Generators {
    pub(crate) fn of(lists: Packed) -> Generators
        requires { IsListed lists.lists }
        ensures { result ≡ lists.lists }
    {
        Generators { lists }
    }

    /// How many there are. Constant time, as are `points` and `contact`.
    pub fn count(&self) -> u32
        ensures value { result ≡ length self.now }
        ensures some { 0 < result }
    {
        self.lists.count()
    }

    /// The points of a generator, one an arc.
    pub fn points(&self, generator: GenNo) -> &[u32]
        requires { generator < length self.now }
        ensures { result.now ≡ slice_index_or self.now generator [] }
    {
        self.lists.item(generator.number())
    }

    /// The number of the generator with these points, and `None` exactly where the list is no generator. The search
    /// halves the numbers, since the list is sorted already: as many comparisons as the count has binary digits, and
    /// no table beside the list.
    pub fn find(&self, points: &[u32]) -> Option<GenNo>
        ensures some { IfSome result (λ generator. IsNumberOf self.now generator points.now) }
        ensures none { IsNone result ↔ (Mem points.now self.now → ⊥) }
        ensures generator { (drawing : Drawing) → self.now ≡ generators drawing → IsSome result ↔ IsGenerator drawing points.now }
    {
        match self.lists.find(points) {
            Some(number) => Some(GenNo::new(number)),
            None => None,
        }
    }

    /// The number of the contact generator, which consists of the contact points: the last.
    pub fn contact(&self) -> GenNo
        ensures last { suc result ≡ length self.now }
        ensures contact { (drawing : Drawing) → self.now ≡ generators drawing → slice_index_or self.now result [] ≡ contact_generator drawing }
    {
        GenNo::new(self.lists.count() - 1)
    }
}
