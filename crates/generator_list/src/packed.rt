// Lists of one length.
ghost use Rattle.std.specs.Prelude.{◌≡◌, ℕ, ◌+◌, ◌<◌, ◌≤◌, ◌^◌, ◌++◌, ◌∷◌, [], length, slice_index_or, OnOk, OnErr, IfErr, IfSome, IfNone};
ghost use Rattle.obd_base.specs.Lists.{Mem};
ghost use Rattle.generator_list.specs.Packed.{InOrder, IsNumberOf};

use crate::refusal::ListRefusal;
use obd_base::NoMemory;
use std::alloc::Global;
use std::cmp::Ordering;
use std::marker::Model;

// Lists of points, all of one length, that stand one after the other. Contracts see the length and the lists.
pub(crate) struct Packed {
    width: u32,
    count: u32,
    points: Vec<u32>,
}

// By hand, so that a caller's proof holds one call and not the drop of each field.
impl Drop for Packed {
    fn drop(self) {
        let Packed {
            width: _width,
            count: _count,
            points: _points,
        } = self;
    }
}

impl Model for Packed {
    ghost use Rattle.std.specs.Prelude.{◌≡◌, ◌*◌, length};
    ghost use Rattle.generator_list.specs.Packed.{Packed as Shown, rows};

    ghost Value = { Shown };

    ghost view = { λ f. record { width = f.width; lists = rows f.width f.count f.points.items } };

    ghost invariant = { λ f. length f.points.items ≡ f.count * f.width };
}

// Puts a list after the others.
fn append(points: &mut Vec<u32>, list: &[u32]) -> Result<(), NoMemory>
    ensures ok { OnOk result (points.new.items ≡ points.old.items ++ list.now) }
    ensures err { OnErr result (points.new.items ≡ points.old.items) }
{
    points.extend_from_slice(list)?;
    Ok(())
}

impl Packed {
    // No lists.
    pub(crate) fn new(alloc: Global, width: u32) -> Packed
        ensures { result ≡ record { width = width; lists = [] } }
    {
        Packed {
            width,
            count: 0,
            points: Vec::new(alloc),
        }
    }

    // Puts a list last, where there are fewer than the limit.
    pub(crate) fn put(&mut self, points: &[u32], limit: u32) -> Result<(), ListRefusal>
        requires width { length points.now ≡ self.old.width }
        requires limit { limit + 1 < 2 ^ 32 }
        ensures found { OnOk result (self.new ≡ record { width = self.old.width; lists = self.old.lists ++ points.now ∷ [] }) }
        ensures within { OnOk result (length self.new.lists ≤ limit) }
        ensures over { IfErr result (λ refusal. (over : ℕ) → refusal ≡ ListRefusal.GeneratorLimit over
            → (over ≡ limit + 1) × (limit ≤ length self.old.lists)) }
    {
        if self.count >= limit {
            return Err(ListRefusal::GeneratorLimit { over: limit + 1 });
        }
        append(&mut self.points, points)?;
        self.count += 1;
        Ok(())
    }

    // How many there are.
    pub(crate) fn count(&self) -> u32
        ensures { result ≡ length self.now.lists }
    {
        self.count
    }

    // The list with a number, from 0.
    pub(crate) fn item(&self, number: u32) -> &[u32]
        requires { number < length self.now.lists }
        ensures { result.now ≡ slice_index_or self.now.lists number [] }
    {
        let width = self.width as usize;
        let start = number as usize * width;
        &self.points[start..start + width]
    }

    // The number of a list, where the lists are in lexicographic order.
    pub(crate) fn find(&self, list: &[u32]) -> Option<u32>
        requires { InOrder self.now.lists }
        ensures some { IfSome result (λ number. IsNumberOf self.now.lists number list.now) }
        ensures none { IfNone result (Mem list.now self.now.lists → ⊥) }
    {
        let mut low = 0;
        let mut high = self.count();
        while low < high {
            let middle = low + (high - low) / 2;
            match self.item(middle).cmp(list) {
                Ordering::Less => low = middle + 1,
                Ordering::Equal => return Some(middle),
                Ordering::Greater => high = middle,
            }
        }
        None
    }
}
