// Lists of numbers that stand one after another in one vector, and a last one that still grows.
ghost use Rattle.std.specs.Prelude.{◌≡◌, ◌<◌, ◌≤◌, ◌++◌, ◌∷◌, [], length, slice_index_or, OnOk};
ghost use Rattle.mod2_rank.specs.Blocks.{EndsFit, blocks, start_of};

use obd_base::NoMemory;
use std::alloc::Global;
use std::marker::Model;

// Where a list begins: where the one before it ends, and the first at 0.
fn start_of(ends: &[usize], number: usize) -> usize
    requires { number ≤ length ends.now }
    ensures { result ≡ start_of 0 ends.now number }
{
    if number == 0 { 0 } else { ends[number - 1] }
}

// A list by its number.
fn list_at<'a>(items: &'a [u32], ends: &[usize], number: usize) -> &'a [u32]
    requires within { number < length ends.now }
    requires fit { EndsFit 0 (length items.now) ends.now }
    ensures { result.now ≡ slice_index_or (blocks items.now 0 ends.now) number [] }
{
    let start = start_of(ends, number);
    let end = ends[number];
    prove!(start <= end);
    prove!(end <= items.len());
    &items[start..end]
}

// The lists, and the places where the whole ones end. What stands past the last end grows still.
#[derive(Drop)]
pub(crate) struct Blocks {
    items: Vec<u32>,
    ends: Vec<usize>,
}

impl Model for Blocks {
    ghost use Rattle.std.specs.Prelude.{length};
    ghost use Rattle.mod2_rank.specs.Blocks.{EndsFit, Packed, packed};

    ghost Value = { Packed };

    ghost view = { λ b. packed b.items.items b.ends.items };

    ghost invariant = { λ b. EndsFit 0 (length b.items.items) b.ends.items };
}

impl Blocks {
    // No list, and an empty one that grows. Takes no memory.
    pub(crate) fn new(alloc: Global) -> Blocks
        ensures { result ≡ record { lists = []; growing = [] } }
    {
        Blocks {
            items: Vec::new(alloc),
            ends: Vec::new(alloc),
        }
    }

    // Puts a number last in the list that grows.
    pub(crate) fn push(&mut self, item: u32) -> Result<(), NoMemory>
        ensures whole { OnOk result (self.new.lists ≡ self.old.lists) }
        ensures growing { OnOk result (self.new.growing ≡ self.old.growing ++ item ∷ []) }
    {
        self.items.push(item)?;
        Ok(())
    }

    // Makes a whole list of the one that grows, and begins another.
    pub(crate) fn close(&mut self) -> Result<(), NoMemory>
        ensures whole { OnOk result (self.new.lists ≡ self.old.lists ++ self.old.growing ∷ []) }
        ensures growing { OnOk result (self.new.growing ≡ []) }
    {
        let end = self.items.as_slice().len();
        self.ends.push(end)?;
        Ok(())
    }

    // Begins the list that grows again.
    pub(crate) fn restart(&mut self)
        ensures whole { self.new.lists ≡ self.old.lists }
        ensures growing { self.new.growing ≡ [] }
    {
        let ends = self.ends.as_slice();
        let start = start_of(ends, ends.len());
        self.items.truncate(start);
    }

    // A whole list by its number.
    pub(crate) fn list(&self, number: usize) -> &[u32]
        requires { number < length self.now.lists }
        ensures { result.now ≡ slice_index_or self.now.lists number [] }
    {
        list_at(self.items.as_slice(), self.ends.as_slice(), number)
    }
}
