// Counts of the places of a row, with quick sums.
ghost use Rattle.std.specs.Prelude.{◌≡◌, ◌+◌, ◌<◌, ◌≤◌, ◌^◌, length, sum, take, IfOk};
ghost use Rattle.nice_plan.specs.Counts.{one_more, zeros};

use obd_base::NoMemory;
use std::alloc::Global;
use std::marker::Model;

// How much stands at each place of a row. Contracts see the list of the counts.
//
// It is a Fenwick tree, of which the nodes that it could leave out are kept too: the places are a power of two, `leaves`,
// and their counts stand in `sums` from there on. Node 1 is the root, and node `i` the sum of nodes `2 i` and `2 i + 1`.
// So adding and summing climb from a leaf to the root, in as many steps as the number of places has digits.
#[derive(Drop)]
pub(crate) struct Counts {
    leaves: usize,
    sums: Vec<u32>,
}

impl Model for Counts {
    ghost use Rattle.std.specs.Prelude.{ℕ, List, drop};
    ghost use Rattle.nice_plan.specs.Counts.{IsTree};

    ghost Value = { List ℕ };

    ghost view = { λ c. drop c.leaves c.sums.items };

    ghost invariant = { λ c. IsTree c.leaves c.sums.items };
}

impl Counts {
    // Nothing at so many places, or at fewer than twice as many. Linear in them.
    pub(crate) fn of(alloc: Global, places: u32) -> Result<Counts, NoMemory>
        requires { places ≤ 2 ^ 30 }
        ensures none { IfOk result (λ counts. counts ≡ zeros (length counts)) }
        ensures room { IfOk result (λ counts. places ≤ length counts) }
    {
        let leaves = places.next_power_of_two() as usize;
        let sums = vec![in alloc; 0; 2 * leaves]?;
        Ok(Counts { leaves, sums })
    }

    // Adds one at a place. Logarithmic.
    pub(crate) fn add(&mut self, place: u32)
        requires place { place < length self.old }
        requires few { sum self.old + 1 < 2 ^ 32 }
        ensures { self.new ≡ one_more self.old place }
    {
        let mut node = self.leaves + place as usize;
        while node > 0 {
            self.sums[node] += 1;
            node /= 2;
        }
    }

    // How much stands before a place. Logarithmic.
    pub(crate) fn before(&self, place: u32) -> u32
        requires { place < length self.now }
        ensures { result ≡ sum (take place self.now) }
    {
        let mut first = self.leaves;
        let mut at = place as usize;
        let mut sum = 0;
        while first > 1 {
            if at % 2 == 1 {
                sum += self.sums[first + at - 1];
            }
            first /= 2;
            at /= 2;
        }
        sum
    }
}
