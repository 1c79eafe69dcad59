// Where a finger puts numbers into the place order.
ghost use Rattle.std.specs.Prelude.{◌≡◌, ℕ, ◌<◌, ◌^◌, cond, map, slice_index};
ghost use Rattle.region_table.specs.FingerLists.{comes_in_front, first_new, renamed_part, shifted, step};

// The span that a finger enters, and the span beyond, which is glued to it. Before each of them it puts two numbers.
#[derive(Clone, Copy)]
pub(crate) struct Entry {
    pub(crate) entered: u32,
    pub(crate) beyond: u32,
}

// Two where a number isn't below a place.
fn step(number: u32, place: u32) -> u32
    ensures { result ≡ step number place }
{
    if number < place { 0 } else { 2 }
}

impl Entry {
    // Where an old number stands afterwards.
    pub(crate) fn shifted(self, number: u32) -> u32
        requires { number < 2 ^ 30 }
        ensures { result ≡ shifted self.entered self.beyond number }
    {
        number + (step(number, self.entered) + step(number, self.beyond))
    }

    // The first of the two numbers that are put in before the span entered.
    pub(crate) fn first_new(self) -> u32
        requires { self.entered < 2 ^ 30 }
        ensures { result ≡ first_new self.entered self.beyond }
    {
        self.entered + step(self.entered, self.beyond)
    }

    // The first of the two that are put in before the span beyond.
    pub(crate) fn first_beyond(self) -> u32
        requires { self.beyond < 2 ^ 30 }
        ensures { result ≡ first_new self.beyond self.entered }
    {
        self.beyond + step(self.beyond, self.entered)
    }
}

// Sets numbers to where they stand afterwards. Linear in them.
pub(crate) fn shift_all(numbers: &mut [u32], entry: Entry)
    requires { (p : ℕ) → slice_index numbers.old p < 2 ^ 30 }
    ensures { numbers.new ≡ map (shifted entry.entered entry.beyond) numbers.old }
{
    for at in 0..numbers.len() {
        numbers[at] = entry.shifted(numbers[at]);
    }
}
