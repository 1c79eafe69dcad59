// What is asked of the names of spans where nothing is counted.
ghost use Rattle.std.specs.Prelude.{◌≡◌, ℕ, ◌<◌, ◌^◌, length, filter, nat_eq, slice_index};
ghost use Rattle.obd_base.specs.Lists.{below};
ghost use Rattle.region_table.specs.Counted.{size_so_far};

// How many spans have a name. Linear in the spans.
pub(crate) fn count_of(names: &[u32], name: u32) -> u32
    requires few { length names.now < 2 ^ 30 }
    ensures { result ≡ size_so_far (λ s. slice_index names.now s) (length names.now) name }
{
    let mut count: u32 = 0;
    for at in 0..names.len() {
        if names[at] == name {
            count += 1;
        }
    }
    count
}

// The span of a name, by how many spans before it have the name. Linear in the spans.
pub(crate) fn span_of(names: &[u32], name: u32, index: u32) -> u32
    requires few { length names.now < 2 ^ 30 }
    requires index { index < size_so_far (λ s. slice_index names.now s) (length names.now) name }
    ensures { result ≡ slice_index (filter (λ r. nat_eq (slice_index names.now r) name) (below (length names.now))) index }
{
    let mut before: u32 = 0;
    for at in 0..names.len() {
        if names[at] == name {
            if before == index {
                return at as u32;
            }
            before += 1;
        }
    }
    0
}
