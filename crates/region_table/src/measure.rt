// Distances of pieces.
ghost use Rattle.std.specs.Prelude.{◌≡◌, ℕ, ◌<◌, ◌≤◌, ◌^◌, false, length, slice_index, slice_index_or};
ghost use Rattle.page_surface.specs.Drawing.{Drawing};
ghost use Rattle.region_table.specs.Counted.{first_label};
ghost use Rattle.region_table.specs.Told.{AreMeasured, IsUnmeasured};

// The distance of each piece, by two sweeps over the place order. Before it base pieces have 0, and the others a bound.
pub(crate) fn measure(names: &[u32], mates: &[u32], labels: &mut [u32], bound: u32)
    requires given { (d : Drawing) × IsUnmeasured d names.now mates.now labels.old bound }
    requires small { bound < 2 ^ 31 }
    requires within { (p : ℕ) → slice_index labels.old p ≤ bound }
    ensures size { length labels.new ≡ length labels.old }
    ensures distances { (d : Drawing) → IsUnmeasured d names.now mates.now labels.old bound → AreMeasured d names.now labels.new }
{
    let mut at = mates.len();
    while at > 0 {
        at -= 1;
        if mates[at] > at as u32 {
            let before = names[at] as usize;
            let after = names[at + 1] as usize;
            let label = labels[after] + 1;
            if label < labels[before] {
                labels[before] = label;
            }
        }
    }
    for at in 0..mates.len() {
        if mates[at] > at as u32 {
            let before = names[at] as usize;
            let after = names[at + 1] as usize;
            let label = labels[before] + 1;
            if label < labels[after] {
                labels[after] = label;
            }
        }
    }
}

// The label of a piece before the sweeps: 0 for a base piece, and a bound for another.
fn first_label(base: bool, bound: u32) -> u32
    ensures { result ≡ first_label bound base }
{
    if base { 0 } else { bound }
}

// Sets the labels before the sweeps.
pub(crate) fn set_labels(bases: &[bool], labels: &mut [u32], bound: u32)
    requires { length labels.old ≡ length bases.now }
    ensures size { length labels.new ≡ length labels.old }
    ensures labels { (p : ℕ) → p < length bases.now → slice_index labels.new p ≡ first_label bound (slice_index_or bases.now p false) }
{
    for name in 0..bases.len() {
        labels[name] = first_label(bases[name], bound);
    }
}
