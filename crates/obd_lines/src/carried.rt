// Pieces that a finger keeps, by the names of the pieces of all spans.

/// The two spans into which a finger goes, by their numbers in the place order.
#[derive(Clone, Copy)]
pub(crate) struct Spots {
    pub(crate) entered: usize,
    pub(crate) beyond: usize,
}

impl Spots {
    /// The number that a span has after the finger.
    pub(crate) fn carried(&self, span: usize) -> usize {
        let first = if span < self.entered { 0 } else { 2 };
        let second = if span < self.beyond { 0 } else { 2 };
        span.saturating_add(first + second)
    }
}

// How many spans have a name.
fn count_of(names: &[u32], name: u32) -> u32 {
    let mut count: u32 = 0;
    for other in names {
        if *other == name {
            count = count.saturating_add(1);
        }
    }
    count
}

// Whether all spans of a piece are carried into a piece after the finger, and the finger goes into none of them.
fn all_carried(before: &[u32], after: &[u32], spots: Spots, name: u32, new: u32) -> bool {
    for span in 0..before.len() {
        if before[span] == name {
            if span == spots.entered || span == spots.beyond {
                return false;
            }
            if name_at(after, spots.carried(span)) != Some(new) {
                return false;
            }
        }
    }
    true
}

// The name of a span's piece.
fn name_at(names: &[u32], span: usize) -> Option<u32> {
    match names.get(span) {
        Some(name) => Some(*name),
        None => None,
    }
}

/// Whether a finger keeps the piece of a span: whether the piece of the span after it has just the piece's spans, and the
/// finger goes into none of them.
pub(crate) fn is_kept(before: &[u32], after: &[u32], spots: Spots, span: usize) -> bool {
    let Some(name) = name_at(before, span) else {
        return false;
    };
    let Some(new) = name_at(after, spots.carried(span)) else {
        return false;
    };
    count_of(before, name) == count_of(after, new) && all_carried(before, after, spots, name, new)
}

/// Whether each piece that a finger keeps has the name that it had. Which pieces it keeps is told by names made anew.
pub(crate) fn names_stay(before: &[u32], after: &[u32], anew: &[u32], spots: Spots) -> bool {
    for span in 0..before.len() {
        if is_kept(before, anew, spots, span)
            && name_at(after, spots.carried(span)) != Some(before[span])
        {
            return false;
        }
    }
    true
}
