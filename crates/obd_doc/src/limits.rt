// The limits that a document gives.

/// The greatest numbers of finger moves and of generators that a run may come to.
#[derive(Clone, Copy, Debug, PartialEq, Eq)]
pub struct Limits {
    pub moves: u32,
    pub generators: u32,
}
