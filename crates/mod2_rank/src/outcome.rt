// What an elimination finds.

use obd_base::Items;

/// A pivot of the elimination: a column, and the least row of what is left of it.
#[derive(Clone, Copy, Debug, PartialEq, Eq)]
pub struct Pivot {
    pub column: u32,
    pub row: u32,
}

/// What is said of the contact row, which is the last: why the contact class is zero or isn't.
#[derive(Drop)]
pub enum Verdict {
    /// The columns whose sum is the contact row alone: the class is zero.
    Chain(Items<u32>),
    /// The rows of a functional that is one on the contact row and even on each column: it is nonzero.
    Functional(Items<u32>),
}

/// What the elimination of some columns finds: its pivots by their columns, the rank, and the verdict.
#[derive(Drop)]
pub struct Outcome {
    pub pivots: Items<Pivot>,
    pub rank: u32,
    pub verdict: Verdict,
}
