// The entries of a twist word.

/// An entry of a twist word: the number of a curve, counted from 0, and the power, from -64 to 64 and not 0.
/// A power `n` is `|n|` single twists, positive ones where `n` is above 0.
#[derive(Clone, Copy, Debug, PartialEq, Eq)]
pub struct Twist {
    pub curve: u32,
    pub power: i32,
}

/// The entry of a twist word, counted from 0, after a single twist of which the words of all strands have more
/// than 4,000 letters together, and how many letters they have then.
#[derive(Clone, Copy, Debug, PartialEq, Eq)]
pub struct TooLong {
    pub twist: u64,
    pub letters: u64,
}
