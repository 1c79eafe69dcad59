// The numbers by which the crates name things, one type a kind of thing. Contracts see each as its number.
ghost use Rattle.std.specs.Prelude.{◌≡◌, ◌<◌, ◌^◌};

use std::marker::Model;

/// A side of the polygon. Sides are numbered from 0, counterclockwise.
#[derive(Clone, Copy, Debug, PartialEq, Eq, PartialOrd, Ord, Hash)]
pub struct SideNo {
    number: u32,
}

impl Model for SideNo {
    ghost use Rattle.std.specs.Prelude.{ℕ};

    ghost Value = { ℕ };

    ghost view = { λ s. s.number };

    ghost inverse = { λ n. record { number = n } };
}

impl SideNo {
    pub const fn new(number: u32) -> SideNo
        ensures { result ≡ number }
    {
        SideNo { number }
    }

    pub const fn number(self) -> u32
        ensures value { result ≡ self }
        ensures fits { self < 2 ^ 32 }
    {
        self.number
    }
}

/// An arc of the basis. Arcs are numbered from 0 by first appearance among the sides.
#[derive(Clone, Copy, Debug, PartialEq, Eq, PartialOrd, Ord, Hash)]
pub struct ArcNo {
    number: u32,
}

impl Model for ArcNo {
    ghost use Rattle.std.specs.Prelude.{ℕ};

    ghost Value = { ℕ };

    ghost view = { λ s. s.number };

    ghost inverse = { λ n. record { number = n } };
}

impl ArcNo {
    pub const fn new(number: u32) -> ArcNo
        ensures { result ≡ number }
    {
        ArcNo { number }
    }

    pub const fn number(self) -> u32
        ensures value { result ≡ self }
        ensures fits { self < 2 ^ 32 }
    {
        self.number
    }
}

/// A label of the page. Labels are numbered from 0 by first appearance, polygon by polygon.
#[derive(Clone, Copy, Debug, PartialEq, Eq, PartialOrd, Ord, Hash)]
pub struct LabelNo {
    number: u32,
}

impl Model for LabelNo {
    ghost use Rattle.std.specs.Prelude.{ℕ};

    ghost Value = { ℕ };

    ghost view = { λ s. s.number };

    ghost inverse = { λ n. record { number = n } };
}

impl LabelNo {
    pub const fn new(number: u32) -> LabelNo
        ensures { result ≡ number }
    {
        LabelNo { number }
    }

    pub const fn number(self) -> u32
        ensures value { result ≡ self }
        ensures fits { self < 2 ^ 32 }
    {
        self.number
    }
}

/// A strand of a drawing. Strand `i` belongs to arc `i`.
#[derive(Clone, Copy, Debug, PartialEq, Eq, PartialOrd, Ord, Hash)]
pub struct StrandNo {
    number: u32,
}

impl Model for StrandNo {
    ghost use Rattle.std.specs.Prelude.{ℕ};

    ghost Value = { ℕ };

    ghost view = { λ s. s.number };

    ghost inverse = { λ n. record { number = n } };
}

impl StrandNo {
    pub const fn new(number: u32) -> StrandNo
        ensures { result ≡ number }
    {
        StrandNo { number }
    }

    pub const fn number(self) -> u32
        ensures value { result ≡ self }
        ensures fits { self < 2 ^ 32 }
    {
        self.number
    }
}

/// A piece of a drawing: a region of the diagram, or a part of the base region.
#[derive(Clone, Copy, Debug, PartialEq, Eq, PartialOrd, Ord, Hash)]
pub struct PieceNo {
    number: u32,
}

impl Model for PieceNo {
    ghost use Rattle.std.specs.Prelude.{ℕ};

    ghost Value = { ℕ };

    ghost view = { λ s. s.number };

    ghost inverse = { λ n. record { number = n } };
}

impl PieceNo {
    pub const fn new(number: u32) -> PieceNo
        ensures { result ≡ number }
    {
        PieceNo { number }
    }

    pub const fn number(self) -> u32
        ensures value { result ≡ self }
        ensures fits { self < 2 ^ 32 }
    {
        self.number
    }
}

/// A generator. Generators are numbered from 0 in lexicographic order.
#[derive(Clone, Copy, Debug, PartialEq, Eq, PartialOrd, Ord, Hash)]
pub struct GenNo {
    number: u32,
}

impl Model for GenNo {
    ghost use Rattle.std.specs.Prelude.{ℕ};

    ghost Value = { ℕ };

    ghost view = { λ s. s.number };

    ghost inverse = { λ n. record { number = n } };
}

impl GenNo {
    pub const fn new(number: u32) -> GenNo
        ensures { result ≡ number }
    {
        GenNo { number }
    }

    pub const fn number(self) -> u32
        ensures value { result ≡ self }
        ensures fits { self < 2 ^ 32 }
    {
        self.number
    }
}
