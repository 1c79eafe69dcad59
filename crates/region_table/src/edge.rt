// Edges of pieces.

use obd_base::{SideNo, StrandNo};

/// An edge of a piece that isn't base: a segment of a side, or a chord of a strand.
#[derive(Clone, Copy, Debug, PartialEq, Eq)]
pub enum Edge {
    Segment { side: SideNo, segment: u32 },
    Chord { strand: StrandNo, chord: u32 },
}
