// Finger moves.
ghost use Rattle.std.specs.Prelude.{◌≡◌};

use obd_base::{Exit, SideNo, StrandNo};

/// A finger move: the chord of a strand that is pushed, and the segment of a side into which it goes. The chords of
/// a strand are numbered from 0, from its start, and the segments of a side from 0, counterclockwise. After Sarkar
/// and Wang (2010).
#[derive(Clone, Copy, Debug, PartialEq, Eq)]
pub struct Finger {
    pub strand: StrandNo,
    pub chord: u32,
    pub side: SideNo,
    pub segment: u32,
}

// The segment of a finger, by its side and its place there.
pub(crate) fn segment_of(finger: &Finger) -> Exit
    ensures { result ≡ record { side = finger.now.side; place = finger.now.segment } }
{
    Exit {
        side: finger.side,
        place: finger.segment,
    }
}
