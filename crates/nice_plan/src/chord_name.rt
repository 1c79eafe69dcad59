// Chords by number.

use obd_base::StrandNo;

/// A chord: its strand, and its number on it. The chords of a strand are numbered from 0, from its start.
#[derive(Clone, Copy, Debug, PartialEq, Eq)]
pub struct ChordName {
    pub strand: StrandNo,
    pub chord: u32,
}
