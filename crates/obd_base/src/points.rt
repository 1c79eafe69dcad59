// Signs, exits of strands, points of the diagram and columns of the differential.

use crate::{ArcNo, Items, SideNo};

/// The sign of a single Dehn twist. A positive twist turns to the right.
#[derive(Clone, Copy, Debug, PartialEq, Eq)]
pub enum Sign {
    Plus,
    Minus,
}

/// A point by which a strand or a curve leaves the polygon: a side, and the point's place on it. Places
/// are counted from 0 from the start of the side.
#[derive(Clone, Copy, Debug, PartialEq, Eq, PartialOrd, Ord, Hash)]
pub struct Exit {
    pub side: SideNo,
    pub place: u32,
}

/// A point of the diagram: an arc, and the point's number on it. The crossing points are counted along
/// the arc's first side from its start, and the contact point comes last.
#[derive(Clone, Copy, Debug, PartialEq, Eq, PartialOrd, Ord, Hash)]
pub struct Point {
    pub arc: ArcNo,
    pub number: u32,
}

/// A column modulo two: the numbers of the rows where it is one, in ascending order.
#[derive(Drop)]
pub struct Column {
    pub rows: Items<u32>,
}
