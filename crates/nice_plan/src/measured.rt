// A drawing with its table: pieces and segments as the strategy walks over them.
ghost use Rattle.std.specs.Prelude.{◌≡◌, ◌<◌, length};
ghost use Rattle.page_surface.specs.Drawing.{spot};
ghost use Rattle.drawing.specs.Round.{next_segment, previous_segment};
ghost use Rattle.finger_move.specs.Glued.{glued_segment, segment_of};
ghost use Rattle.region_table.specs.Table.{name_at, region};
ghost use Rattle.nice_plan.specs.Measured.{IsInner, IsMeasured, IsOn, home, segment_at};

use drawing::Drawing;
use obd_base::{Exit, PieceNo};
use region_table::{Edge, Regions};
use std::marker::Model;

// A drawing with its table, of which the distances are fresh.
#[derive(Drop)]
pub(crate) struct Measured<'a> {
    pub(crate) drawing: &'a Drawing,
    pub(crate) regions: &'a Regions,
}

impl<'a> Model for Measured<'a> {
    ghost use Rattle.nice_plan.specs.Measured.{IsMeasured, Measured as Shown};

    ghost Value = { Shown };

    ghost view = { λ m. record { drawing = m.drawing.now.drawing; table = m.regions.now } };

    ghost invariant = { λ m. IsMeasured m.drawing.now.drawing m.regions.now };
}

impl<'a> Measured<'a> {
    // The piece of a segment.
    pub(crate) fn piece(&self, segment: &Exit) -> PieceNo
        requires { IsOn self.now.drawing segment.now }
        ensures value { result ≡ name_at self.now.table (spot self.now.drawing segment.now) }
        ensures inside { result < length self.now.table.regions }
        ensures known { IsMeasured self.now.drawing self.now.table }
    {
        self.regions.piece_at(segment.side, segment.place)
    }

    // The segment that a segment is glued to.
    pub(crate) fn beyond(&self, segment: &Exit) -> Exit
        requires { IsOn self.now.drawing segment.now }
        ensures value { result ≡ glued_segment self.now.drawing segment.now }
        ensures there { IsOn self.now.drawing result }
    {
        Exit {
            side: self.drawing.polygon().pair(segment.side),
            place: self.drawing.points_on(segment.side) - segment.place,
        }
    }

    // Whether a piece is base.
    pub(crate) fn is_base(&self, piece: PieceNo) -> bool
        requires { piece < length self.now.table.regions }
        ensures value { result ≡ (region self.now.table piece).base }
        ensures known { IsMeasured self.now.drawing self.now.table }
    {
        self.regions.is_base(piece)
    }

    // How many segments a piece has that isn't base.
    pub(crate) fn size(&self, piece: PieceNo) -> u32
        requires { IsInner self.now piece }
        ensures value { result ≡ (region self.now.table piece).size }
        ensures some { 0 < result }
        ensures known { IsMeasured self.now.drawing self.now.table }
    {
        self.regions.corners(piece) / 2
    }

    // The distance of a piece.
    pub(crate) fn distance(&self, piece: PieceNo) -> u32
        requires { piece < length self.now.table.regions }
        ensures value { result ≡ (region self.now.table piece).distance }
        ensures known { IsMeasured self.now.drawing self.now.table }
    {
        self.regions.distance(piece)
    }

    // A segment of a piece that isn't base, by its number counterclockwise from the first.
    pub(crate) fn segment(&self, piece: PieceNo, index: u32) -> Exit
        requires piece { IsInner self.now piece }
        requires index { index < (region self.now.table piece).size }
        ensures value { result ≡ segment_of self.now.drawing (segment_at self.now piece index) }
        ensures number { spot self.now.drawing result ≡ segment_at self.now piece index }
        ensures there { IsOn self.now.drawing result }
    {
        match self.regions.edge(piece, 2 * index) {
            Edge::Segment { side, segment } => Exit {
                side,
                place: segment,
            },
            Edge::Chord { .. } => unreachable!(),
        }
    }

    // The first segment of a piece that isn't base.
    pub(crate) fn first(&self, piece: PieceNo) -> Exit
        requires { IsInner self.now piece }
        ensures number { spot self.now.drawing result ≡ home self.now piece }
        ensures there { IsOn self.now.drawing result }
    {
        prove!(self.size(piece) > 0);
        self.segment(piece, 0)
    }

    // Which of the segments of its piece a segment is. Linear in the piece.
    pub(crate) fn index_of(&self, piece: PieceNo, segment: &Exit) -> u32
        requires piece { IsInner self.now piece }
        requires there { IsOn self.now.drawing segment.now }
        requires inside { name_at self.now.table (spot self.now.drawing segment.now) ≡ piece }
        ensures inside { result < (region self.now.table piece).size }
        ensures value { segment_at self.now piece result ≡ spot self.now.drawing segment.now }
        ensures known { IsMeasured self.now.drawing self.now.table }
    {
        for index in 0..self.size(piece) {
            if self.segment(piece, index) == *segment {
                return index;
            }
        }
        unreachable!()
    }

    // Which segment comes after a segment of a piece that isn't base, counterclockwise.
    pub(crate) fn next(&self, piece: PieceNo, index: u32) -> u32
        requires piece { IsInner self.now piece }
        requires index { index < (region self.now.table piece).size }
        ensures inside { result < (region self.now.table piece).size }
        ensures value { segment_at self.now piece result ≡ next_segment self.now.drawing (segment_at self.now piece index) }
    {
        let size = self.size(piece);
        if index + 1 < size { index + 1 } else { 0 }
    }

    // And clockwise.
    pub(crate) fn previous(&self, piece: PieceNo, index: u32) -> u32
        requires piece { IsInner self.now piece }
        requires index { index < (region self.now.table piece).size }
        ensures inside { result < (region self.now.table piece).size }
        ensures value { segment_at self.now piece result ≡ previous_segment self.now.drawing (segment_at self.now piece index) }
    {
        let size = self.size(piece);
        if index > 0 { index - 1 } else { size - 1 }
    }
}
