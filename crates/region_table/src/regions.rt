// The table of a drawing's regions.
ghost use Rattle.std.specs.Prelude.{◌≡◌, ℕ, List, suc, ◌<◌, ◌≤◌, ◌^◌, false, length, max, slice_index, IfOk, OnErr, OnOk};
ghost use Rattle.page_surface.specs.Drawing.{Drawing as Shown, IsEmbedded, exit, spot};
ghost use Rattle.page_surface.specs.Polygon.{arc_count, first_side, sides};
ghost use Rattle.drawing.specs.Fingers.{IsLegal, pushed};
ghost use Rattle.drawing.specs.Pieces.{badness, corners, distance, is_base, segments_in, span_count};
ghost use Rattle.region_table.specs.Changed.{AreChanged, KeepsNames};
ghost use Rattle.region_table.specs.EdgeKinds.{IsEdge};
ghost use Rattle.region_table.specs.Edges.{names_beside, to_names};
ghost use Rattle.region_table.specs.Ends.{ChordNo, IsKept};
ghost use Rattle.region_table.specs.FingerLists.{IsPush};
ghost use Rattle.region_table.specs.Nice.{is_nice, weight};
ghost use Rattle.region_table.specs.Reads.{from_options, told_chords, told_crossings, told_points, told_spot};
ghost use Rattle.region_table.specs.Table.{DifferInDistance, HasDistances, IsFresh, IsTableOf, badness_of, corners_of, name_at, region, region_in, tells_nice, told_weight};

use crate::asked::{count_of, span_of};
use crate::edge::Edge;
use crate::entries::{Push, write_names};
use crate::entry::Entry;
use crate::frame::{Frame, frame_of, reserve_frame, write_frame};
use crate::listing::{Listing, grow_listing, list_anew, listing_of, reserve_listing};
use crate::names::number_pieces;
use crate::told::{Entered, Told, inner_names, renew_inner, told_of};
use drawing::{Drawing, Finger};
use obd_base::{NoMemory, PieceNo, Point, SideNo, StrandNo};
use page_surface::Polygon;
use std::alloc::Global;
use std::marker::Model;

/// The pieces of a drawing by names, with what is told of each: whether it is base, its edges, and its distance.
/// Contracts see a table as its lists, and say by `IsTableOf` which drawing's table it is: two spans have one name
/// exactly where no chord separates them. Which piece has which name is left open. The distances are fresh where the
/// table has those of its drawing, as a table made anew has.
pub struct Regions {
    polygon: Polygon,
    frame: Frame,
    listing: Listing,
    names: Vec<u32>,
    told: Told,
    inner: Vec<PieceNo>,
    counted: bool,
    room: u32,
}

// By hand, so that a caller's proof holds one call and not the drop of each field.
impl Drop for Regions {
    fn drop(self) {
        let Regions {
            polygon: _polygon,
            frame: _frame,
            listing: _listing,
            names: _names,
            told: _told,
            inner: _inner,
            counted: _counted,
            room: _room,
        } = self;
    }
}

impl Model for Regions {
    ghost use Rattle.std.specs.Prelude.{length};
    ghost use Rattle.region_table.specs.Asked.{told_by};
    ghost use Rattle.region_table.specs.Ends.{shown};
    ghost use Rattle.region_table.specs.Listed.{IsKeptListed};
    ghost use Rattle.region_table.specs.Room.{HasRoom};
    ghost use Rattle.region_table.specs.Table.{Table};

    ghost Value = { Table };

    ghost view = { λ r. shown r.polygon r.frame.starts.items r.names.items r.frame.mates.items r.frame.begins.lists (told_by r.counted r.names.items r.told.regions) r.inner.items r.room };

    ghost invariant = { λ r. IsKeptListed (shown r.polygon r.frame.starts.items r.names.items r.frame.mates.items r.frame.begins.lists (told_by r.counted r.names.items r.told.regions) r.inner.items r.room) r.frame.ends.items r.counted r.listing.starts.items r.listing.spans.items × HasRoom r.room (length r.told.regions) r.names r.frame.mates r.frame.ends r.frame.begins.room r.told.room r.listing.starts r.listing.next r.listing.spans r.inner };
}

impl Regions {
    /// The table of a drawing, with fresh distances.
    ///
    /// Linear in the points and sides, time and memory: with 44,000 points about 2 milliseconds and 4 megabytes.
    pub fn of(alloc: Global, drawing: &Drawing) -> Result<Regions, NoMemory>
        ensures table { IfOk result (λ regions. IsTableOf drawing.now.drawing regions) }
        ensures distances { IfOk result (λ regions. HasDistances drawing.now.drawing regions) }
    {
        let _ = drawing.points();
        let _ = drawing.polygon().sides();
        let polygon = drawing.polygon().copy()?;
        let frame = frame_of(alloc, drawing)?;
        let names = number_pieces(alloc, drawing, &frame.mates)?;
        let told = told_of(alloc, drawing, &frame.starts, &frame.mates, &names)?;
        let inner = inner_names(alloc, &told)?;
        let listing = listing_of(alloc, &names, &told)?;
        Ok(Regions {
            polygon,
            frame,
            listing,
            names,
            told,
            inner,
            counted: true,
            room: 0,
        })
    }

    /// Takes room for so many fingers, so that `after_finger` takes no memory for them: for four spans and two pieces
    /// more each. The table stays as it is, also after a refusal. Linear in the pieces and spans.
    pub fn reserve(&mut self, fingers: u32) -> Result<(), NoMemory>
        ensures ok { OnOk result (self.new.room ≡ max self.old.room fingers) }
        ensures err { OnErr result (self.new.room ≡ self.old.room) }
        ensures kept { self.new ≡ record self.old { room = self.new.room } }
    {
        self.names.try_reserve(4 * fingers as usize)?;
        reserve_frame(&mut self.frame, fingers)?;
        self.told.reserve(fingers)?;
        reserve_listing(&mut self.listing, fingers)?;
        let more = self.told.len() - self.inner.len() + 2 * fingers as usize;
        self.inner.try_reserve(more)?;
        if self.room < fingers {
            self.room = fingers;
        }
        Ok(())
    }

    // A finger by numbers of the place order.
    fn push_of(&self, finger: &Finger) -> Push
        requires { (d : Shown) × IsEmbedded d × IsLegal d finger.now × IsTableOf d self.now }
        ensures { (d : Shown) → IsEmbedded d → IsLegal d finger.now → IsTableOf d self.now → IsPush d finger.now result.from result.near result.far result.entry.entered result.entry.beyond result.out }
    {
        let entered = self.spot(finger.side, finger.segment);
        let past = self.points_on(finger.side) - finger.segment;
        let beyond = self.spot(self.polygon.pair(finger.side), past);
        let from = self.frame.begins.row(finger.strand.number() as usize)[finger.chord as usize];
        let to = self.frame.mates[from as usize];
        let entry = Entry { entered, beyond };
        if self.names[entered as usize] == self.names[from as usize] {
            Push {
                from,
                near: to,
                far: from,
                entry,
                out: 1,
            }
        } else {
            Push {
                from,
                near: from,
                far: to,
                entry,
                out: 0,
            }
        }
    }

    // The piece of a span that a finger is to enter.
    fn entered(&self, span: u32) -> Entered
        requires { span < length self.now.names }
        ensures piece { result.piece ≡ name_at self.now span }
        ensures inside { result.piece < length self.now.regions }
        ensures base { result.base ≡ (region_in self.now.regions result.piece).base }
        ensures pieces { result.pieces ≡ length self.now.regions }
    {
        let piece = self.name(span).number() as usize;
        Entered {
            piece,
            base: self.is_marked(piece),
            pieces: self.pieces(),
        }
    }

    /// Makes the table that of the drawing after a finger, from that of the drawing before. The distances are stale then,
    /// so `distance` and `weight` wait for `measure`. Each piece that the finger keeps has the name that it had, and every
    /// other piece has a name that no kept piece has. Answers how many pieces changed or are new: four or five.
    ///
    /// Takes no memory: it uses up the room for a finger (see `reserve`). Linear in the points and sides: each list is
    /// shifted once, in order. The list of the pieces that aren't base grows by the new ones, and is made anew only where the
    /// piece entered was base and isn't any more. Sizes and edges aren't counted before `measure`.
    pub fn after_finger(&mut self, drawing: &Drawing, finger: &Finger) -> u32
        requires before { (d : Shown) × IsEmbedded d × IsLegal d finger.now × IsTableOf d self.old × (drawing.now.drawing ≡ pushed d finger.now) }
        requires room { 1 ≤ self.old.room }
        ensures table { IsTableOf drawing.now.drawing self.new }
        ensures kept { (d : Shown) → IsEmbedded d → IsLegal d finger.now → IsTableOf d self.old → drawing.now.drawing ≡ pushed d finger.now → KeepsNames d finger.now self.old self.new }
        ensures changed { (d : Shown) → IsEmbedded d → IsLegal d finger.now → IsTableOf d self.old → drawing.now.drawing ≡ pushed d finger.now → (ps : List ℕ) × AreChanged d finger.now self.new ps × (length ps ≡ result) }
        ensures at_most { result ≤ 5 }
        ensures room { suc self.new.room ≡ self.old.room }
    {
        let _ = drawing.points();
        let _ = drawing.polygon().sides();
        let push = self.push_of(finger);
        let behind = self.name(push.near);
        let past = self.name(push.entry.beyond);
        let entered = self.entered(push.entry.entered);
        write_names(&mut self.names, push, self.told.len() as u32);
        write_frame(&mut self.frame, drawing, finger, push);
        self.told.grow();
        self.told.mark(drawing, &self.frame.starts, &self.names);
        renew_inner(&self.told, entered, &mut self.inner);
        grow_listing(&mut self.listing);
        self.counted = false;
        self.room -= 1;
        if past == behind { 4 } else { 5 }
    }

    // Counts the pieces, where they aren't counted: their sizes and first spans, and the list of spans by names. Linear in
    // the spans.
    fn count(&mut self)
        ensures { self.new ≡ self.old }
    {
        if !self.counted {
            self.told.count(&self.names);
            list_anew(&self.names, &self.told, &mut self.listing);
            self.counted = true;
        }
    }

    /// Makes the distances fresh. All else stays, names among it. Takes no memory. Linear in the points and sides.
    pub fn measure(&mut self)
        ensures fresh { IsFresh self.new }
        ensures distances { (d : Shown) → IsEmbedded d → IsTableOf d self.old → HasDistances d self.new }
        ensures table { (d : Shown) → IsTableOf d self.old → IsTableOf d self.new }
        ensures kept { self.new ≡ record self.old { regions = self.new.regions } }
        ensures others { DifferInDistance self.old.regions self.new.regions }
    {
        self.count();
        self.told.measure(&self.names, &self.frame.mates);
    }

    // The number of a segment in the place order.
    fn spot(&self, side: SideNo, segment: u32) -> u32
        requires side { side < sides self.now.polygon }
        requires segment { segment ≤ told_points self.now side }
        ensures value { result ≡ told_spot self.now side segment }
        ensures inside { result < length self.now.names }
    {
        self.frame.starts[side.number() as usize] + segment
    }

    // The number of points on a side.
    fn points_on(&self, side: SideNo) -> u32
        requires { side < sides self.now.polygon }
        ensures { result ≡ told_points self.now side }
    {
        let side = side.number() as usize;
        self.frame.starts[side + 1] - (self.frame.starts[side] + 2)
    }

    // The name of the piece of a span.
    fn name(&self, span: u32) -> PieceNo
        requires { span < length self.now.names }
        ensures value { result ≡ name_at self.now span }
        ensures piece { result < length self.now.regions }
    {
        PieceNo::new(self.names[span as usize])
    }

    // How many pieces there are.
    fn pieces(&self) -> usize
        ensures count { result ≡ length self.now.regions }
        ensures kept { (ends : List ChordNo) × IsKept self.now ends }
    {
        self.told.len()
    }

    // Whether a piece is base.
    fn is_marked(&self, piece: usize) -> bool
        requires { piece < length self.now.regions }
        ensures { result ≡ (region_in self.now.regions piece).base }
    {
        let region = self.told.region(piece);
        region.base
    }

    // The distance of a piece, fresh or stale.
    fn label(&self, piece: usize) -> u32
        requires { piece < length self.now.regions }
        ensures { result ≡ (region_in self.now.regions piece).distance }
    {
        let region = self.told.region(piece);
        region.distance
    }

    // How many segments a piece has. Constant time where the pieces are counted, else linear in the spans.
    fn size(&self, piece: usize) -> u32
        requires { piece < length self.now.regions }
        ensures value { result ≡ (region_in self.now.regions piece).size }
        ensures small { (region_in self.now.regions piece).base ≡ false → result < 2 ^ 30 }
    {
        if self.counted {
            let region = self.told.region(piece);
            region.size
        } else {
            count_of(&self.names, piece as u32)
        }
    }

    /// The piece of a segment of a side. Constant time, as are the calls below but `is_nice` and `weight`; all take
    /// no memory. Sizes and edges are counted by `of` and by `measure`: after a finger and before `measure`, `corners`,
    /// `badness` and `edge` are linear in the points and sides, and `is_nice` and `weight` are so for each piece.
    pub fn piece_at(&self, side: SideNo, segment: u32) -> PieceNo
        requires side { side < sides self.now.polygon }
        requires segment { segment ≤ told_points self.now side }
        ensures value { (d : Shown) → IsTableOf d self.now → result ≡ name_at self.now (spot d (exit side segment)) }
        ensures piece { result < length self.now.regions }
    {
        self.name(self.spot(side, segment))
    }

    /// Whether a piece is base: whether it has a gap.
    pub fn is_base(&self, piece: PieceNo) -> bool
        requires { piece < length self.now.regions }
        ensures told { result ≡ (region self.now piece).base }
        ensures value { (d : Shown) (s : ℕ) → IsTableOf d self.now → s < span_count d → name_at self.now s ≡ piece → result ≡ is_base d s }
    {
        self.is_marked(piece.number() as usize)
    }

    /// The name of the piece of each span, by the spans' numbers in the place order.
    pub fn span_names(&self) -> &[u32]
        ensures { result.now ≡ self.now.names }
    {
        &self.names
    }

    /// The other end of the chord that ends at each number of the place order, and the number itself where none ends.
    pub fn other_ends(&self) -> &[u32]
        ensures { result.now ≡ self.now.mates }
    {
        &self.frame.mates
    }

    /// Where each side begins in the place order, and where the last one ends.
    pub fn side_starts(&self) -> &[u32]
        ensures { result.now ≡ self.now.starts }
    {
        &self.frame.starts
    }

    /// The number of corners of a piece that isn't base: twice as many as it has segments.
    pub fn corners(&self, piece: PieceNo) -> u32
        requires piece { piece < length self.now.regions }
        requires inner { (region self.now piece).base ≡ false }
        ensures told { result ≡ corners_of (region self.now piece) }
        ensures value { (d : Shown) (s : ℕ) → IsTableOf d self.now → s < span_count d → name_at self.now s ≡ piece → result ≡ corners d s }
    {
        2 * self.size(piece.number() as usize)
    }

    /// How many segments above two a piece has that isn't base.
    pub fn badness(&self, piece: PieceNo) -> u32
        requires piece { piece < length self.now.regions }
        requires inner { (region self.now piece).base ≡ false }
        ensures told { result ≡ badness_of (region self.now piece) }
        ensures value { (d : Shown) (s : ℕ) → IsTableOf d self.now → s < span_count d → name_at self.now s ≡ piece → result ≡ badness d s }
    {
        self.size(piece.number() as usize).saturating_sub(2)
    }

    /// The distance of a piece: the least number of chords that separate it from a base piece. The distances must be
    /// fresh.
    pub fn distance(&self, piece: PieceNo) -> u32
        requires piece { piece < length self.now.regions }
        requires fresh { IsFresh self.now }
        ensures told { result ≡ (region self.now piece).distance }
        ensures value { (d : Shown) (s : ℕ) → HasDistances d self.now → s < span_count d → name_at self.now s ≡ piece → result ≡ distance d s }
    {
        self.label(piece.number() as usize)
    }

    /// The pieces that aren't base, each once.
    pub fn inner(&self) -> &[PieceNo]
        ensures { result.now ≡ self.now.inner }
    {
        &self.inner
    }

    /// The pieces just before and just after the first end of a chord, which is the end that comes first along the
    /// strand.
    pub fn beside(&self, strand: StrandNo, chord: u32) -> [PieceNo; 2]
        requires strand { strand < arc_count self.now.polygon }
        requires chord { chord < told_chords self.now strand }
        ensures { (d : Shown) → IsTableOf d self.now → result ≡ names_beside d self.now strand chord }
    {
        let from = self.frame.begins.row(strand.number() as usize)[chord as usize];
        [self.name(from), self.name(from + 1)]
    }

    /// The 'to' quadrants of a point: the pieces just before it on the first and on the second side of its arc. At a
    /// contact point these are the pieces of the last segments of both sides.
    pub fn to_quadrants(&self, point: Point) -> [PieceNo; 2]
        requires arc { point.arc < arc_count self.now.polygon }
        requires number { point.number ≤ told_crossings self.now point.arc }
        ensures { (d : Shown) → IsTableOf d self.now → result ≡ to_names d self.now point.arc point.number }
    {
        let first = self.polygon.first_side(point.arc);
        let second = self.polygon.pair(first);
        let points = self.points_on(first);
        let beyond = if point.number < points {
            points - 1 - point.number
        } else {
            points
        };
        [
            self.name(self.spot(first, point.number)),
            self.name(self.spot(second, beyond)),
        ]
    }

    /// The 'from' quadrants of a point: the pieces just after it on the first and on the second side of its arc. A
    /// contact point has none.
    pub fn from_quadrants(&self, point: Point) -> [Option<PieceNo>; 2]
        requires arc { point.arc < arc_count self.now.polygon }
        requires number { point.number ≤ told_crossings self.now point.arc }
        ensures { (d : Shown) → IsTableOf d self.now → result ≡ from_options d self.now point.arc point.number }
    {
        let first = self.polygon.first_side(point.arc);
        let second = self.polygon.pair(first);
        let points = self.points_on(first);
        if point.number == points {
            return [None, None];
        }
        [
            Some(self.name(self.spot(first, point.number + 1))),
            Some(self.name(self.spot(second, points - point.number))),
        ]
    }

    /// Whether the drawing is nice: whether no piece that isn't base has more than two segments. Linear in the pieces.
    pub fn is_nice(&self) -> bool
        ensures told { result ≡ tells_nice self.now }
        ensures value { (d : Shown) → IsTableOf d self.now → result ≡ is_nice d }
    {
        for name in 0..self.pieces() {
            if !self.is_marked(name) && self.size(name) > 2 {
                return false;
            }
        }
        true
    }

    /// The weight: the sum of badness times distance over the pieces that aren't base. The distances must be fresh.
    /// Linear in the pieces.
    pub fn weight(&self) -> u64
        requires { IsFresh self.now }
        ensures told { result ≡ told_weight self.now }
        ensures value { (d : Shown) → IsTableOf d self.now → HasDistances d self.now → result ≡ weight d }
    {
        let mut weight: u64 = 0;
        for name in 0..self.pieces() {
            if !self.is_marked(name) {
                weight += self.size(name).saturating_sub(2) as u64 * self.label(name) as u64;
            }
        }
        weight
    }

    // The side of a span. There are at most 16 sides.
    fn side_at(&self, span: u32) -> SideNo
        requires { span < length self.now.names }
        ensures side { result < sides self.now.polygon }
        ensures from { slice_index self.now.starts result ≤ span }
        ensures to { span < slice_index self.now.starts (suc result) }
    {
        let mut side: u32 = 0;
        while self.frame.starts[side as usize + 1] <= span {
            side += 1;
        }
        SideNo::new(side)
    }

    // A segment of a piece that isn't base, by its number counterclockwise from the first.
    fn segment_in(&self, piece: PieceNo, index: u32) -> u32
        requires piece { piece < length self.now.regions }
        requires inner { (region self.now piece).base ≡ false }
        requires index { index < (region self.now piece).size }
        ensures inside { result < length self.now.names }
        ensures value { (d : Shown) (s : ℕ) → IsEmbedded d → IsTableOf d self.now → s < span_count d → name_at self.now s ≡ piece → result ≡ slice_index (segments_in d s) index }
    {
        if self.counted {
            self.listing.spans[(self.listing.starts[piece.number() as usize] + index) as usize]
        } else {
            span_of(&self.names, piece.number(), index)
        }
    }

    /// An edge of a piece that isn't base: edge `at` counterclockwise from the piece's first segment, which is edge 0.
    /// Even edges are segments, and each odd one is the chord behind the segment before it.
    pub fn edge(&self, piece: PieceNo, at: u32) -> Edge
        requires piece { piece < length self.now.regions }
        requires inner { (region self.now piece).base ≡ false }
        requires at { at < corners_of (region self.now piece) }
        ensures { (d : Shown) (s : ℕ) → IsEmbedded d → IsTableOf d self.now → s < span_count d → name_at self.now s ≡ piece → IsEdge d s at result }
    {
        let segment = self.segment_in(piece, at / 2);
        if at % 2 == 0 {
            let side = self.side_at(segment);
            Edge::Segment {
                side,
                segment: segment - self.frame.starts[side.number() as usize],
            }
        } else {
            let end = self.frame.ends[segment as usize];
            Edge::Chord {
                strand: end.strand,
                chord: end.chord,
            }
        }
    }
}
