// A drawing and what it tells of itself.
ghost use Rattle.std.specs.Prelude.{◌≡◌, ◌+◌, ◌*◌, ◌<◌, ◌≤◌, ◌^◌, suc, map, max, length, slice_get, IfOk, OnErr, OnOk};
ghost use Rattle.std.specs.List.{flat_map};
ghost use Rattle.page_surface.specs.Drawing.{IsEmbedded, all_exits, exit, points_on, spot, strand_exits, words};
ghost use Rattle.page_surface.specs.Polygon.{arc_count, sides};
ghost use Rattle.drawing.specs.Cut.{IsCut};
ghost use Rattle.drawing.specs.Fingers.{IsLegal, borders, chord_at, finger, pushed};
ghost use Rattle.drawing.specs.Room.{rows};
ghost use Rattle.drawing.specs.Strands.{strand_at};
ghost use Rattle.drawing.specs.Tight.{IsTight, tight_drawing};
ghost use Rattle.drawing.specs.Turns.{Loosened};
ghost use Rattle.page_surface.specs.Words.{reduced};

use crate::Finger;
use crate::finger::segment_of;
use crate::layout::Layout;
use crate::nested::take_nested;
use crate::pieces::borders;
use crate::push::{beyond, order};
use crate::strands::{put_strand, set_strands, strand_table};
use crate::turn_links::Links;
use crate::turns::take_turns;
use obd_base::{Exit, NoMemory, SideNo, StrandNo};
use page_surface::Polygon;
use std::alloc::Global;
use std::marker::Model;

/// Strands in a polygon, one for each arc, of which no two chords cross. Strand `i` runs from the end of the
/// second side of arc `i` to the end of its first side, and is cut at its exits; a strand with `m` exits has
/// `m + 1` chords, numbered from 0 along it. Places on a side are counted from 0 from the side's start, the
/// exits and the entries together. Contracts see a drawing as its polygon and the list of exits of each strand.
/// Beside them they see its room: how many fingers can be pushed into it without memory. Its type keeps that the
/// drawing is embedded, and so cut, and has fewer than 2^28 points, those of the fingers that there is room for among them.
pub struct Drawing {
    alloc: Global,
    layout: Layout,
    points: u32,
    strands_at: Vec<StrandNo>,
    gone: Vec<bool>,
    places: Vec<u32>,
    links: Links,
}

// By hand, so that a caller's proof holds one call and not the drop of each field.
impl Drop for Drawing {
    fn drop(self) {
        let Drawing {
            alloc: _alloc,
            layout: _layout,
            points: _points,
            strands_at: _strands_at,
            gone: _gone,
            places: _places,
            links: _links,
        } = self;
    }
}

impl Model for Drawing {
    ghost use Rattle.drawing.specs.Kept.{IsKept};
    ghost use Rattle.drawing.specs.Room.{Roomy};
    ghost use Rattle.std.specs.Prelude.{◌-◌, vec_capacity, vec_len};

    ghost Value = { Roomy };

    ghost view = { λ d. d.layout };

    ghost invariant = { λ d. IsKept d.layout.drawing d.layout.room d.points d.strands_at.items (vec_capacity d.strands_at - vec_len d.strands_at) d.gone.items d.places.items };
}

// How many exits some strands have together. There are at most 8 strands.
fn exit_count(strands: &[Vec<Exit>]) -> u32
    requires { length (flat_map (λ strand. strand) (rows strands.now)) < 2 ^ 28 }
    ensures { result ≡ length (flat_map (λ strand. strand) (rows strands.now)) }
{
    let mut count: u32 = 0;
    for strand in strands {
        count += strand.len() as u32;
    }
    count
}

// Makes a table at least so long.
fn lengthen<T: Copy>(table: &mut Vec<T>, size: usize, item: T) -> Result<(), NoMemory>
    ensures longer { length table.old.items ≤ length table.new.items }
    ensures long { OnOk result (size ≤ length table.new.items) }
{
    if table.len() < size {
        table.resize(size, item)?;
    }
    Ok(())
}

impl Drawing {
    // The drawing that is laid out, with no room. Linear in the exits and sides.
    pub(crate) fn of(alloc: Global, layout: Layout) -> Result<Drawing, NoMemory>
        requires embedded { IsEmbedded layout.drawing }
        requires few { length (all_exits layout.drawing) < 2 ^ 28 }
        requires room { layout.room ≡ 0 }
        ensures { IfOk result (λ made. made.drawing ≡ layout.drawing) }
    {
        let strands_at = strand_table(alloc, &layout)?;
        let points = exit_count(layout.strands());
        let gone = vec![in alloc; false; layout.span_count() as usize]?;
        let places = vec![in alloc; 0; layout.span_count() as usize]?;
        let links = Links::of(alloc, &layout, 0)?;
        Ok(Drawing {
            alloc,
            layout,
            points,
            strands_at,
            gone,
            places,
            links,
        })
    }

    // Takes turns out of the strands, and those that this makes; answers how many. Links are made only where a first look
    // finds a turn, so a tight drawing costs one look. Linear in the exits and sides.
    fn take_turns(&mut self) -> u32
        ensures valid { IsEmbedded self.old.drawing }
        ensures loosened { Loosened self.old.drawing self.new.drawing }
        ensures fewer { length (all_exits self.new.drawing) + (result + result) ≡ length (all_exits self.old.drawing) }
        ensures tight { result ≡ 0 → IsTight self.new.drawing }
    {
        self.gone.fill(false);
        let mut turns = take_turns(&self.layout, &mut self.gone);
        if turns > 0 {
            turns = take_nested(
                &self.layout,
                &self.strands_at,
                &mut self.links,
                &mut self.gone,
                &mut self.places,
                turns,
            );
            self.layout.thin(&self.gone, &mut self.places);
            self.points -= 2 * turns;
            self.strands_at.truncate(self.layout.span_count() as usize);
            set_strands(&self.layout, &mut self.strands_at);
        }
        turns
    }

    /// Makes the drawing tight: takes out innermost turns, which are two neighbouring points of one side that are the
    /// two ends of one chord, until no word has a cancelling pair. What is left is the tight drawing of the reduced
    /// words, whatever the order. Takes no memory.
    ///
    /// Linear in the exits and sides, however deep turns are nested: one pass takes them out, by links over what is
    /// gone, and another one finds that none is left. That no third pass is needed is tested and not proved.
    pub fn tighten(&mut self)
        ensures words { words self.new.drawing ≡ map (reduced self.old.drawing.polygon) (words self.old.drawing) }
        ensures tight { IsTight self.new.drawing }
        ensures drawing { self.new.drawing ≡ tight_drawing self.old.drawing.polygon (map (reduced self.old.drawing.polygon) (words self.old.drawing)) }
    {
        let mut turns = self.take_turns();
        while turns > 0 {
            turns = self.take_turns();
        }
    }

    /// How many fingers can be pushed without memory. Constant time.
    pub fn room(&self) -> u32
        ensures { result ≡ self.now.room }
    {
        self.layout.room()
    }

    /// Takes memory for so many fingers, so that as many can be pushed; the drawing stays. Where there is no memory the room
    /// stays too. Linear in the exits, sides and fingers.
    pub fn reserve(&mut self, fingers: u32) -> Result<(), NoMemory>
        requires few { length (all_exits self.old.drawing) + 2 * fingers < 2 ^ 28 }
        ensures drawing { self.new.drawing ≡ self.old.drawing }
        ensures room { OnOk result (self.new.room ≡ max self.old.room fingers) }
        ensures kept { OnErr result (self.new.room ≡ self.old.room) }
    {
        if fingers <= self.layout.room() {
            return Ok(());
        }
        let spans = self.layout.span_count() as usize + 4 * fingers as usize;
        lengthen(&mut self.gone, spans, false)?;
        lengthen(&mut self.places, spans, 0)?;
        self.strands_at.reserve(4 * fingers as usize)?;
        self.links = Links::of(self.alloc, &self.layout, fingers)?;
        self.layout.reserve(fingers)?;
        Ok(())
    }

    /// Pushes a chord of a strand into a segment: two new points stand in the segment, where the strand leaves after the
    /// first exits, as many as the chord's number, and comes straight back; all other order stays and no chords cross. That
    /// is the effect of the finger move (Sarkar and Wang 2010). Which of the two points it leaves by is told by the side of
    /// the chord on which the segment lies.
    ///
    /// Takes no memory, but one of the room that `reserve` makes. Linear in all exits and the sides: one pass over the exits,
    /// and the numbers behind the segment and behind the one glued to it move on as blocks.
    pub fn push(&mut self, strand: StrandNo, chord: u32, side: SideNo, segment: u32)
        requires legal { IsLegal self.old.drawing (finger strand chord side segment) }
        requires room { 1 ≤ self.old.room }
        ensures effect { self.new.drawing ≡ pushed self.old.drawing (finger strand chord side segment) }
        ensures room { suc self.new.room ≡ self.old.room }
    {
        let finger = Finger {
            strand,
            chord,
            side,
            segment,
        };
        let out = order(&self.layout, &finger);
        let near = self.layout.spot(segment_of(&finger));
        let far = self.layout.spot(beyond(&self.layout, &finger));
        self.layout.push(&finger, out);
        self.points += 2;
        put_strand(strand, near, far, &mut self.strands_at);
    }

    /// The polygon in which the strands lie. Constant time, as are the calls below but `pieces_share`, `word` and
    /// `exits`; all but the last two take no memory.
    pub fn polygon(&self) -> &Polygon
        ensures { result.now ≡ self.now.drawing.polygon }
    {
        self.layout.polygon()
    }

    /// The number of crossing points: of all exits together.
    pub fn points(&self) -> u32
        ensures value { result ≡ length (all_exits self.now.drawing) }
        ensures few { result < 2 ^ 28 }
        ensures valid { IsEmbedded self.now.drawing }
        ensures cut { IsCut self.now.drawing }
    {
        self.points
    }

    /// The number of points on a side: of the exits and entries there.
    pub fn points_on(&self, side: SideNo) -> u32
        requires { side < sides self.now.drawing.polygon }
        ensures value { result ≡ points_on self.now.drawing side }
        ensures few { result < 2 ^ 30 }
    {
        self.layout.points_on(side)
    }

    /// The number of chords of a strand: one more than its exits.
    pub fn chords(&self, strand: StrandNo) -> u32
        requires { strand < arc_count self.now.drawing.polygon }
        ensures { result ≡ suc (length (strand_exits self.now.drawing strand)) }
    {
        self.layout.exits(strand).len() as u32 + 1
    }

    /// The exit at which a chord ends, and `None` exactly for the last chord of the strand.
    pub fn exit(&self, strand: StrandNo, chord: u32) -> Option<Exit>
        requires strand { strand < arc_count self.now.drawing.polygon }
        requires chord { chord ≤ length (strand_exits self.now.drawing strand) }
        ensures { result ≡ slice_get (strand_exits self.now.drawing strand) chord }
    {
        self.layout.exits(strand).get(chord as usize).copied()
    }

    /// The strand that has its exit or its entry at a place of a side.
    pub fn strand_at(&self, side: SideNo, place: u32) -> StrandNo
        requires side { side < sides self.now.drawing.polygon }
        requires place { place < points_on self.now.drawing side }
        ensures { result ≡ strand_at self.now.drawing side place }
    {
        self.strands_at.as_slice()[self.layout.spot(Exit { side, place }) as usize]
    }

    /// Whether a chord borders the piece of a segment: whether that is the piece on the one side of the chord or on
    /// the other. Segment `j` of a side lies just before its point `j`, and the last one between the last point and
    /// the end of the side; two segments lie in one piece where no chord separates them. One pass over the
    /// exits, which ends where another chord separates the segment from the start of this one.
    pub fn pieces_share(&self, strand: StrandNo, chord: u32, side: SideNo, segment: u32) -> bool
        requires strand { strand < arc_count self.now.drawing.polygon }
        requires chord { chord ≤ length (strand_exits self.now.drawing strand) }
        requires side { side < sides self.now.drawing.polygon }
        requires segment { segment ≤ points_on self.now.drawing side }
        ensures { result ≡ borders self.now.drawing (chord_at self.now.drawing strand chord) (spot self.now.drawing (exit side segment)) }
    {
        let finger = Finger {
            strand,
            chord,
            side,
            segment,
        };
        borders(&self.layout, &finger)
    }

    /// The word of a strand: the sides by which it leaves, in order. Linear in the exits of the strand.
    pub fn word(&self, strand: StrandNo) -> Result<Vec<SideNo>, NoMemory>
        requires { strand < arc_count self.now.drawing.polygon }
        ensures { IfOk result (λ word. word.items ≡ map (λ e. e.side) (strand_exits self.now.drawing strand)) }
    {
        let mut word = Vec::new(self.alloc);
        for exit in self.layout.exits(strand) {
            word.push(exit.side)?;
        }
        Ok(word)
    }

    /// The exits of a strand, in order. Linear in them.
    pub fn exits(&self, strand: StrandNo) -> Result<Vec<Exit>, NoMemory>
        requires { strand < arc_count self.now.drawing.polygon }
        ensures { IfOk result (λ exits. exits.items ≡ strand_exits self.now.drawing strand) }
    {
        Ok(Vec::from_slice(self.alloc, self.layout.exits(strand))?)
    }
}
