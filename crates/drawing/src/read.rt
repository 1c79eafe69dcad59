// A drawing read from its exits.
ghost use Rattle.std.specs.Prelude.{◌≡◌, ◌<◌, ◌^◌, true, length, map, nat_lt, IfOk, IfErr, OnOk};
ghost use Rattle.std.specs.List.{list_all};
ghost use Rattle.page_surface.specs.Drawing.{IsEmbedded, all_exits};
ghost use Rattle.page_surface.specs.Polygon.{arc_count, sides};
ghost use Rattle.drawing.specs.Cut.{IsCut};
ghost use Rattle.drawing.specs.Layout.{drawn};
ghost use Rattle.drawing.specs.Reading.{Says};
ghost use Rattle.drawing.specs.Room.{rows};

use crate::chords::is_uncrossed;
use crate::layout::Layout;
use crate::places::first_wrong;
use crate::{DrawRefusal, Drawing};
use obd_base::{Exit, Items, NoMemory};
use page_surface::Polygon;
use std::alloc::Global;

// Lists of exits of their own.
fn copied(alloc: Global, strands: &[Vec<Exit>]) -> Result<Vec<Vec<Exit>>, NoMemory>
    ensures { IfOk result (λ copy. rows copy.items ≡ map (λ s. s.items) strands.now) }
{
    let mut copy = Vec::new(alloc);
    for strand in strands {
        copy.push(Vec::from_slice(alloc, strand)?)?;
    }
    Ok(copy)
}

// The same of lists that hide how they are kept.
fn unpacked(alloc: Global, strands: &[Items<Exit>]) -> Result<Vec<Vec<Exit>>, NoMemory>
    ensures { IfOk result (λ copy. rows copy.items ≡ strands.now) }
{
    let mut copy = Vec::new(alloc);
    for strand in strands {
        copy.push(Vec::from_slice(alloc, strand.as_slice())?)?;
    }
    Ok(copy)
}

impl Drawing {
    /// The drawing with these exits, strand by strand. On each side the exits and the entries together are numbered
    /// from 0 from the side's start, each once; the entry of an exit at place `j` of a side with `m` points is place
    /// `m - 1 - j` of the partner. The rules are tried in the order of `DrawRefusal`, and the first that fails is
    /// named; that two chords cross is found by one sweep over the place order with a stack. Every embedded drawing
    /// is taken, since each is cut.
    ///
    /// Linear in the exits and sides.
    pub fn read(
        alloc: Global,
        polygon: &Polygon,
        strands: &[Vec<Exit>],
    ) -> Result<Drawing, DrawRefusal>
        requires strands { length strands.now ≡ arc_count polygon.now }
        requires on_sides { list_all (λ e. nat_lt e.side (sides polygon.now)) (all_exits (drawn polygon.now (map (λ s. s.items) strands.now))) ≡ true }
        requires few { length (all_exits (drawn polygon.now (map (λ s. s.items) strands.now))) < 2 ^ 28 }
        ensures drawing { IfOk result (λ made. made.drawing ≡ drawn polygon.now (map (λ s. s.items) strands.now)) }
        ensures accepted { OnOk result (IsEmbedded (drawn polygon.now (map (λ s. s.items) strands.now))) }
        ensures cut { OnOk result (IsCut (drawn polygon.now (map (λ s. s.items) strands.now))) }
        ensures refused { IfErr result (Says (drawn polygon.now (map (λ s. s.items) strands.now))) }
    {
        let layout = Layout::of(alloc, polygon.copy()?, copied(alloc, strands)?)?;
        if let Some(side) = first_wrong(alloc, &layout)? {
            return Err(DrawRefusal::PlaceWrong {
                side: side.number(),
            });
        }
        let _ = layout.polygon();
        if !is_uncrossed(alloc, &layout)? {
            return Err(DrawRefusal::Crosses);
        }
        Ok(Drawing::of(alloc, layout)?)
    }

    /// The drawing with these exits, strand by strand, which are known to be those of an embedded drawing. It is
    /// `read` without its tests. Linear in the exits and sides.
    pub fn embedded(
        alloc: Global,
        polygon: &Polygon,
        strands: Vec<Items<Exit>>,
    ) -> Result<Drawing, NoMemory>
        requires embedded { IsEmbedded (drawn polygon.now strands.items) }
        requires few { length (all_exits (drawn polygon.now strands.items)) < 2 ^ 28 }
        ensures { IfOk result (λ made. made.drawing ≡ drawn polygon.now strands.items) }
    {
        let strands = unpacked(alloc, &strands)?;
        Drawing::of(alloc, Layout::of(alloc, polygon.copy()?, strands)?)
    }
}
