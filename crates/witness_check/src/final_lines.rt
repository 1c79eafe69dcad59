// The lines of the strands in the last drawing, and their rules.
ghost use Rattle.std.specs.Prelude.{◌≡◌, ◌<◌, ◌≤◌, ◌↔◌, length, slice_get, IfErr, IfOk, IsTrue, None, OnOk, Some};
ghost use Rattle.page_surface.specs.Drawing.{strand_exits};
ghost use Rattle.page_surface.specs.Polygon.{arc_count};
ghost use Rattle.witness_check.specs.Checked.{first_fault};
ghost use Rattle.witness_check.specs.DrawingRules.{BeginsFinals, Finds, HasFinals, Stops, exits_rules};
ghost use Rattle.witness_check.specs.LastDrawing.{IsLast};
ghost use Rattle.witness_check.specs.Rules.{each, final_rules};

use crate::checked::Reason;
use crate::fault::{Fault, Stop};
use drawing::Drawing;
use hkm_diagram::Diagram;
use obd_base::{Exit, Items, StrandNo};
use region_table::Regions;
use std::alloc::Global;

/// The diagram of the last drawing with its table of regions.
pub(crate) struct LastDrawing {
    pub(crate) diagram: Diagram,
    pub(crate) regions: Regions,
}

// By hand, so that a caller's proof holds one call and not the drop of each field.
impl Drop for LastDrawing {
    fn drop(self) {
        let LastDrawing {
            diagram: _diagram,
            regions: _regions,
        } = self;
    }
}

// Whether a chord of a strand ends at an exit.
fn ends_at(drawing: &Drawing, strand: StrandNo, chord: u32, exit: Exit) -> bool
    requires strand { strand < arc_count drawing.now.drawing.polygon }
    requires chord { chord ≤ length (strand_exits drawing.now.drawing strand) }
    ensures { IsTrue result ↔ (slice_get (strand_exits drawing.now.drawing strand) chord ≡ Some exit) }
{
    match drawing.exit(strand, chord) {
        Some(there) => there == exit,
        None => false,
    }
}

// Whether some exits are those of a strand. The exits are compared in place.
fn has_exits(drawing: &Drawing, strand: StrandNo, exits: &[Exit]) -> bool
    requires { strand < arc_count drawing.now.drawing.polygon }
    ensures { IsTrue result ↔ (exits.now ≡ strand_exits drawing.now.drawing strand) }
{
    // That a drawing has points says that they are few.
    let _ = drawing.points();
    if exits.len() + 1 != drawing.chords(strand) as usize {
        return false;
    }
    for chord in 0..exits.len() {
        if !ends_at(drawing, strand, chord as u32, exits[chord]) {
            return false;
        }
    }
    true
}

/// Among the final lines read so far, the first whose exits aren't those of its strand. Linear in the exits; takes no memory.
pub(crate) fn first_wrong_final(drawing: &Drawing, finals: &[Items<Exit>]) -> Option<Fault>
    requires few { length finals.now ≤ arc_count drawing.now.drawing.polygon }
    ensures first { result ≡ first_fault (each (exits_rules drawing.now.drawing) finals.now) }
    ensures begun { Finds (BeginsFinals drawing.now.drawing finals.now) (λ c. each (final_rules c) finals.now) result }
{
    let _ = drawing.polygon().sides();
    for at in 0..finals.len() {
        if !has_exits(drawing, StrandNo::new(at as u32), finals[at].as_slice()) {
            return Some(Fault {
                at: at as u32,
                reason: Reason::Final,
            });
        }
    }
    None
}

/// The diagram of the last drawing with its regions, by all final lines, one for each strand: these are tried in order, each by
/// its exits, and the last one then by whether the drawing is nice. Linear in the exits and sides.
pub(crate) fn last_drawing(
    alloc: Global,
    drawing: Drawing,
    finals: &[Items<Exit>],
) -> Result<LastDrawing, Stop>
    requires each { length finals.now ≡ arc_count drawing.drawing.polygon }
    ensures diagram { IfOk result (λ last. last.diagram ≡ drawing.drawing) }
    ensures nice { IfOk result IsLast }
    ensures kept { OnOk result (Finds (HasFinals drawing.drawing finals.now) (λ c. each (final_rules c) finals.now) None) }
    ensures fault { IfErr result (Stops (HasFinals drawing.drawing finals.now) (λ c. each (final_rules c) finals.now)) }
{
    let _ = drawing.polygon().sides();
    if let Some(fault) = first_wrong_final(&drawing, finals) {
        return Err(Stop::Fault(fault));
    }
    let regions = Regions::of(alloc, &drawing)?;
    if !regions.is_nice() {
        return Err(Stop::Fault(Fault {
            at: finals.len() as u32 - 1,
            reason: Reason::Nice,
        }));
    }
    Ok(LastDrawing {
        diagram: Diagram::of(drawing),
        regions,
    })
}
