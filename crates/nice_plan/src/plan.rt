// What the next burst pushes, and where.
ghost use Rattle.std.specs.Prelude.{◌≡◌, ◌*◌, ◌<◌, ◌^◌, true, false, length, map, IfNone, IfOk, IfSome};
ghost use Rattle.finger_move.specs.Glued.{segment_of};
ghost use Rattle.region_table.specs.Nice.{is_nice};
ghost use Rattle.nice_plan.specs.Burst.{doors, path};

use crate::ChordName;
use crate::chosen::chosen;
use crate::doors::{doors, first_door};
use crate::measured::Measured;
use crate::path::path;
use obd_base::{Exit, NoMemory};
use std::alloc::Global;

// The chords that a burst pushes one after another, and the segments along which it pushes each.
#[derive(Drop)]
pub(crate) struct Plan {
    pub(crate) chords: Vec<ChordName>,
    pub(crate) segments: Vec<Exit>,
}

impl Plan {
    // The plan of the next burst. `None` comes exactly where the drawing is nice. Linear in the pieces.
    pub(crate) fn of(alloc: Global, measured: &Measured) -> Result<Option<Plan>, NoMemory>
        ensures nice { IfOk result (λ plan. IfNone plan (is_nice measured.now.drawing ≡ true)) }
        ensures bad { IfOk result (λ plan. IfSome plan (λ _. is_nice measured.now.drawing ≡ false)) }
        ensures chords { IfOk result (λ plan. IfSome plan (λ p. p.chords.items ≡ doors measured.now.drawing)) }
        ensures segments { IfOk result (λ plan. IfSome plan (λ p. p.segments.items ≡ map (segment_of measured.now.drawing) (path measured.now.drawing))) }
    {
        let Some(piece) = chosen(measured) else {
            return Ok(None);
        };
        let chords = doors(alloc, measured, piece)?;
        let far = measured.distance(piece);
        let door = first_door(measured, piece);
        let first = measured.next(piece, door.index);
        let second = measured.next(piece, first);
        let start = measured.segment(piece, second);
        let segments = path(alloc, measured, far, start)?;
        Ok(Some(Plan { chords, segments }))
    }

    // How many fingers the burst has.
    pub(crate) fn length(&self) -> u64
        requires chords { length self.now.chords.items < 2 ^ 30 }
        requires segments { length self.now.segments.items < 2 ^ 30 }
        ensures { result ≡ length self.now.chords.items * length self.now.segments.items }
    {
        self.chords.len() as u64 * self.segments.len() as u64
    }
}
