// The fingers of a log, carried out.
ghost use Rattle.std.specs.Prelude.{◌≡◌, ◌≢◌, ◌+◌, ◌*◌, ◌<◌, ◌^◌, ◌↔◌, ℕ, length, Err, IfErr, OnOk};
ghost use Rattle.page_surface.specs.Drawing.{all_exits};
ghost use Rattle.drawing.specs.Fingers.{AllLegal, IsFirstIllegal, replayed};
ghost use Rattle.move_log.specs.Replay.{Leaves};
ghost use Rattle.move_log.specs.declared.replay.ReplayRefusal.TheVariants as refused;

use crate::Log;
use drawing::Drawing;
use finger_move::{apply, is_legal};
use obd_base::NoMemory;

/// Why the fingers of a log aren't all carried out.
#[derive(Clone, Copy, Debug, PartialEq, Eq)]
pub enum ReplayRefusal {
    /// Memory is wanting.
    NoMemory,
    /// A finger, by its number in the log from 0, isn't legal in the drawing after those before it.
    IllegalMove { number: u32 },
}

impl From<NoMemory> for ReplayRefusal {
    ghost use Rattle.move_log.specs.declared.replay.ReplayRefusal.TheVariants as refused;

    ghost from_gives = { λ _ refusal. refusal ≡ refused.NoMemory };

    fn from(_: NoMemory) -> Self {
        ReplayRefusal::NoMemory
    }
}

impl Log {
    /// Carries out the fingers, one after another. All room is taken first, so where memory is wanting the drawing stays.
    /// The first finger that isn't legal after those before it is refused, and the drawing is left after those. The slides
    /// are not looked at. Linear in all exits and the sides, for each finger.
    pub fn replay(&self, drawing: &mut Drawing) -> Result<(), ReplayRefusal>
        requires few { length (all_exits drawing.old.drawing) + 2 * length self.now.fingers < 2 ^ 28 }

        ensures legal { OnOk result (AllLegal drawing.old.drawing self.now.fingers) }
        ensures drawing { OnOk result (drawing.new.drawing ≡ replayed drawing.old.drawing self.now.fingers) }

        ensures refused { IfErr result (Leaves drawing.old.drawing self.now.fingers drawing.new.drawing) }
        ensures exact { (number : ℕ) → result ≢ Err refused.NoMemory → (result ≡ Err (refused.IllegalMove number)) ↔ IsFirstIllegal drawing.old.drawing self.now.fingers number }
    {
        let count = self.fingers.len() as u32;
        drawing.reserve(count)?;
        for number in 0..count {
            let finger = self.fingers.item(number as usize);
            if !is_legal(drawing, finger) {
                return Err(ReplayRefusal::IllegalMove { number });
            }
            apply(drawing, finger);
        }
        Ok(())
    }
}
