// The lines of the fingers, carried out on the first drawing.
ghost use Rattle.std.specs.Prelude.{◌≡◌, ◌≤◌, length, None, IfErr, IfOk, OnOk};
ghost use Rattle.drawing.specs.Fingers.{replayed};
ghost use Rattle.page_surface.specs.Drawing.{all_exits};
ghost use Rattle.witness_check.specs.DrawingRules.{BeginsFingers, Finds, Stops};
ghost use Rattle.witness_check.specs.Rules.{each, finger_rules};

use crate::checked::Reason;
use crate::fault::{Fault, Stop};
use drawing::{Drawing, Finger};
use finger_move::{apply, is_legal};

/// Carries out the fingers that were read so far, one after another. The first that isn't legal after those before it stops
/// it, and the drawing is left after those. All room is taken first. Linear in all exits and the sides, for each finger.
pub(crate) fn carry_out(drawing: &mut Drawing, fingers: &[Finger]) -> Result<(), Stop>
    requires few { length (all_exits drawing.old.drawing) ≤ 4000 }
    requires fingers { length fingers.now ≤ 20000 }
    ensures drawing { OnOk result (drawing.new.drawing ≡ replayed drawing.old.drawing fingers.now) }
    ensures kept { OnOk result (Finds (BeginsFingers drawing.old.drawing fingers.now) (λ c. each (finger_rules c) fingers.now) None) }
    ensures fault { IfErr result (Stops (BeginsFingers drawing.old.drawing fingers.now) (λ c. each (finger_rules c) fingers.now)) }
{
    drawing.reserve(fingers.len() as u32)?;
    for at in 0..fingers.len() {
        let finger = &fingers[at];
        if !is_legal(drawing, finger) {
            return Err(Stop::Fault(Fault {
                at: at as u32,
                reason: Reason::Finger,
            }));
        }
        apply(drawing, finger);
    }
    Ok(())
}

/// The drawing that the fingers read so far lead to. As `carry_out`, whose drawing is taken over.
#[tactic(auto, using(crate::proofs::FingerLines::replayed_polygon))]
pub(crate) fn moved(mut drawing: Drawing, fingers: &[Finger]) -> Result<Drawing, Stop>
    requires few { length (all_exits drawing.drawing) ≤ 4000 }
    requires fingers { length fingers.now ≤ 20000 }
    ensures drawing { IfOk result (λ made. made.drawing ≡ replayed drawing.drawing fingers.now) }
    ensures polygon { IfOk result (λ made. made.drawing.polygon ≡ drawing.drawing.polygon) }
    ensures kept { OnOk result (Finds (BeginsFingers drawing.drawing fingers.now) (λ c. each (finger_rules c) fingers.now) None) }
    ensures fault { IfErr result (Stops (BeginsFingers drawing.drawing fingers.now) (λ c. each (finger_rules c) fingers.now)) }
{
    carry_out(&mut drawing, fingers)?;
    Ok(drawing)
}
