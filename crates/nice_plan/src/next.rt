// The next burst of the strategy.
ghost use Rattle.std.specs.Prelude.{◌≡◌, ◌+◌, ◌*◌, ◌<◌, ◌^◌, false, length, map, option_map, IfOk, IfSome};
ghost use Rattle.page_surface.specs.Drawing.{all_exits};
ghost use Rattle.drawing.specs.Fingers.{replayed};
ghost use Rattle.drawing.specs.Fingers.{AllLegal};
ghost use Rattle.finger_move.specs.Glued.{segment_of};
ghost use Rattle.region_table.specs.Nice.{is_nice, weight};
ghost use Rattle.region_table.specs.Table.{HasDistances, IsTableOf};
ghost use Rattle.nice_plan.specs.Burst.{burst, doors, path};
ghost use Rattle.nice_plan.specs.Strategy.{next_burst};

use crate::fingers::burst_fingers;
use crate::measured::Measured;
use crate::plan::Plan;
use drawing::{Drawing, Finger};
use obd_base::NoMemory;
use region_table::Regions;
use std::alloc::Global;

// The fingers of the burst with this plan. Linear in them and the points, but for a logarithm.
pub(crate) fn fingers_of(
    alloc: Global,
    drawing: &Drawing,
    plan: &Plan,
) -> Result<Vec<Finger>, NoMemory>
    requires bad { is_nice drawing.now.drawing ≡ false }
    requires chords { plan.now.chords.items ≡ doors drawing.now.drawing }
    requires segments { plan.now.segments.items ≡ map (segment_of drawing.now.drawing) (path drawing.now.drawing) }
    requires few { length (all_exits drawing.now.drawing) + 2 * length (burst drawing.now.drawing) < 2 ^ 28 }
    ensures { IfOk result (λ fingers. fingers.items ≡ burst drawing.now.drawing) }
{
    let _ = drawing.points();
    burst_fingers(alloc, drawing, &plan.chords, &plan.segments)
}

/// The next burst of the strategy: its fingers, in order. `None` comes exactly where the drawing is nice.
///
/// Among the bad pieces of the greatest distance the one is chosen whose first segment comes first. Its door is the
/// first chord, counterclockwise from its first segment, behind which lies a piece that is one nearer to the base. The
/// path leaves it by the second segment after the door, and goes on until it comes to a base piece, to a piece of one
/// segment or to a nearer one; it leaves a piece by the next segment counterclockwise, or by the next one clockwise
/// where the piece has more than two segments and its door lies between the two. The burst pushes the door of the chosen
/// piece along the path, then the door of the piece behind it, and so on to the base, each inside the one before. It has
/// as many fingers as the distance times the path's segments; each is legal in the drawing that the ones before it
/// leave, and together they lower the weight.
///
/// The table must be the drawing's, with fresh distances, and the drawing after the burst must have fewer than 2^28
/// points. Linear in the drawing and in the burst but for a logarithm, which comes from counting what stands before each
/// segment and chord; no finger is pushed. The strategy is this project's own, after Sarkar and Wang (2010).
pub fn burst(
    alloc: Global,
    drawing: &Drawing,
    regions: &Regions,
) -> Result<Option<Vec<Finger>>, NoMemory>
    requires table { IsTableOf drawing.now.drawing regions.now }
    requires distances { HasDistances drawing.now.drawing regions.now }
    requires few { is_nice drawing.now.drawing ≡ false → length (all_exits drawing.now.drawing) + 2 * length (burst drawing.now.drawing) < 2 ^ 28 }

    ensures burst { IfOk result (λ fingers. option_map (λ f. f.items) fingers ≡ next_burst drawing.now.drawing) }
    ensures legal { IfOk result (λ fingers. IfSome fingers (λ f. AllLegal drawing.now.drawing f.items)) }
    ensures lowers { IfOk result (λ fingers. IfSome fingers (λ f. weight (replayed drawing.now.drawing f.items) < weight drawing.now.drawing)) }
{
    let _ = drawing.points();
    let _ = drawing.polygon().sides();
    let measured = Measured { drawing, regions };
    let Some(plan) = Plan::of(alloc, &measured)? else {
        return Ok(None);
    };
    let fingers = fingers_of(alloc, drawing, &plan)?;
    Ok(Some(fingers))
}
