// The finger moves that make a drawing nice.
ghost use Rattle.std.specs.Prelude.{◌≡◌, ℕ, ◌<◌, ◌≤◌, length, IfErr, IfOk, OnOk};
ghost use Rattle.page_surface.specs.Drawing.{IsEmbedded, all_exits, strand_exits};
ghost use Rattle.page_surface.specs.Polygon.{arc_count};
ghost use Rattle.drawing.specs.Fingers.{replayed};
ghost use Rattle.region_table.specs.Nice.{weight};
ghost use Rattle.region_table.specs.Table.{HasDistances, IsTableOf};
ghost use Rattle.nice_plan.specs.Strategy.{strategy, within_limit};
ghost use Rattle.nice_plan.specs.declared.refusal.PlanRefusal.TheVariants as refused;
ghost use Rattle.obd_cli.specs.Steps.{IsMoved};

use drawing::{Drawing, Finger};
use hkm_diagram::Diagram;
use nice_plan::{PlanRefusal, make_nice};
use obd_base::{Exit, Items, NoMemory, StrandNo};
use region_table::Regions;
use std::alloc::Global;

/// The exits of each strand in the first drawing, the fingers, and the diagram of the last drawing, to which they lead.
#[derive(Drop)]
pub(crate) struct Moved {
    pub(crate) strands: Items<Items<Exit>>,
    pub(crate) fingers: Items<Finger>,
    pub(crate) last: Diagram,
}

// The exits of a strand, as a list of its own.
fn strand(drawing: &Drawing, strand: StrandNo) -> Result<Items<Exit>, NoMemory>
    requires { strand < arc_count drawing.now.drawing.polygon }
    ensures { IfOk result (λ exits. exits ≡ strand_exits drawing.now.drawing strand) }
{
    Ok(Items::from_vec(drawing.exits(strand)?))
}

/// The exits of each strand of a drawing. Linear in them.
pub(crate) fn strands_of(alloc: Global, drawing: &Drawing) -> Result<Items<Items<Exit>>, NoMemory>
    ensures strands { IfOk result (λ strands. strands ≡ drawing.now.drawing.strands) }
    ensures valid { OnOk result (IsEmbedded drawing.now.drawing) }
{
    let _ = drawing.points();
    let mut strands = Items::new(alloc);
    for number in 0..drawing.polygon().sides() / 2 {
        strands.push(strand(drawing, StrandNo::new(number))?)?;
    }
    Ok(strands)
}

/// Makes a drawing nice by the strategy's fingers, and keeps its table of regions. `MoveBudget` comes exactly where these
/// are more than the limit, with the weight that is left after the bursts that fit whole. The cost is that of
/// `nice_plan::make_nice`.
pub(crate) fn moved_to_nice(
    alloc: Global,
    drawing: Drawing,
    regions: &mut Regions,
    limit: u32,
) -> Result<Moved, PlanRefusal>
    requires table { IsTableOf drawing.drawing regions.old }
    requires distances { HasDistances drawing.drawing regions.old }
    requires few { length (all_exits drawing.drawing) ≤ 4000 }
    requires limit { limit ≤ 20000 }
    ensures moved { IfOk result (IsMoved drawing.drawing) }
    ensures within { OnOk result (length (strategy drawing.drawing) ≤ limit) }
    ensures table { IfOk result (λ moved. IsTableOf moved.last regions.new) }
    ensures budget { IfErr result (λ refusal. (n left : ℕ) → refusal ≡ refused.MoveBudget n left
        → (n ≡ limit) × (limit < length (strategy drawing.drawing)) × (left ≡ weight (replayed drawing.drawing (within_limit limit drawing.drawing)))) }
{
    let strands = strands_of(alloc, &drawing)?;
    let mut last = Diagram::of(drawing);
    match make_nice(alloc, &mut last, regions, limit) {
        Ok(fingers) => Ok(Moved {
            strands,
            fingers: Items::from_vec(fingers),
            last,
        }),
        Err(refusal) => Err(refusal),
    }
}
