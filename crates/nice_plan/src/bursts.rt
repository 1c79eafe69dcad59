// The bursts of the strategy, carried out one after another.
ghost use Rattle.std.specs.Prelude.{◌≡◌, ◌≢◌, ℕ, suc, ◌+◌, ◌-◌, ◌*◌, ◌<◌, ◌≤◌, ◌^◌, true, false, length, Err, IfErr, IfNone, IfOk, IfSome, OnErr, OnOk};
ghost use Rattle.page_surface.specs.Drawing.{IsEmbedded, all_exits};
ghost use Rattle.drawing.specs.Fingers.{AllLegal, IsLegal, pushed, replayed};
ghost use Rattle.region_table.specs.Changed.{KeepsAllNames, KeepsNames};
ghost use Rattle.region_table.specs.Nice.{is_nice, weight};
ghost use Rattle.region_table.specs.Table.{HasDistances, IsTableOf};
ghost use Rattle.nice_plan.specs.Applied.{AreBurstsApplied, IsBurstApplied, IsOverBudget};
ghost use Rattle.nice_plan.specs.Burst.{burst};
ghost use Rattle.nice_plan.specs.Strategy.{strategy, within_limit};
ghost use Rattle.nice_plan.specs.declared.refusal.PlanRefusal.TheVariants as refused;

use crate::PlanRefusal;
use crate::measured::Measured;
use crate::next::fingers_of;
use crate::plan::Plan;
use drawing::{Drawing, Finger};
use finger_move::apply;
use hkm_diagram::Diagram;
use obd_base::NoMemory;
use region_table::Regions;
use std::alloc::Global;

// The next burst of a drawing, and None exactly where it is nice. Where it has more fingers than are left of the limit it
// isn't listed but refused, with the weight of the drawing.
fn next_within(
    alloc: Global,
    drawing: &Drawing,
    regions: &Regions,
    limit: u32,
    left: u32,
) -> Result<Option<Vec<Finger>>, PlanRefusal>
    requires table { IsTableOf drawing.now.drawing regions.now }
    requires distances { HasDistances drawing.now.drawing regions.now }
    requires few { length (all_exits drawing.now.drawing) + 2 * left < 2 ^ 28 }
    ensures nice { IfOk result (λ fingers. IfNone fingers (is_nice drawing.now.drawing ≡ true)) }
    ensures bad { IfOk result (λ fingers. IfSome fingers (λ _. is_nice drawing.now.drawing ≡ false)) }
    ensures burst { IfOk result (λ fingers. IfSome fingers (λ f. f.items ≡ burst drawing.now.drawing)) }
    ensures within { IfOk result (λ fingers. IfSome fingers (λ f. length f.items ≤ left)) }
    ensures budget { IfErr result (λ refusal. (n w : ℕ) → refusal ≡ refused.MoveBudget n w
        → (n ≡ limit) × (is_nice drawing.now.drawing ≡ false) × (left < length (burst drawing.now.drawing)) × (w ≡ weight drawing.now.drawing)) }
{
    let _ = drawing.points();
    let _ = drawing.polygon().sides();
    let measured = Measured { drawing, regions };
    let Some(plan) = Plan::of(alloc, &measured)? else {
        return Ok(None);
    };
    let count = plan.length();
    let room = u64::from(left);
    if count > room {
        let weight = regions.weight();
        return Err(PlanRefusal::MoveBudget { limit, weight });
    }
    let fingers = fingers_of(alloc, drawing, &plan)?;
    Ok(Some(fingers))
}

// Pushes a legal finger, and brings the table up to date but for distances.
fn push(drawing: &mut Drawing, regions: &mut Regions, finger: &Finger)
    requires legal { IsLegal drawing.old.drawing finger.now }
    requires table { IsTableOf drawing.old.drawing regions.old }
    requires room { 1 ≤ drawing.old.room }
    requires table_room { 1 ≤ regions.old.room }
    ensures pushed { drawing.new.drawing ≡ pushed drawing.old.drawing finger.now }
    ensures table { IsTableOf drawing.new.drawing regions.new }
    ensures names { KeepsNames drawing.old.drawing finger.now regions.old regions.new }
    ensures room { suc drawing.new.room ≡ drawing.old.room }
    ensures table_room { suc regions.new.room ≡ regions.old.room }
{
    // That a drawing has points says that it is embedded.
    let _ = drawing.points();
    apply(drawing, finger);
    let _ = regions.after_finger(drawing, finger);
}

// Pushes legal fingers, one after another, brings the table up to date after each, and measures it after all. Room for all
// is taken first in both, so where memory is wanting both stay.
fn push_all(
    drawing: &mut Drawing,
    regions: &mut Regions,
    fingers: &[Finger],
) -> Result<(), NoMemory>
    requires legal { AllLegal drawing.old.drawing fingers.now }
    requires table { IsTableOf drawing.old.drawing regions.old }
    requires few { length (all_exits drawing.old.drawing) + 2 * length fingers.now < 2 ^ 28 }
    ensures pushed { OnOk result (drawing.new.drawing ≡ replayed drawing.old.drawing fingers.now) }
    ensures table { OnOk result (IsTableOf drawing.new.drawing regions.new) }
    ensures distances { OnOk result (HasDistances drawing.new.drawing regions.new) }
    ensures names { OnOk result (KeepsAllNames drawing.old.drawing fingers.now regions.old regions.new) }
    ensures stays { OnErr result (drawing.new.drawing ≡ drawing.old.drawing) }
    ensures table_stays { OnErr result (regions.new ≡ regions.old) }
{
    let count = fingers.len() as u32;
    drawing.reserve(count)?;
    regions.reserve(count)?;
    for finger in fingers {
        push(drawing, regions, finger);
    }
    let _ = drawing.points();
    regions.measure();
    Ok(())
}

// Applies the next burst, and answers whether there was one: none is left exactly where the drawing is nice. A refusal
// leaves drawing and table as they are.
fn apply_next(
    alloc: Global,
    drawing: &mut Drawing,
    regions: &mut Regions,
    limit: u32,
    fingers: &mut Vec<Finger>,
) -> Result<bool, PlanRefusal>
    requires embedded { IsEmbedded drawing.old.drawing }
    requires table { IsTableOf drawing.old.drawing regions.old }
    requires distances { HasDistances drawing.old.drawing regions.old }
    requires short { length fingers.old.items ≤ limit }
    requires few { length (all_exits drawing.old.drawing) + 2 * (limit - length fingers.old.items) < 2 ^ 28 }
    ensures nice { IfOk result (λ more. more ≡ false → (is_nice drawing.old.drawing ≡ true) × (drawing.new ≡ drawing.old) × (regions.new ≡ regions.old) × (fingers.new.items ≡ fingers.old.items)) }
    ensures burst { IfOk result (λ more. more ≡ true → IsBurstApplied limit drawing.old.drawing fingers.old.items drawing.new.drawing fingers.new.items) }
    ensures names { IfOk result (λ more. more ≡ true → KeepsAllNames drawing.old.drawing (burst drawing.old.drawing) regions.old regions.new) }
    ensures table { OnOk result (IsTableOf drawing.new.drawing regions.new) }
    ensures distances { OnOk result (HasDistances drawing.new.drawing regions.new) }
    ensures budget { IfErr result (λ refusal. (n w : ℕ) → refusal ≡ refused.MoveBudget n w
        → (n ≡ limit) × (is_nice drawing.old.drawing ≡ false) × (limit - length fingers.old.items < length (burst drawing.old.drawing))
        × (w ≡ weight drawing.old.drawing)) }
    ensures stays { OnErr result (drawing.new.drawing ≡ drawing.old.drawing) }
    ensures table_stays { OnErr result (regions.new ≡ regions.old) }
{
    let left = limit - fingers.len() as u32;
    let Some(burst) = next_within(alloc, drawing, regions, limit, left)? else {
        return Ok(false);
    };
    fingers.extend_from_slice(&burst)?;
    push_all(drawing, regions, &burst)?;
    Ok(true)
}

// Applies bursts until the drawing is nice.
fn apply_all(
    alloc: Global,
    drawing: &mut Drawing,
    regions: &mut Regions,
    limit: u32,
) -> Result<Vec<Finger>, PlanRefusal>
    requires table { IsTableOf drawing.old.drawing regions.old }
    requires distances { HasDistances drawing.old.drawing regions.old }
    requires few { length (all_exits drawing.old.drawing) + 2 * limit < 2 ^ 28 }
    ensures fingers { IfOk result (λ fingers. fingers.items ≡ strategy drawing.old.drawing) }
    ensures within { OnOk result (length (strategy drawing.old.drawing) ≤ limit) }
    ensures drawing { OnOk result (drawing.new.drawing ≡ replayed drawing.old.drawing (strategy drawing.old.drawing)) }
    ensures budget { IfErr result (IsOverBudget drawing.old.drawing limit drawing.new.drawing) }
    ensures memory { result ≡ Err refused.NoMemory → AreBurstsApplied drawing.old.drawing drawing.new.drawing regions.old regions.new }
    ensures table { IsTableOf drawing.new.drawing regions.new }
    ensures distances { HasDistances drawing.new.drawing regions.new }
    ensures names { OnOk result (KeepsAllNames drawing.old.drawing (strategy drawing.old.drawing) regions.old regions.new) }
    ensures names_within { IfErr result (λ refusal. refusal ≢ refused.NoMemory → KeepsAllNames drawing.old.drawing (within_limit limit drawing.old.drawing) regions.old regions.new) }
{
    let _ = drawing.points();
    let mut fingers = Vec::new(alloc);
    let mut more = true;
    while more {
        more = match apply_next(alloc, drawing, regions, limit, &mut fingers) {
            Ok(more) => more,
            Err(refusal) => return Err(refusal),
        };
    }
    Ok(fingers)
}

/// Makes a diagram nice by the strategy: applies its bursts, one after another, until the drawing is nice, and answers
/// their fingers. The strategy's list has at most as many bursts as the first weight.
///
/// `MoveBudget` comes exactly where the whole list is longer than the limit. A burst that doesn't fit isn't listed; the
/// diagram then stands after the bursts that fit whole, with their weight, which isn't 0. Room for a burst is taken before
/// its first finger, so `NoMemory` leaves the diagram after a number of whole bursts.
///
/// The table that is lent must be the diagram's, with fresh distances, and is so again after every answer: it is brought up
/// to date after each finger and measured after each burst. A piece that every applied finger kept has the name that it
/// had. Each burst costs what `burst` does and what `measure` does, and each finger is linear in all exits.
/// The strategy is this project's own, after Sarkar and Wang (2010).
pub fn make_nice(
    alloc: Global,
    diagram: &mut Diagram,
    regions: &mut Regions,
    limit: u32,
) -> Result<Vec<Finger>, PlanRefusal>
    requires table { IsTableOf diagram.old regions.old }
    requires distances { HasDistances diagram.old regions.old }
    requires few { length (all_exits diagram.old) + 2 * limit < 2 ^ 28 }

    ensures fingers { IfOk result (λ fingers. fingers.items ≡ strategy diagram.old) }
    ensures within { OnOk result (length (strategy diagram.old) ≤ limit) }
    ensures drawing { OnOk result (diagram.new ≡ replayed diagram.old (strategy diagram.old)) }

    ensures budget { IfErr result (IsOverBudget diagram.old limit diagram.new) }
    ensures memory { result ≡ Err refused.NoMemory → AreBurstsApplied diagram.old diagram.new regions.old regions.new }

    ensures table { IsTableOf diagram.new regions.new }
    ensures distances { HasDistances diagram.new regions.new }
    ensures names { OnOk result (KeepsAllNames diagram.old (strategy diagram.old) regions.old regions.new) }
    ensures names_within { IfErr result (λ refusal. refusal ≢ refused.NoMemory → KeepsAllNames diagram.old (within_limit limit diagram.old) regions.old regions.new) }
{
    apply_all(alloc, diagram.drawing_mut(), regions, limit)
}
