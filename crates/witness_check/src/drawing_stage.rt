// The stages from the strands to the contact generator.
ghost use Rattle.std.specs.Prelude.{◌≡◌, ℕ, List, length, IfErr, IfOk};
ghost use Rattle.curve_paths.specs.Twists.{AreWords};
ghost use Rattle.drawing.specs.Points.{generators as all_generators};
ghost use Rattle.witness_check.specs.Between.{AfterBook, AfterDrawing, AfterFinals, Refutes};
ghost use Rattle.witness_check.specs.LastDrawing.{IsLast};

use crate::fault::Refusal;
use crate::final_lines::LastDrawing;
use crate::finals_stage::finals_stage;
use crate::fingers_stage::fingers_stage;
use crate::generators_stage::{contact_stage, generators_stage};
use crate::lines::Lines;
use crate::strands_stage::strands_stage;
use generator_list::Generators;
use obd_base::{Items, SideNo};
use page_surface::Polygon;
use std::alloc::Global;

/// The last drawing, and its generators.
pub(crate) struct Counted {
    pub(crate) last: LastDrawing,
    pub(crate) generators: Generators,
}

// By hand, so that a caller's proof holds one call and not the drop of each field.
impl Drop for Counted {
    fn drop(self) {
        let Counted {
            last: _last,
            generators: _generators,
        } = self;
    }
}

// The strands, the fingers, and the strands in the last drawing.
fn last_of(
    alloc: Global,
    lines: &mut Lines,
    polygon: &Polygon,
    words: &[Items<SideNo>],
) -> Result<LastDrawing, Refusal>
    requires words { AreWords polygon.now words.now }
    ensures passed { IfOk result (λ last. (text : List ℕ) → AfterBook polygon.now words.now text lines.old → AfterFinals last.diagram text lines.new) }
    ensures last { IfOk result IsLast }
    ensures refuted { IfErr result (λ refusal. (text : List ℕ) → AfterBook polygon.now words.now text lines.old → Refutes text refusal) }
{
    let drawn = strands_stage(alloc, lines, polygon, words)?;
    let moved = fingers_stage(alloc, lines, drawn)?;
    finals_stage(alloc, lines, moved)
}

// The generators of the last drawing, and the contact generator.
fn with_generators(alloc: Global, lines: &mut Lines, last: LastDrawing) -> Result<Counted, Refusal>
    ensures passed { IfOk result (λ made. (text : List ℕ) → AfterFinals last.diagram text lines.old → AfterDrawing made.last.diagram (length made.generators) text lines.new) }
    ensures last { IfOk result (λ made. made.last ≡ last) }
    ensures generators { IfOk result (λ made. made.generators ≡ all_generators made.last.diagram) }
    ensures refuted { IfErr result (λ refusal. (text : List ℕ) → AfterFinals last.diagram text lines.old → Refutes text refusal) }
{
    let generators = generators_stage(alloc, lines, &last.diagram)?;
    contact_stage(alloc, lines, &last.diagram, generators.count())?;
    Ok(Counted { last, generators })
}

/// Reads the lines of the strands, the fingers, the strands in the last drawing, the generators and the contact generator: the last
/// drawing, and its generators. The cost is that of the drawing's moves and its generators' list.
pub(crate) fn drawing_stage(
    alloc: Global,
    lines: &mut Lines,
    polygon: &Polygon,
    words: &[Items<SideNo>],
) -> Result<Counted, Refusal>
    requires words { AreWords polygon.now words.now }
    ensures passed { IfOk result (λ made. (text : List ℕ) → AfterBook polygon.now words.now text lines.old → AfterDrawing made.last.diagram (length made.generators) text lines.new) }
    ensures last { IfOk result (λ made. IsLast made.last) }
    ensures generators { IfOk result (λ made. made.generators ≡ all_generators made.last.diagram) }
    ensures refuted { IfErr result (λ refusal. (text : List ℕ) → AfterBook polygon.now words.now text lines.old → Refutes text refusal) }
{
    let last = last_of(alloc, lines, polygon, words)?;
    with_generators(alloc, lines, last)
}
