// The strands of the points of each arc, read once from the drawing.
ghost use Rattle.std.specs.Prelude.{◌≡◌, ◌<◌, ◌≤◌, length, IfOk};
ghost use Rattle.std.specs.List.{All};
ghost use Rattle.page_surface.specs.Polygon.{arc_count};
ghost use Rattle.generator_list.specs.Search.{all_strands, arc_strands};

use drawing::Drawing;
use obd_base::{ArcNo, Items, NoMemory, StrandNo};
use std::alloc::Global;

// The strand of each point of an arc: those through its crossing points, and its own for its contact point.
fn arc_strands(alloc: Global, drawing: &Drawing, arc: ArcNo) -> Result<Items<StrandNo>, NoMemory>
    requires { arc < arc_count drawing.now.drawing.polygon }
    ensures { IfOk result (λ strands. strands ≡ arc_strands drawing.now.drawing arc) }
{
    let _ = drawing.points();
    let side = drawing.polygon().first_side(arc);
    let mut strands = Items::new(alloc);
    for place in 0..drawing.points_on(side) {
        strands.push(drawing.strand_at(side, place))?;
    }
    strands.push(StrandNo::new(arc.number()))?;
    Ok(strands)
}

// The same for each arc. Linear in the points.
pub(crate) fn all_strands(
    alloc: Global,
    drawing: &Drawing,
) -> Result<Items<Items<StrandNo>>, NoMemory>
    ensures { IfOk result (λ strands. strands ≡ all_strands drawing.now.drawing) }
{
    let mut strands = Items::new(alloc);
    for arc in 0..drawing.polygon().sides() / 2 {
        strands.push(arc_strands(alloc, drawing, ArcNo::new(arc))?)?;
    }
    Ok(strands)
}
