// Whether the exits and entries of each side are numbered from 0, each once.
ghost use Rattle.std.specs.Prelude.{◌≡◌, ◌<◌, IfOk, IfSome, IfNone};
ghost use Rattle.page_surface.specs.Drawing.{HasRightPlaces, right_on};
ghost use Rattle.page_surface.specs.Polygon.{sides};
ghost use Rattle.drawing.specs.Reading.{IsFirstWrong, IsHitTable};

use crate::counts::joined;
use crate::layout::Layout;
use obd_base::{Exit, NoMemory, SideNo};
use std::alloc::Global;

// How often an exit or an entry stands at each point. Linear in the exits and sides.
fn hits(alloc: Global, layout: &Layout) -> Result<Vec<u32>, NoMemory>
    ensures { IfOk result (λ hits. IsHitTable layout.now.drawing hits.items) }
{
    let exits = joined(alloc, layout.strands())?;
    let _ = layout.polygon();
    let mut hits = vec![in alloc; 0; layout.span_count() as usize]?;
    for exit in &exits {
        if exit.place < layout.points_on(exit.side) {
            hits[layout.spot(*exit) as usize] += 1;
            hits[layout.spot(layout.entry(*exit)) as usize] += 1;
        }
    }
    Ok(hits)
}

// Whether each point of a side is met once.
fn is_right_on(layout: &Layout, hits: &[u32], side: SideNo) -> bool
    requires hits { IsHitTable layout.now.drawing hits.now }
    requires side { side < sides layout.now.drawing.polygon }
    ensures { result ≡ right_on layout.now.drawing side }
{
    for place in 0..layout.points_on(side) {
        if hits[layout.spot(Exit { side, place }) as usize] != 1 {
            return false;
        }
    }
    true
}

// The first side on which places are wrong. Linear in the exits and sides.
pub(crate) fn first_wrong(alloc: Global, layout: &Layout) -> Result<Option<SideNo>, NoMemory>
    ensures wrong { IfOk result (λ found. IfSome found (IsFirstWrong layout.now.drawing)) }
    ensures right { IfOk result (λ found. IfNone found (HasRightPlaces layout.now.drawing)) }
{
    let hits = hits(alloc, layout)?;
    for number in 0..layout.polygon().sides() {
        let side = SideNo::new(number);
        if !is_right_on(layout, &hits, side) {
            return Ok(Some(side));
        }
    }
    Ok(None)
}
