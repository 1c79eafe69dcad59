// The drawing in which each strand crosses its own arc once.
ghost use Rattle.std.specs.Prelude.{◌≡◌, [], ◌∷◌, IfOk};
ghost use Rattle.page_surface.specs.Drawing.{exit, identity};

use crate::Drawing;
use crate::layout::Layout;
use obd_base::{ArcNo, Exit, NoMemory, SideNo};
use page_surface::Polygon;
use std::alloc::Global;

// The one exit of a strand: it leaves by the second side of its arc.
fn crossing(alloc: Global, second_side: SideNo) -> Result<Vec<Exit>, NoMemory>
    ensures { IfOk result (λ exits. exits.items ≡ exit second_side 0 ∷ []) }
{
    let mut exits = Vec::new(alloc);
    exits.push(Exit {
        side: second_side,
        place: 0,
    })?;
    Ok(exits)
}

impl Drawing {
    /// The identity drawing, in which strand `i` crosses arc `i` once and no other arc. Linear in the sides.
    pub fn identity(alloc: Global, polygon: &Polygon) -> Result<Drawing, NoMemory>
        ensures { IfOk result (λ made. made.drawing ≡ identity polygon.now) }
    {
        let mut strands = Vec::new(alloc);
        for arc in 0..polygon.sides() / 2 {
            let first_side = polygon.first_side(ArcNo::new(arc));
            strands.push(crossing(alloc, polygon.pair(first_side))?)?;
        }
        let layout = Layout::of(alloc, polygon.copy()?, strands)?;
        Drawing::of(alloc, layout)
    }
}
