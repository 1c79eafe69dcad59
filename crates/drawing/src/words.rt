// The words of all strands.
ghost use Rattle.std.specs.Prelude.{◌≡◌, ◌++◌, ◌∷◌, [], ◌<◌, IfOk, OnOk};
ghost use Rattle.page_surface.specs.Drawing.{words};
ghost use Rattle.page_surface.specs.Polygon.{arc_count};

use crate::Drawing;
use obd_base::{Items, NoMemory, SideNo, StrandNo};
use std::alloc::Global;

impl Drawing {
    /// The words of all strands, by their arcs. Linear in the exits.
    pub fn words(&self, alloc: Global) -> Result<Items<Items<SideNo>>, NoMemory>
        ensures { IfOk result (λ all. all ≡ words self.now.drawing) }
    {
        // That a drawing has points says that it is embedded.
        let _ = self.points();
        let mut words = Items::new(alloc);
        for strand in 0..self.polygon().sides() / 2 {
            words.push(Items::from_vec(self.word(StrandNo::new(strand))?))?;
        }
        Ok(words)
    }
}
