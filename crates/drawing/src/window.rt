// Which points lie between two spans.
ghost use Rattle.std.specs.Prelude.{◌≡◌, ◌+◌, ◌-◌, ◌<◌, ◌^◌, ◌%◌, nat_lt, slice_index};
ghost use Rattle.page_surface.specs.Drawing.{IsPlaced};
ghost use Rattle.drawing.specs.Pieces.{between};
ghost use Rattle.drawing.specs.Window.{IsWindow};

use crate::layout::Layout;
use obd_base::{Exit, SideNo};

// Two spans, and a table of how the points of each side lie to them. Numbers are counted from the lesser span on and around
// 2^32, so that the points between the spans are those whose numbers are below a count: one comparison tells.
#[derive(Drop)]
pub(crate) struct Window {
    start: u32,
    segment: u32,
    exits: [u32; 16],
    entries: [u32; 16],
    count: u32,
}

impl Window {
    // The window of two spans. Linear in the sides.
    pub(crate) fn of(layout: &Layout, start: u32, segment: u32) -> Window
        requires placed { IsPlaced layout.now.drawing }
        requires start { start < 2 ^ 30 }
        requires segment { segment < 2 ^ 30 }
        ensures start { result.start ≡ start }
        ensures segment { result.segment ≡ segment }
        ensures window { IsWindow layout.now.drawing start segment result.exits result.entries result.count }
    {
        let first = start.min(segment);
        let mut exits = [0; 16];
        let mut entries = [0; 16];
        for side in 0..layout.polygon().sides() {
            let begin = Exit {
                side: SideNo::new(side),
                place: 0,
            };
            let last = layout.end_of(layout.polygon().pair(begin.side));
            exits[side as usize] = layout.spot(begin).wrapping_sub(first);
            entries[side as usize] = layout.spot(last).wrapping_sub(first + 1);
        }
        Window {
            start,
            segment,
            exits,
            entries,
            count: start.abs_diff(segment),
        }
    }

    // The first of the two spans.
    pub(crate) fn start(&self) -> u32
        ensures { result ≡ self.now.start }
    {
        self.start
    }

    // Whether a number is between the spans.
    pub(crate) fn holds(&self, number: u32) -> bool
        ensures { result ≡ between self.now.start self.now.segment number }
    {
        (number < self.start) != (number < self.segment)
    }

    // Whether an exit is, in a layout whose window this is.
    pub(crate) fn leaves(&self, exit: &Exit) -> bool
        requires { exit.now.side < 16 }
        ensures { result ≡ nat_lt ((slice_index self.now.exits exit.now.side + exit.now.place) % 2 ^ 32) self.now.count }
    {
        self.exits[exit.side.number() as usize].wrapping_add(exit.place) < self.count
    }

    // Whether its entry is.
    pub(crate) fn enters(&self, exit: &Exit) -> bool
        requires { exit.now.side < 16 }
        ensures { result ≡ nat_lt ((slice_index self.now.entries exit.now.side + (2 ^ 32 - exit.now.place)) % 2 ^ 32) self.now.count }
    {
        self.entries[exit.side.number() as usize].wrapping_sub(exit.place) < self.count
    }
}
