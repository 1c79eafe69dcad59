// The tables of a drawing by which strips are walked.
ghost use Rattle.std.specs.Prelude.{◌≡◌, ◌<◌, length, slice_index};
ghost use Rattle.empty_domains.specs.Ground.{room_by};

use std::marker::Model;

// By numbers of the place order: the other end of the chord, the other name of the point, the side, and how far rows
// run on; by sides: the number of the side's end, and the arc.
pub(crate) struct Tables {
    pub(crate) other: Vec<u32>,
    pub(crate) opposite: Vec<u32>,
    pub(crate) side: Vec<u32>,
    pub(crate) run: Vec<u32>,
    pub(crate) ends: Vec<u32>,
    pub(crate) arcs: Vec<u32>,
}

// By hand, so that a caller's proof holds one call and not the drop of each field.
impl Drop for Tables {
    fn drop(self) {
        let Tables {
            other: _other,
            opposite: _opposite,
            side: _side,
            run: _run,
            ends: _ends,
            arcs: _arcs,
        } = self;
    }
}

impl Model for Tables {
    ghost use Rattle.empty_domains.specs.Ground.{Ground};
    ghost use Rattle.empty_domains.specs.Kept.{IsClosed, tables};

    ghost Value = { Ground };

    ghost view = { λ g. tables g.other.items g.opposite.items g.side.items g.run.items g.ends.items g.arcs.items };

    ghost invariant = { λ g. IsClosed (tables g.other.items g.opposite.items g.side.items g.run.items g.ends.items g.arcs.items) };
}

impl Tables {
    // How many numbers there are. Constant time, as are the calls below.
    pub(crate) fn count(&self) -> u32
        ensures { result ≡ length self.now.other }
    {
        self.other.len() as u32
    }

    // The other end of the chord at a number.
    pub(crate) fn other(&self, at: u32) -> u32
        requires { at < length self.now.other }
        ensures value { result ≡ slice_index self.now.other at }
        ensures inside { result < length self.now.other }
    {
        self.other[at as usize]
    }

    // The other name of a point.
    pub(crate) fn opposite(&self, at: u32) -> u32
        requires { at < length self.now.other }
        ensures value { result ≡ slice_index self.now.opposite at }
        ensures inside { result < length self.now.other }
    {
        self.opposite[at as usize]
    }

    // The side of a number.
    pub(crate) fn side(&self, at: u32) -> u32
        requires { at < length self.now.other }
        ensures value { result ≡ slice_index self.now.side at }
        ensures inside { result < length self.now.ends }
    {
        self.side[at as usize]
    }

    // How far rows run on from a number.
    pub(crate) fn run(&self, at: u32) -> u32
        requires { at < length self.now.other }
        ensures { result ≡ slice_index self.now.run at }
    {
        self.run[at as usize]
    }

    // The arc of a side.
    pub(crate) fn arc(&self, side: u32) -> u32
        requires { side < length self.now.ends }
        ensures { result ≡ slice_index self.now.arcs side }
    {
        self.arcs[side as usize]
    }

    // How far it is to the end of the side.
    pub(crate) fn room(&self, at: u32) -> u32
        requires { at < length self.now.other }
        ensures { result ≡ room_by self.now at }
    {
        self.ends[self.side(at) as usize].saturating_sub(at)
    }
}
