// The certificate, version 1, field by field.

use curve_paths::{NamedPath, NamedTwist};
use drawing::Finger;
use mod2_rank::{Pivot, Verdict};
use obd_base::{ArcNo, Exit, GenNo, Items, Name, SideNo};

/// The fields of a certificate, in the order of its lines.
pub struct Certificate {
    /// The version of the form, 1.
    pub version: u32,
    /// The labels of the page's polygons.
    pub polygons: Items<Items<Name>>,
    /// The curves on the page, by their names.
    pub curves: Items<NamedPath>,
    /// The side of each arc slide, on the polygon that the slides before it leave.
    pub slides: Items<SideNo>,
    /// The twist word, whose first entry is applied first.
    pub twists: Items<NamedTwist>,
    /// The labels along which the polygons are joined.
    pub seams: Items<Name>,
    /// The arc of each side of the polygon after all slides.
    pub basis: Items<ArcNo>,
    /// The exits of each strand in the first drawing.
    pub strands: Items<Items<Exit>>,
    /// The finger moves, each on the drawing that those before it leave.
    pub fingers: Items<Finger>,
    /// The exits of each strand in the last drawing, after all fingers.
    pub finals: Items<Items<Exit>>,
    /// The number of generators of the last drawing.
    pub generators: u32,
    /// The contact generator, which is the last.
    pub contact: GenNo,
    /// The numbers of the contact generator's points, arc by arc.
    pub points: Items<u32>,
    /// The pivots by which every column of the last drawing reduces to nothing, in the order of their columns.
    pub pivots: Items<Pivot>,
    /// The rank of these columns, as many as the pivots.
    pub rank: u32,
    /// The number of generators less twice the rank.
    pub homology: i32,
    /// A chain that bounds the contact generator, or a functional that is one there and even on every column.
    pub verdict: Verdict,
}

// By hand, so that a caller's proof holds one call and not the drop of each field.
impl Drop for Certificate {
    fn drop(self) {
        let Certificate {
            version: _version,
            polygons: _polygons,
            curves: _curves,
            slides: _slides,
            twists: _twists,
            seams: _seams,
            basis: _basis,
            strands: _strands,
            fingers: _fingers,
            finals: _finals,
            generators: _generators,
            contact: _contact,
            points: _points,
            pivots: _pivots,
            rank: _rank,
            homology: _homology,
            verdict: _verdict,
        } = self;
    }
}
