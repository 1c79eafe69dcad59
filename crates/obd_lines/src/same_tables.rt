// Whether two tables of a drawing are one, up to names.
ghost use Rattle.std.specs.Prelude.{◌≡◌, ◌<◌, false, length};
ghost use Rattle.page_surface.specs.Polygon.{sides};
ghost use Rattle.region_table.specs.Table.{HasDistances, IsFresh, IsTableOf, corners_of, region};

use drawing::Drawing;
use obd_base::{PieceNo, SideNo};
use region_table::Regions;

// The first span with a name.
fn first_named(names: &[u32], name: u32) -> Option<usize> {
    for span in 0..names.len() {
        if names[span] == name {
            return Some(span);
        }
    }
    None
}

// Whether two lists of names name the same pieces: whether each span has the first span with its name in both.
fn name_one(names: &[u32], others: &[u32]) -> bool {
    if names.len() != others.len() {
        return false;
    }
    for span in 0..names.len() {
        if first_named(names, names[span]) != first_named(others, others[span]) {
            return false;
        }
    }
    true
}

// Whether two inner pieces have the same edges.
fn have_one_boundary(one: &Regions, other: &Regions, piece: PieceNo, same: PieceNo) -> bool
    requires piece { piece < length one.now.regions }
    requires inner { (region one.now piece).base ≡ false }
    requires same { same < length other.now.regions }
    requires same_inner { (region other.now same).base ≡ false }
{
    let corners = one.corners(piece);
    if corners != other.corners(same) {
        return false;
    }
    for at in 0..corners {
        if one.edge(piece, at) != other.edge(same, at) {
            return false;
        }
    }
    true
}

// Whether the same is told of two pieces.
fn are_told_one(one: &Regions, other: &Regions, piece: PieceNo, same: PieceNo) -> bool
    requires piece { piece < length one.now.regions }
    requires same { same < length other.now.regions }
    requires fresh { IsFresh one.now }
    requires other_fresh { IsFresh other.now }
{
    let base = one.is_base(piece);
    if base != other.is_base(same) {
        return false;
    }
    base || one.distance(piece) == other.distance(same)
        && have_one_boundary(one, other, piece, same)
}

// Whether the same is told of the pieces of a side.
fn are_one_along(drawing: &Drawing, one: &Regions, other: &Regions, side: SideNo) -> bool
    requires side { side < sides drawing.now.drawing.polygon }
    requires table { IsTableOf drawing.now.drawing one.now }
    requires other { IsTableOf drawing.now.drawing other.now }
    requires fresh { IsFresh one.now }
    requires other_fresh { IsFresh other.now }
{
    for segment in 0..drawing.points_on(side) + 1 {
        let piece = one.piece_at(side, segment);
        let same = other.piece_at(side, segment);
        if !are_told_one(one, other, piece, same) {
            return false;
        }
    }
    true
}

/// Whether two tables of a drawing are one, up to names: whether they name the same pieces, and tell of each the same
/// edges and the same distance.
pub(crate) fn are_renamed(drawing: &Drawing, one: &Regions, other: &Regions) -> bool
    requires table { IsTableOf drawing.now.drawing one.now }
    requires other { IsTableOf drawing.now.drawing other.now }
    requires distances { HasDistances drawing.now.drawing other.now }
    requires fresh { IsFresh one.now }
{
    // That a drawing has points says that it is embedded.
    let _ = drawing.points();
    if one.other_ends() != other.other_ends() || !name_one(one.span_names(), other.span_names()) {
        return false;
    }
    for side in 0..drawing.polygon().sides() {
        if !are_one_along(drawing, one, other, SideNo::new(side)) {
            return false;
        }
    }
    true
}
