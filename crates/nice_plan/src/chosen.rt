// The piece that a burst starts from.
ghost use Rattle.std.specs.Prelude.{◌≡◌, true, false, IfNone, IfSome};
ghost use Rattle.region_table.specs.Nice.{is_nice};
ghost use Rattle.nice_plan.specs.Measured.{IsInner, better, comes_first, goes_before, home};
ghost use Rattle.nice_plan.specs.Path.{chosen};

use crate::measured::Measured;
use obd_base::{Exit, PieceNo};

// Whether a segment comes before another in the place order.
fn comes_first(one: &Exit, other: &Exit) -> bool
    ensures { result ≡ comes_first one.now other.now }
{
    one.side < other.side || one.side == other.side && one.place < other.place
}

// Whether a bad piece goes before another: whether it is farther, or as far and its first segment comes first.
fn goes_before(measured: &Measured, one: PieceNo, other: PieceNo) -> bool
    requires one { IsInner measured.now one }
    requires other { IsInner measured.now other }
    ensures { result ≡ goes_before measured.now one other }
{
    let far = measured.distance(one);
    let other_far = measured.distance(other);
    if far != other_far {
        return other_far < far;
    }
    let first = measured.first(one);
    let other_first = measured.first(other);
    comes_first(&first, &other_first)
}

// What is chosen of one piece more: the piece, where it is bad and goes before the one that was chosen so far.
fn better(measured: &Measured, chosen: Option<PieceNo>, piece: PieceNo) -> Option<PieceNo>
    requires piece { IsInner measured.now piece }
    requires chosen { IfSome chosen (λ best. IsInner measured.now best) }
    ensures { result ≡ better measured.now chosen piece }
{
    if measured.size(piece) <= 2 {
        return chosen;
    }
    match chosen {
        None => Some(piece),
        Some(best) => {
            if goes_before(measured, piece, best) {
                Some(piece)
            } else {
                Some(best)
            }
        }
    }
}

// The bad piece of the greatest distance, among several the one whose first segment comes first. `None` exactly where
// no piece is bad. Linear in the pieces.
pub(crate) fn chosen(measured: &Measured) -> Option<PieceNo>
    ensures nice { IfNone result (is_nice measured.now.drawing ≡ true) }
    ensures bad { IfSome result (λ _. is_nice measured.now.drawing ≡ false) }
    ensures inner { IfSome result (λ piece. IsInner measured.now piece) }
    ensures chosen { IfSome result (λ piece. home measured.now piece ≡ chosen measured.now.drawing) }
{
    let mut chosen: Option<PieceNo> = None;
    let inner = measured.regions.inner();
    for piece in inner {
        chosen = better(measured, chosen, *piece);
    }
    chosen
}
