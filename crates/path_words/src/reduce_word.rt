// Words, reduced in place.
ghost use Rattle.std.specs.Prelude.{◌≡◌, ◌<◌, All};
ghost use Rattle.page_surface.specs.Polygon.{Pairs, sides};
ghost use Rattle.page_surface.specs.Words.{IsReducedForm, reduced};

use obd_base::SideNo;
use page_surface::Polygon;

/// Cancels pairs of successive letters, a side and its partner, until none is left. The word becomes its
/// reduced form, of which there is exactly one. Takes no memory; one pass, linear in the letters.
pub fn reduce(polygon: &Polygon, word: &mut Vec<SideNo>)
    requires { All (λ side. side < sides polygon.now) word.old.items }
    ensures form { IsReducedForm polygon.now word.old.items word.new.items }
    ensures computed { Pairs polygon.now → word.new.items ≡ reduced polygon.now word.old.items }
{
    let mut kept = 0;
    for read in 0..word.len() {
        let side = word[read];
        if kept > 0 && polygon.pair(word[kept - 1]) == side {
            kept -= 1;
        } else {
            word[kept] = side;
            kept += 1;
        }
    }
    word.truncate(kept);
}
