// Curves by their numbers.
ghost use Rattle.std.specs.Prelude.{◌≡◌, map, IfSome, Some, option_map, slice_index_or, []};
ghost use Rattle.obd_base.specs.Lists.{Mem};
ghost use Rattle.curve_paths.specs.Twists.{exits_of};

use curve_paths::Curve;

// A curve by its number, none where it crosses no side.
pub(crate) fn curve_of(curves: &[Option<Curve>], number: u32) -> Option<&Curve>
    ensures exits { exits_of (option_map (λ curve. curve.now) result) ≡ slice_index_or (map exits_of curves.now) number [] }
    ensures there { IfSome result (λ curve. Mem (Some curve.now) curves.now) }
{
    match curves.get(number as usize) {
        Some(curve) => curve.as_ref(),
        None => None,
    }
}
