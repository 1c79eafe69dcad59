// The action of a Dehn twist on words.
ghost use Rattle.std.specs.Prelude.{◌≡◌, ◌≢◌, ◌<◌, ◌≤◌, length, All, IfOk, IfErr};
ghost use Rattle.page_surface.specs.Polygon.{sides};
ghost use Rattle.page_surface.specs.Words.{reduced};
ghost use Rattle.curve_paths.specs.Curves.{IsCurve, image};

use crate::image::image_of;
use crate::pushes::Pushes;
use curve_paths::Curve;
use obd_base::{NoMemory, SideNo, Sign};
use page_surface::Polygon;
use std::alloc::Global;

/// Why a twist is not carried out on a word.
#[derive(Clone, Copy, Debug, PartialEq, Eq)]
pub enum ActRefusal {
    /// The reduced image has more than 4,000 letters: how many it has.
    TooLong { letters: u32 },
    /// Memory is wanting.
    NoMemory,
}

impl From<NoMemory> for ActRefusal {
    ghost use Rattle.path_words.specs.declared.action.ActRefusal.TheVariants as refused;

    ghost from_gives = { λ _ refusal. refusal ≡ refused.NoMemory };

    fn from(_: NoMemory) -> Self {
        ActRefusal::NoMemory
    }
}

/// The greatest number of letters of a word.
const MOST_LETTERS: u32 = 4000;

/// The image of a word under a single Dehn twist along a curve, reduced. The word is that of a path from the
/// gap after side `from` to the gap after side `to`, and so is its image. A positive twist turns to the right.
///
/// `TooLong` comes exactly where the reduced image has more than 4,000 letters, with their number. The word
/// of the push along each side is made and reduced once, in no more steps than the square of twice the curve's
/// exits, and the image is reduced as it is built. Beyond that linear in the letters of the word and in those
/// that are set: for each side passed the letters of its reduced push.
pub fn act(
    alloc: Global,
    polygon: &Polygon,
    curve: &Curve,
    sign: Sign,
    word: &[SideNo],
    from: SideNo,
    to: SideNo,
) -> Result<Vec<SideNo>, ActRefusal>
    requires curve { IsCurve polygon.now curve.now }
    requires in_range { All (λ s. s < sides polygon.now) word.now }
    requires few { length word.now ≤ 4000 }
    requires from { from < sides polygon.now }
    requires to { to < sides polygon.now }
    ensures image { IfOk result (λ made. made.items ≡ reduced polygon.now (image polygon.now curve.now sign word.now from to)) }
    ensures within { IfOk result (λ made. length made.items ≤ 4000) }
    ensures in_range { IfOk result (λ made. All (λ s. s < sides polygon.now) made.items) }
    ensures refused { IfErr result (λ refusal. refusal ≢ ActRefusal.NoMemory
        → refusal ≡ ActRefusal.TooLong (length (reduced polygon.now (image polygon.now curve.now sign word.now from to)))) }
    ensures long { IfErr result (λ refusal. refusal ≢ ActRefusal.NoMemory
        → 4000 < length (reduced polygon.now (image polygon.now curve.now sign word.now from to))) }
{
    let pushes = Pushes::of(alloc, polygon, curve, sign)?;
    let image = image_of(alloc, polygon, &pushes, word, from, to)?;
    let letters = image.len() as u32;
    if letters > MOST_LETTERS {
        return Err(ActRefusal::TooLong { letters });
    }
    Ok(image)
}
