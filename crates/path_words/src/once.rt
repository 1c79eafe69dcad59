// One single twist on the words of all strands.
ghost use Rattle.std.specs.Prelude.{◌≡◌, ◌<◌, ◌≤◌, ◌++◌, ◌∷◌, ◌^◌, ℕ, [], length, All, Ok, Err, IfOk, IfErr, OnOk};
ghost use Rattle.page_surface.specs.Polygon.{arc_count, sides};
ghost use Rattle.curve_paths.specs.Twists.{AreWords, limited};
ghost use Rattle.path_words.specs.Pushes.{IsPushTable, strand_with, strands_with};

use crate::image::image_of;
use crate::pushes::Pushes;
use crate::refusal::TwistRefusal;
use obd_base::{ArcNo, Items, NoMemory, SideNo};
use page_surface::Polygon;
use std::alloc::Global;

/// The greatest number of letters of all words together.
const MOST_LETTERS: u64 = 4000;

// How many letters the image of a strand's word has, and the image put last where these are at most 4,000.
fn put_image(
    alloc: Global,
    polygon: &Polygon,
    pushes: &Pushes,
    arc: ArcNo,
    word: &[SideNo],
    images: &mut Items<Items<SideNo>>,
) -> Result<u64, NoMemory>
    requires table { IsPushTable polygon.now pushes.now }
    requires arc { arc < arc_count polygon.now }
    requires in_range { All (λ s. s < sides polygon.now) word.now }
    requires few { length word.now ≤ 4000 }
    requires images { All (λ w. All (λ s. s < sides polygon.now) w) images.old }
    ensures letters { IfOk result (λ count. count ≡ length (strand_with polygon.now pushes.now arc word.now)) }
    ensures image { IfOk result (λ count. count ≤ 4000 → images.new ≡ images.old ++ strand_with polygon.now pushes.now arc word.now ∷ []) }
    ensures in_range { OnOk result (All (λ w. All (λ s. s < sides polygon.now) w) images.new) }
    ensures fits { IfOk result (λ count. count < 2 ^ 32) }
{
    let to = polygon.first_side(arc);
    let from = polygon.pair(to);
    let image = image_of(alloc, polygon, pushes, word, from, to)?;
    let letters = image.len() as u64;
    if letters <= MOST_LETTERS {
        images.push(Items::from_vec(image))?;
    }
    Ok(letters)
}

// The words of all strands with the pushes set along the sides that they pass.
pub(crate) fn turned_once(
    alloc: Global,
    polygon: &Polygon,
    pushes: &Pushes,
    words: &[Items<SideNo>],
) -> Result<Items<Items<SideNo>>, TwistRefusal>
    requires table { IsPushTable polygon.now pushes.now }
    requires words { AreWords polygon.now words.now }
    ensures turned { IfOk result (λ now. limited (strands_with polygon.now pushes.now words.now) ≡ Ok now) }
    ensures words { IfOk result (λ now. AreWords polygon.now now) }
    ensures long { IfErr result (λ refusal. (count : ℕ) → refusal ≡ TwistRefusal.TooLong count
        → limited (strands_with polygon.now pushes.now words.now) ≡ Err count) }
{
    let mut images = Items::new(alloc);
    let mut letters = 0;
    for arc in 0..polygon.sides() / 2 {
        let word = words[arc as usize].as_slice();
        let count = put_image(alloc, polygon, pushes, ArcNo::new(arc), word, &mut images)?;
        letters += count;
    }
    if letters > MOST_LETTERS {
        return Err(TwistRefusal::TooLong { letters });
    }
    Ok(images)
}
