// Reduced words, to which letters are set one after another.
ghost use Rattle.std.specs.Prelude.{◌≡◌, ◌<◌, ◌≤◌, ◌-◌, ◌++◌, ◌∷◌, [], length, take, drop, All, OnOk};
ghost use Rattle.page_surface.specs.Polygon.{IsPolygon, sides};
ghost use Rattle.page_surface.specs.Words.{reduced};

use obd_base::{NoMemory, SideNo};
use page_surface::Polygon;

// Sets a letter last, where it cancels with the last letter if that is its partner.
pub(crate) fn put_letter(
    polygon: &Polygon,
    word: &mut Vec<SideNo>,
    side: SideNo,
) -> Result<(), NoMemory>
    requires valid { IsPolygon polygon.now }
    requires in_range { All (λ s. s < sides polygon.now) word.old.items }
    requires is_reduced { reduced polygon.now word.old.items ≡ word.old.items }
    requires side { side < sides polygon.now }
    ensures word { OnOk result (word.new.items ≡ reduced polygon.now (word.old.items ++ side ∷ [])) }
    ensures in_range { OnOk result (All (λ s. s < sides polygon.now) word.new.items) }
    ensures is_reduced { OnOk result (reduced polygon.now word.new.items ≡ word.new.items) }
{
    if let Some(last) = word.last() {
        if polygon.pair(*last) == side {
            word.pop();
            return Ok(());
        }
    }
    word.push(side)?;
    Ok(())
}

// How many of the last letters of a reduced word cancel with the first letters of another.
fn cancelled_count(polygon: &Polygon, word: &[SideNo], letters: &[SideNo]) -> usize
    requires valid { IsPolygon polygon.now }
    requires in_range { All (λ s. s < sides polygon.now) word.now }
    requires is_reduced { reduced polygon.now word.now ≡ word.now }
    requires letters { reduced polygon.now letters.now ≡ letters.now }
    ensures within { result ≤ length word.now }
    ensures within_letters { result ≤ length letters.now }
    ensures joined { take (length word.now - result) word.now ++ drop result letters.now ≡ reduced polygon.now (word.now ++ letters.now) }
{
    let most = word.len().min(letters.len());
    for count in 0..most {
        let last = word[word.len() - 1 - count];
        if polygon.pair(last) != letters[count] {
            return count;
        }
    }
    most
}

// Sets a reduced word last: what cancels is the word's end with a start of the other.
pub(crate) fn put_letters(
    polygon: &Polygon,
    word: &mut Vec<SideNo>,
    letters: &[SideNo],
) -> Result<(), NoMemory>
    requires valid { IsPolygon polygon.now }
    requires in_range { All (λ s. s < sides polygon.now) word.old.items }
    requires is_reduced { reduced polygon.now word.old.items ≡ word.old.items }
    requires letters { All (λ s. s < sides polygon.now) letters.now }
    requires letters_reduced { reduced polygon.now letters.now ≡ letters.now }
    ensures word { OnOk result (word.new.items ≡ reduced polygon.now (word.old.items ++ letters.now)) }
    ensures in_range { OnOk result (All (λ s. s < sides polygon.now) word.new.items) }
    ensures is_reduced { OnOk result (reduced polygon.now word.new.items ≡ word.new.items) }
{
    if letters.is_empty() {
        return Ok(());
    }
    let count = cancelled_count(polygon, word, letters);
    word.truncate(word.len() - count);
    word.extend_from_slice(&letters[count..])?;
    Ok(())
}
