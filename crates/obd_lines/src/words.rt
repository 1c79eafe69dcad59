// Words, written shortly, and what is told of them.
ghost use Rattle.std.specs.Prelude.{◌<◌, All, IfOk, OnOk};
ghost use Rattle.page_surface.specs.Polygon.{sides};

use crate::pages::polygon_of;
use crate::stop::Stop;
use obd_base::SideNo;
use page_surface::Polygon;
use path_words::reduce;
use std::alloc::{AllocError, Global};

// Appends a side of the polygon.
fn put_side(polygon: &Polygon, word: &mut Vec<SideNo>, text: &str) -> Result<(), Stop>
    requires { All (λ s. s < sides polygon.now) word.old.items }
    ensures { OnOk result (All (λ s. s < sides polygon.now) word.new.items) }
{
    let Ok(number) = text.parse::<u32>() else {
        return Err(Stop::NotRead);
    };
    if number >= polygon.sides() {
        return Err(Stop::NotRead);
    }
    word.push(SideNo::new(number))?;
    Ok(())
}

/// A word of sides of the polygon, with blanks between them.
pub(crate) fn sides_of(alloc: Global, polygon: &Polygon, text: &str) -> Result<Vec<SideNo>, Stop>
    ensures { IfOk result (λ word. All (λ s. s < sides polygon.now) word.items) }
{
    let mut word = Vec::new(alloc);
    for side in text.split_whitespace() {
        put_side(polygon, &mut word, side)?;
    }
    Ok(word)
}

/// Puts the sides of a word, each behind a space.
pub(crate) fn put_sides(text: &mut String, word: &[SideNo]) -> Result<(), AllocError> {
    for side in word {
        write!(text, " {}", side.number())?;
    }
    Ok(())
}

/// A word on a page, `PAGE : WORD`: its reduced form.
pub(crate) fn word_told(alloc: Global, given: &str) -> Result<String, Stop> {
    let Some((page, word)) = given.split_once(" :") else {
        return Err(Stop::NotRead);
    };
    let polygon = polygon_of(alloc, page)?;
    let mut text = String::from_str(alloc, "word")?;
    put_reduced(alloc, &polygon, word, &mut text)?;
    Ok(text)
}

fn put_reduced(
    alloc: Global,
    polygon: &Polygon,
    word: &str,
    text: &mut String,
) -> Result<(), Stop> {
    let mut word = sides_of(alloc, polygon, word)?;
    reduce(polygon, &mut word);
    put_sides(text, &word)?;
    Ok(())
}
