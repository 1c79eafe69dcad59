// The lines of refusals.
ghost use Rattle.std.specs.Prelude.{◌≡◌, ◌++◌, [], ◌∷◌, codes, decimal, map, slice_index_or, OnOk};
ghost use Rattle.witness_check.specs.Line.{line, spaced};
ghost use Rattle.obd_cli.specs.Refused.{curve_line, doc_line, field_word, page_line, refused_line, slide_line};

use curve_paths::CurveRefusal;
use handle_slide::{RefusedSlide, SlideRefusal};
use itoa::Buffer;
use obd_base::{NoMemory, Text};
use obd_doc::{DocRefusal, FieldName, NamedCurve};
use page_surface::PageRefusal;

// Appends words, each behind a space.
fn put_texts(text: &mut Text, words: &[&str]) -> Result<(), NoMemory>
    ensures { OnOk result (text.new ≡ text.old ++ spaced (map (λ word. word.now) words.now)) }
{
    for word in words {
        text.put(" ")?;
        text.put(word)?;
    }
    Ok(())
}

// Appends numbers, each behind a space.
fn put_numbers(text: &mut Text, numbers: &[u64]) -> Result<(), NoMemory>
    ensures { OnOk result (text.new ≡ text.old ++ spaced (map decimal numbers.now)) }
{
    for number in numbers {
        text.put(" ")?;
        text.put_number(*number)?;
    }
    Ok(())
}

// Appends the line of a refusal by its code and name, with the words and the numbers that it keeps.
#[tactic(auto, unfolding(witness_check::specs::Line::line))]
pub(crate) fn put_refused(
    text: &mut Text,
    code: u64,
    name: &str,
    words: &[&str],
    numbers: &[u64],
) -> Result<(), NoMemory>
    ensures { OnOk result (text.new ≡ text.old ++ refused_line code name.now (map (λ word. word.now) words.now) numbers.now) }
{
    text.put("refused ")?;
    text.put_number(code)?;
    text.put(" ")?;
    text.put(name)?;
    put_texts(text, words)?;
    put_numbers(text, numbers)?;
    text.put("\n")
}

/// Appends a line of a kind with these numbers.
#[tactic(auto, unfolding(witness_check::specs::Line::line))]
pub(crate) fn put_number_line(text: &mut Text, kind: &str, numbers: &[u64]) -> Result<(), NoMemory>
    ensures { OnOk result (text.new ≡ text.old ++ line kind.now (map decimal numbers.now)) }
{
    text.put(kind)?;
    put_numbers(text, numbers)?;
    text.put("\n")
}

// The word for a field.
fn field_word(field: FieldName) -> &'static str
    ensures { result.now ≡ field_word field }
{
    match field {
        FieldName::Top => "top",
        FieldName::Other => "other",
        FieldName::OpenBook => "open_book",
        FieldName::Polygons => "polygons",
        FieldName::Curves => "curves",
        FieldName::Twists => "twists",
        FieldName::Slides => "slides",
        FieldName::Limits => "limits",
    }
}

// Appends the line of a page's refusal.
fn put_page_refusal(text: &mut Text, refusal: &PageRefusal) -> Result<(), NoMemory>
    ensures { OnOk result (text.new ≡ text.old ++ page_line refusal.now) }
{
    match refusal {
        PageRefusal::NoPolygon => put_refused(text, 11, "NoPolygon", &[], &[]),
        PageRefusal::TooManyPolygons { count } => {
            put_refused(text, 12, "TooManyPolygons", &[], &[u64::from(*count)])
        }
        PageRefusal::EmptyPolygon { polygon } => {
            put_refused(text, 13, "EmptyPolygon", &[], &[u64::from(*polygon)])
        }
        PageRefusal::TooManyLabels { count } => {
            put_refused(text, 14, "TooManyLabels", &[], &[u64::from(*count)])
        }
        PageRefusal::LabelCount { label, count } => {
            put_refused(
                text,
                15,
                "LabelCount",
                &[label.as_str()],
                &[u64::from(*count)],
            )
        }
        PageRefusal::NotJoined { reached, all } => {
            put_refused(
                text,
                16,
                "NotJoined",
                &[],
                &[u64::from(*reached), u64::from(*all)],
            )
        }
        PageRefusal::TooManyArcs { arcs } => put_refused(
            text,
            17,
            "TooManyArcs",
            &[],
            &[u64::from(*arcs)],
        ),
        PageRefusal::DiskPage => put_refused(text, 18, "DiskPage", &[], &[]),
        PageRefusal::NoMemory => Ok(()),
    }
}

// Appends the line of the refusal of a curve's path.
fn put_curve_refusal(text: &mut Text, name: &str, refusal: &CurveRefusal) -> Result<(), NoMemory>
    ensures { OnOk result (text.new ≡ text.old ++ curve_line name.now refusal.now) }
{
    match refusal {
        CurveRefusal::EmptyPath => put_refused(text, 22, "EmptyPath", &[name], &[]),
        CurveRefusal::UnknownLabel { at } => {
            put_refused(text, 23, "UnknownLabel", &[name], &[u64::from(*at)])
        }
        CurveRefusal::TooManyCrossings { count } => {
            put_refused(text, 24, "TooManyCrossings", &[name], &[u64::from(*count)])
        }
        CurveRefusal::PlaceWrong { label } => {
            put_refused(text, 25, "PlaceWrong", &[name, label.as_str()], &[])
        }
        CurveRefusal::NotAdjacent { at } => put_refused(
            text,
            26,
            "NotAdjacent",
            &[name],
            &[u64::from(*at)],
        ),
        CurveRefusal::Crosses { first, second } => {
            put_refused(
                text,
                27,
                "Crosses",
                &[name],
                &[u64::from(*first), u64::from(*second)],
            )
        }
        CurveRefusal::NoMemory => Ok(()),
    }
}

// Appends the line of a document's refusal. Want of memory has none.
pub(crate) fn put_doc_refusal(text: &mut Text, refusal: &DocRefusal) -> Result<(), NoMemory>
    ensures { OnOk result (text.new ≡ text.old ++ doc_line refusal.now) }
{
    match refusal {
        DocRefusal::Json { bytes } => put_refused(text, 2, "Json", &[], &[u64::from(*bytes)]),
        DocRefusal::Field { field } => put_refused(text, 3, "Field", &[field_word(*field)], &[]),
        DocRefusal::Number { field } => put_refused(text, 4, "Number", &[field_word(*field)], &[]),
        DocRefusal::TooMany { field, count } => {
            put_refused(
                text,
                5,
                "Limits",
                &[field_word(*field)],
                &[u64::from(*count)],
            )
        }
        DocRefusal::Page { refusal } => put_page_refusal(text, refusal),
        DocRefusal::RepeatedCurve { name } => {
            put_refused(text, 21, "RepeatedCurve", &[name.as_str()], &[])
        }
        DocRefusal::Curve { name, refusal } => put_curve_refusal(text, name.as_str(), refusal),
        DocRefusal::UnknownCurve { twist } => put_refused(
            text,
            31,
            "UnknownCurve",
            &[],
            &[u64::from(*twist)],
        ),
        DocRefusal::NoMemory => Ok(()),
    }
}

// Appends the line of a slide after which a curve has too many crossings, by the slide's number, the curve's name and how
// many.
fn put_slide_crossings(text: &mut Text, slide: u64, curve: &str, count: u32) -> Result<(), NoMemory>
    ensures { OnOk result (text.new ≡ text.old ++ refused_line 43 (codes "SlideCrossings") (decimal slide ∷ curve.now ∷ []) (count ∷ [])) }
{
    let mut digits = Buffer::new();
    put_refused(
        text,
        43,
        "SlideCrossings",
        &[digits.format(slide), curve],
        &[u64::from(count)],
    )
}

/// The name of a curve by its number, and no letter where there is none. Constant time.
pub(crate) fn name_of(curves: &[NamedCurve], number: u64) -> &str
    ensures { result.now ≡ slice_index_or (map (λ curve. curve.name) curves.now) number [] }
{
    match curves.get(number as usize) {
        Some(curve) => curve.name.as_str(),
        None => "",
    }
}

/// Appends the line of a slide's refusal, with the names of the book's curves. Want of memory has none.
pub(crate) fn put_slide_refusal(
    text: &mut Text,
    curves: &[NamedCurve],
    refused: &RefusedSlide,
) -> Result<(), NoMemory>
    ensures { OnOk result (text.new ≡ text.old ++ slide_line (map (λ curve. curve.name) curves.now) refused.now) }
{
    let slide = refused.slide;
    let side = u64::from(refused.side.number());
    match refused.reason {
        SlideRefusal::NoSuchSide => put_refused(text, 41, "NoSuchSide", &[], &[slide, side]),
        SlideRefusal::SelfSlide => put_refused(text, 42, "SelfSlide", &[], &[slide, side]),
        SlideRefusal::SlideCrossings { curve, count } => {
            put_slide_crossings(text, slide, name_of(curves, curve), count)
        }
        SlideRefusal::NoMemory => Ok(()),
    }
}
