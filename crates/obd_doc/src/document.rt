// A document, read from its bytes.
ghost use Rattle.std.specs.Prelude.{◌≡◌, ◌≢◌, ◌<◌, ◌≤◌, ◌^◌, ◌++◌, ◌∷◌, [], map, not, nat_lt, length, position, string_bytes, option_map, Some, All, IfOk, IfErr, OnOk};
ghost use Rattle.std.specs.List.{list_any};
ghost use Rattle.std.specs.Str.{bytes_eq};
ghost use Rattle.page_surface.specs.Labels.{all_sides, with_label};
ghost use Rattle.page_surface.specs.Page.{refusal_of as page_refusal};
ghost use Rattle.curve_paths.specs.PathTables.{HaveOccurrences};
ghost use Rattle.obd_base.specs.Options.{when};
ghost use Rattle.obd_doc.specs.Document.{all_curve_rules, book_of, book_read, book_rules, count_rules, curve_on, curve_rules, names_of, refusal_of, twist_about};
ghost use Rattle.obd_doc.specs.Settled.{Settles};
ghost use Rattle.obd_doc.specs.Sizes.{ListsFewer};
ghost use Rattle.obd_doc.specs.declared.refusal.DocRefusal.TheVariants.{Page as NoPage, TooMany, UnknownCurve};

use crate::book::{Book, NamedCurve};
use crate::fields::{Fields, read_fields};
use crate::refusal::{DocRefusal, FieldName};
use crate::values::read_value;
use curve_paths::{CurveRefusal, NamedPath, NamedTwist, PageCurve, Twist, copied_path};
use indexmap::IndexSet;
use obd_base::{Items, Name, NoMemory};
use page_surface::{Page, PageRefusal};
use std::alloc::Global;

// There are at most so many entries in a field.
fn check_count(len: usize, most: u32, field: FieldName) -> Result<(), DocRefusal>
    requires { len < 2 ^ 32 }
    ensures { Settles (when (nat_lt most len) (TooMany field len) ∷ []) tt result }
{
    let count = len as u32;
    if count > most {
        Err(DocRefusal::TooMany { field, count })
    } else {
        Ok(())
    }
}

// There are at most 32 curves, 256 twists and 64 slides.
fn check_counts(fields: &Fields) -> Result<(), DocRefusal>
    requires { ListsFewer fields.now (2 ^ 32) }
    ensures { Settles (count_rules fields.now) tt result }
{
    check_count(fields.curves.len(), 32, FieldName::Curves)?;
    check_count(fields.twists.len(), 256, FieldName::Twists)?;
    check_count(fields.slides.len(), 64, FieldName::Slides)
}

// Strings of their own with the texts of some names.
fn strings(alloc: Global, names: &[Name]) -> Result<Vec<String>, NoMemory>
    ensures { IfOk result (λ strings. map string_bytes strings.items ≡ names.now) }
{
    let mut strings = Vec::new(alloc);
    for name in names {
        strings.push(String::from_str(alloc, name.as_str())?)?;
    }
    Ok(strings)
}

// The labels of some polygons as strings.
fn polygon_strings(alloc: Global, polygons: &[Items<Name>]) -> Result<Vec<Vec<String>>, NoMemory>
    ensures { IfOk result (λ strings. map (λ p. map string_bytes p.items) strings.items ≡ polygons.now) }
{
    let mut texts = Vec::new(alloc);
    for polygon in polygons {
        texts.push(strings(alloc, polygon.as_slice())?)?;
    }
    Ok(texts)
}

// The page of some polygons.
fn page(alloc: Global, polygons: &Items<Items<Name>>) -> Result<Page, DocRefusal>
    requires few_polygons { length polygons.now < 2 ^ 32 }
    requires few_sides { length (all_sides polygons.now) < 2 ^ 32 }
    ensures { Settles (option_map NoPage (page_refusal polygons.now) ∷ []) polygons.now result }
{
    let texts = polygon_strings(alloc, polygons.as_slice())?;
    match Page::new(alloc, &texts) {
        Ok(page) => Ok(page),
        Err(PageRefusal::NoMemory) => Err(DocRefusal::NoMemory),
        Err(refusal) => Err(DocRefusal::Page { refusal }),
    }
}

// Whether a name is none of those before it, among which it is then.
fn is_new_name(alloc: Global, names: &mut IndexSet<String>, name: &str) -> Result<bool, NoMemory>
    ensures new { IfOk result (λ is_new. is_new ≡ not (list_any (bytes_eq name.now) (map string_bytes names.old.keys))) }
    ensures names { OnOk result (map string_bytes names.new.keys ≡ with_label (map string_bytes names.old.keys) name.now) }
{
    let (_, is_new) = names.insert_full(String::from_str(alloc, name)?)?;
    Ok(is_new)
}

// A curve on the page, after those with these names.
fn curve(
    alloc: Global,
    page: &Page,
    names: &mut IndexSet<String>,
    named: &NamedPath,
) -> Result<NamedCurve, DocRefusal>
    requires occurrences { HaveOccurrences named.now.path }
    requires few { length named.now.path < 2 ^ 32 }
    ensures settled { Settles (curve_rules page.now (map string_bytes names.old.keys) named.now) (curve_on page.now named.now) result }
    ensures names { OnOk result (map string_bytes names.new.keys ≡ map string_bytes names.old.keys ++ named.now.name ∷ []) }
{
    let name = Name::from_str(alloc, named.name.as_str())?;
    if !is_new_name(alloc, names, named.name.as_str())? {
        return Err(DocRefusal::RepeatedCurve { name });
    }
    let path = named.path.as_slice();
    match PageCurve::new(alloc, page, path) {
        Ok(curve) => Ok(NamedCurve {
            name,
            path: copied_path(alloc, path)?,
            curve,
        }),
        Err(CurveRefusal::NoMemory) => Err(DocRefusal::NoMemory),
        Err(refusal) => Err(DocRefusal::Curve { name, refusal }),
    }
}

// The curves of a book, each with a name of its own.
fn curves(
    alloc: Global,
    page: &Page,
    names: &mut IndexSet<String>,
    paths: &[NamedPath],
) -> Result<Items<NamedCurve>, DocRefusal>
    requires none { names.old.keys ≡ [] }
    requires occurrences { All (λ named. HaveOccurrences named.path) paths.now }
    requires few { All (λ named. length named.path < 2 ^ 32) paths.now }
    ensures settled { Settles (all_curve_rules page.now [] paths.now) (map (curve_on page.now) paths.now) result }
    ensures names { OnOk result (map string_bytes names.new.keys ≡ names_of paths.now) }
{
    let mut curves = Items::new(alloc);
    for named in paths {
        curves.push(curve(alloc, page, names, named)?)?;
    }
    Ok(curves)
}

// A twist about the curve of this number.
fn twist(curve: u32, entry: &NamedTwist) -> Twist
    ensures { result ≡ record { curve = curve; power = entry.now.power } }
{
    Twist {
        curve,
        power: entry.power,
    }
}

// The twist word, each twist about a curve that it names.
fn twists(
    alloc: Global,
    names: &IndexSet<String>,
    entries: &[NamedTwist],
) -> Result<Items<Twist>, DocRefusal>
    requires few_names { length names.now.keys < 2 ^ 32 }
    requires few_entries { length entries.now < 2 ^ 32 }
    ensures { Settles (option_map UnknownCurve (position (λ twist. not (list_any (bytes_eq twist.name) (map string_bytes names.now.keys))) entries.now) ∷ [])
        (map (twist_about (map string_bytes names.now.keys)) entries.now) result }
{
    let mut twists = Items::new(alloc);
    for (number, entry) in entries.iter().enumerate() {
        let Some(curve) = names.get_index_of(entry.name.as_str()) else {
            return Err(DocRefusal::UnknownCurve {
                twist: number as u32,
            });
        };
        twists.push(twist(curve as u32, entry))?;
    }
    Ok(twists)
}

// The book that the fields give.
fn book(alloc: Global, fields: Fields) -> Result<Book, DocRefusal>
    requires occurrences { All (λ named. HaveOccurrences named.path) fields.curves }
    requires few { ListsFewer fields (2 ^ 32) }
    ensures { Settles (book_rules fields) (book_of fields) result }
{
    let page = page(alloc, &fields.polygons)?;
    let mut names = IndexSet::new(alloc);
    let curves = curves(alloc, &page, &mut names, fields.curves.as_slice())?;
    let twists = twists(alloc, &names, fields.twists.as_slice())?;
    Ok(Book {
        polygons: fields.polygons,
        page,
        curves,
        twists,
        slides: fields.slides,
        limits: fields.limits,
    })
}

/// The open book of a document. The rules are tried in the order of `DocRefusal`, those of the fields field by
/// field and those of the curves curve by curve, and the first that fails is named.
///
/// Of two fields of one name the value counts that `serde_json` keeps. Linear in the bytes, but for the order of
/// the fields of each object, and that each two of a curve's at most 32 chords are tried.
pub fn read(alloc: Global, bytes: &[u8]) -> Result<Book, DocRefusal>
    requires { length bytes.now < 2 ^ 32 }
    ensures accepted { IfOk result (λ book. book_read bytes.now ≡ Some book) }
    ensures refused { IfErr result (λ refusal. refusal ≢ DocRefusal.NoMemory → refusal_of bytes.now ≡ Some refusal) }
{
    let Some(document) = read_value(alloc, bytes)? else {
        return Err(DocRefusal::Json {
            bytes: bytes.len() as u32,
        });
    };
    let fields = read_fields(alloc, &document)?;
    check_counts(&fields)?;
    book(alloc, fields)
}
