// Why some bytes are no document of an open book.

ghost use Rattle.std.specs.Prelude.{◌≡◌};

use curve_paths::CurveRefusal;
use obd_base::{Name, NoMemory};
use page_surface::PageRefusal;

/// What a rule on the fields speaks of.
#[derive(Clone, Copy, Debug, PartialEq, Eq)]
pub enum FieldName {
    /// The document itself, which is an object.
    Top,
    /// A field that no document has.
    Other,
    OpenBook,
    Polygons,
    Curves,
    Twists,
    Slides,
    Limits,
}

/// The rules of a document, in the order in which they are tried. The first that fails is named.
#[derive(Debug, Drop)]
pub enum DocRefusal {
    /// The bytes aren't UTF-8, or `serde_json` reads no value from them: how many bytes there are.
    Json { bytes: u32 },
    /// A field lacks its form.
    Field { field: FieldName },
    /// A number in a field isn't whole, or not in its range.
    Number { field: FieldName },
    /// There are more than 32 curves, 256 twists or 64 slides: how many there are.
    TooMany { field: FieldName, count: u32 },
    /// The polygons are no page.
    Page { refusal: PageRefusal },
    /// A curve has the name of an earlier one.
    RepeatedCurve { name: Name },
    /// The path of a curve is none on the page.
    Curve { name: Name, refusal: CurveRefusal },
    /// A twist names no curve: its number.
    UnknownCurve { twist: u32 },
    /// Memory is wanting.
    NoMemory,
}

impl From<NoMemory> for DocRefusal {
    ghost use Rattle.obd_doc.specs.declared.refusal.DocRefusal.TheVariants as refused;

    ghost from_gives = { λ _ refusal. refusal ≡ refused.NoMemory };

    fn from(_: NoMemory) -> Self {
        DocRefusal::NoMemory
    }
}
