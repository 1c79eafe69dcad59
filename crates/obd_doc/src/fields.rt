// What the fields of a document say, and their rules.
ghost use Rattle.std.specs.Prelude.{◌≡◌, codes, All, IfOk};
ghost use Rattle.curve_paths.specs.PathTables.{HaveOccurrences};
ghost use Rattle.serde_json.specs.Find.{get};
ghost use Rattle.serde_json.specs.View.{view};
ghost use Rattle.obd_doc.specs.Document.{field_rules, fields_of, is_field, optional, refused, said_or, shape_rules, version, wanted};
ghost use Rattle.obd_doc.specs.Settled.{Settles, SettlesField};
ghost use Rattle.obd_doc.specs.declared.refusal.FieldName.TheVariants as name;

use crate::DocRefusal;
use crate::kinds::{GREATEST_LIMIT, whole_from};
use crate::limits::Limits;
use crate::reading::{Readable, Unread};
use crate::refusal::FieldName;
use curve_paths::{NamedPath, NamedTwist};
use obd_base::{Items, Name, SideNo};
use serde_json::Value;
use std::alloc::Global;

// What the fields say.
#[derive(Drop)]
pub(crate) struct Fields {
    pub(crate) polygons: Items<Items<Name>>,
    pub(crate) curves: Items<NamedPath>,
    pub(crate) twists: Items<NamedTwist>,
    pub(crate) slides: Items<SideNo>,
    pub(crate) limits: Limits,
}

// The refusal of a field whose value isn't read.
fn refused(reason: Unread, field: FieldName) -> DocRefusal
    ensures { result ≡ refused reason field }
{
    match reason {
        Unread::Form => DocRefusal::Field { field },
        Unread::Number => DocRefusal::Number { field },
        Unread::NoMemory => DocRefusal::NoMemory,
    }
}

// The value of a field that has to be there.
fn wanted<T: Readable>(
    alloc: Global,
    document: &Value,
    name: &str,
    field: FieldName,
) -> Result<T, DocRefusal>
    ensures { SettlesField (wanted T.kind field (get name.now (view document.now))) T.kind (get name.now (view document.now)) result }
{
    match document.get(name) {
        Some(value) => match T::read(alloc, value) {
            Ok(said) => Ok(said),
            Err(reason) => Err(refused(reason, field)),
        },
        None => Err(DocRefusal::Field { field }),
    }
}

// The value of a field, or another in its place where it is absent.
fn optional<T: Readable>(
    alloc: Global,
    document: &Value,
    name: &str,
    field: FieldName,
    absent: T,
) -> Result<T, DocRefusal>
    ensures { Settles (optional T.kind field (get name.now (view document.now))) (said_or absent T.kind (get name.now (view document.now))) result }
{
    match document.get(name) {
        Some(value) => match T::read(alloc, value) {
            Ok(said) => Ok(said),
            Err(reason) => Err(refused(reason, field)),
        },
        None => Ok(absent),
    }
}

fn is_field(name: &str) -> bool
    ensures { result ≡ is_field name.now }
{
    name == "open_book"
        || name == "polygons"
        || name == "curves"
        || name == "twists"
        || name == "slides"
        || name == "limits"
}

// The document is an object with no other fields than those of a document.
fn check_shape(document: &Value) -> Result<(), DocRefusal>
    ensures { Settles (shape_rules (view document.now)) tt result }
{
    let Some(fields) = document.as_object() else {
        return Err(DocRefusal::Field {
            field: FieldName::Top,
        });
    };
    if fields.keys().all(|name| is_field(name.as_str())) {
        Ok(())
    } else {
        Err(DocRefusal::Field {
            field: FieldName::Other,
        })
    }
}

// The version of the form of documents, which is 1.
fn check_version(document: &Value) -> Result<(), DocRefusal>
    ensures { Settles (wanted version name.OpenBook (get (codes "open_book") (view document.now))) tt result }
{
    match document.get("open_book") {
        Some(value) => match whole_from(value, 1, 1) {
            Ok(_) => Ok(()),
            Err(reason) => Err(refused(reason, FieldName::OpenBook)),
        },
        None => Err(DocRefusal::Field {
            field: FieldName::OpenBook,
        }),
    }
}

// What the fields of a document say; else the first rule of the fields that fails. Linear in the value, but for
// the search of six fields.
#[tactic(auto, using(crate::proofs::Rules::skip, crate::proofs::Rules::stop))]
pub(crate) fn read_fields(alloc: Global, document: &Value) -> Result<Fields, DocRefusal>
    ensures settled { Settles (field_rules (view document.now)) (fields_of (view document.now)) result }
    ensures occurrences { IfOk result (λ fields. All (λ named. HaveOccurrences named.path) fields.curves) }
{
    check_shape(document)?;
    check_version(document)?;
    Ok(Fields {
        polygons: wanted(alloc, document, "polygons", FieldName::Polygons)?,
        curves: wanted(alloc, document, "curves", FieldName::Curves)?,
        twists: wanted(alloc, document, "twists", FieldName::Twists)?,
        slides: optional(
            alloc,
            document,
            "slides",
            FieldName::Slides,
            Items::new(alloc),
        )?,
        limits: optional(alloc, document, "limits", FieldName::Limits, DEFAULT_LIMITS)?,
    })
}

// The limits of a document that gives none.
const DEFAULT_LIMITS: Limits = Limits {
    moves: GREATEST_LIMIT,
    generators: GREATEST_LIMIT,
};
