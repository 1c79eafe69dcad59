// The kinds of values in a document, each read from JSON.
ghost use Rattle.std.specs.Prelude.{◌≡◌, ◌&&◌, true, map, is_some, IfSome};
ghost use Rattle.std.specs.List.{list_all};
ghost use Rattle.std.specs.Option.{option_map_or};
ghost use Rattle.serde_json.specs.Find.{as_object, get};
ghost use Rattle.serde_json.specs.View.{view};
ghost use Rattle.obd_doc.specs.Kinds.{cross, is_limit, limit, limits, name, named_path, named_twist, power, slide_side, whole_from};
ghost use Rattle.obd_doc.specs.Reading.{Reads};
ghost use Rattle.obd_doc.specs.Values.{elements, field_names, is_array_of, is_number};

use crate::limits::Limits;
use crate::reading::{Readable, Unread};
use crate::values::name_text;
use curve_paths::{Cross, NamedPath, NamedTwist};
use obd_base::{Items, Name, SideNo};
use serde_json::Value;
use std::alloc::Global;

// Whether the value is a number of any kind.
fn is_number(value: &Value) -> bool
    ensures { result ≡ is_number (view value.now) }
{
    value.as_number().is_some()
}

// A whole number from one to another.
pub(crate) fn whole_from(value: &Value, least: u32, most: u32) -> Result<u32, Unread>
    ensures { Reads (whole_from least most) (view value.now) result }
{
    if !is_number(value) {
        return Err(Unread::Form);
    }
    match value.as_u64() {
        Some(number) if u64::from(least) <= number && number <= u64::from(most) => {
            Ok(number as u32)
        }
        _ => Err(Unread::Number),
    }
}

// A power of a twist.
fn power(value: &Value) -> Result<i32, Unread>
    ensures { Reads power (view value.now) result }
{
    if !is_number(value) {
        return Err(Unread::Form);
    }
    match value.as_i64() {
        Some(number) if -64 <= number && number <= 64 && number != 0 => Ok(number as i32),
        _ => Err(Unread::Number),
    }
}

// The elements of an array of so many.
fn array_of(value: &Value, count: usize) -> Option<&[Value]>
    ensures found { is_some result ≡ is_array_of count (view value.now) }
    ensures elements { IfSome result (λ values. map view values.now ≡ elements (view value.now)) }
{
    let values = value.as_array()?.as_slice();
    if values.len() == count {
        Some(values)
    } else {
        None
    }
}

impl Readable for Name {
    ghost kind = { name };

    fn read(alloc: Global, value: &Value) -> Result<Self, Unread> {
        match name_text(value) {
            Some(word) => Ok(Name::from_str(alloc, word)?),
            None => Err(Unread::Form),
        }
    }
}

impl Readable for SideNo {
    ghost kind = { slide_side };

    fn read(_alloc: Global, value: &Value) -> Result<Self, Unread> {
        Ok(SideNo::new(whole_from(value, 0, 15)?))
    }
}

impl Readable for Cross {
    ghost kind = { cross };

    fn read(alloc: Global, value: &Value) -> Result<Self, Unread> {
        let Some(values) = array_of(value, 3) else {
            return Err(Unread::Form);
        };
        let label = Name::read(alloc, &values[0])?;
        if !is_number(&values[2]) {
            return Err(Unread::Form);
        }
        Ok(Cross {
            label,
            occurrence: whole_from(&values[1], 0, 1)? as u8,
            place: whole_from(&values[2], 0, 31)?,
        })
    }
}

impl Readable for NamedPath {
    ghost kind = { named_path };

    fn read(alloc: Global, value: &Value) -> Result<Self, Unread> {
        let Some(values) = array_of(value, 2) else {
            return Err(Unread::Form);
        };
        Ok(NamedPath {
            name: Name::read(alloc, &values[0])?,
            path: Items::read(alloc, &values[1])?,
        })
    }
}

impl Readable for NamedTwist {
    ghost kind = { named_twist };

    fn read(alloc: Global, value: &Value) -> Result<Self, Unread> {
        let Some(values) = array_of(value, 2) else {
            return Err(Unread::Form);
        };
        Ok(NamedTwist {
            name: Name::read(alloc, &values[0])?,
            power: power(&values[1])?,
        })
    }
}

fn is_limit(name: &str) -> bool
    ensures { result ≡ is_limit name.now }
{
    name == "moves" || name == "generators"
}

// Whether an object has no other fields than the two limits.
fn has_limits_alone(value: &Value) -> bool
    ensures { result ≡ (is_some (as_object (view value.now)) && list_all is_limit (field_names (view value.now))) }
{
    match value.as_object() {
        Some(fields) => fields.keys().all(|name| is_limit(name.as_str())),
        None => false,
    }
}

// Whether a field is a number, where it is there.
fn is_number_if_there(value: &Value, name: &str) -> bool
    ensures { result ≡ option_map_or is_number (get name.now (view value.now)) true }
{
    match value.get(name) {
        Some(number) => is_number(number),
        None => true,
    }
}

// A limit by its name, from the least that it may be.
fn limit(value: &Value, name: &str, least: u32) -> Result<u32, Unread>
    ensures { Reads (limit name.now least) (view value.now) result }
{
    match value.get(name) {
        Some(number) => whole_from(number, least, GREATEST_LIMIT),
        None => Ok(GREATEST_LIMIT),
    }
}

/// The greatest limit, which is taken where one is absent.
pub(crate) const GREATEST_LIMIT: u32 = 20_000;

impl Readable for Limits {
    ghost kind = { limits };

    fn read(_alloc: Global, value: &Value) -> Result<Self, Unread> {
        if !has_limits_alone(value) {
            return Err(Unread::Form);
        }
        if !is_number_if_there(value, "generators") {
            return Err(Unread::Form);
        }
        Ok(Limits {
            moves: limit(value, "moves", 0)?,
            generators: limit(value, "generators", 1)?,
        })
    }
}
