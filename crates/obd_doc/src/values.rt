// The value that the bytes give, and names.
ghost use Rattle.std.specs.Prelude.{◌≡◌, if◌then◌else◌, Some, None, option_map, IfOk};
ghost use Rattle.obd_doc.specs.Values.{is_name, is_name_byte, is_name_text, text_of, value_of};
ghost use Rattle.std.specs.List.{list_all};
ghost use Rattle.serde_json.specs.View.{view};

use obd_base::NoMemory;
use serde_json::Value;
use std::alloc::Global;

// The value that `serde_json` reads from the bytes, and `None` exactly where they give none or aren't UTF-8.
pub(crate) fn read_value(alloc: Global, bytes: &[u8]) -> Result<Option<Value>, NoMemory>
    ensures { IfOk result (λ r. option_map view r ≡ value_of bytes.now) }
{
    match Value::from_slice(alloc, bytes) {
        Ok(value) => Ok(Some(value)),
        Err(error) => {
            if error.is_memory() {
                Err(NoMemory)
            } else {
                Ok(None)
            }
        }
    }
}

fn is_name_byte(b: u8) -> bool
    ensures { result ≡ is_name_byte b }
{
    matches!(b, b'A'..=b'Z' | b'a'..=b'z' | b'0'..=b'9' | b'_')
}

fn has_name_bytes(bytes: &[u8]) -> bool
    ensures { result ≡ list_all is_name_byte bytes.now }
{
    bytes.iter().all(|b| is_name_byte(*b))
}

fn is_name(word: &str) -> bool
    ensures { result ≡ is_name word.now }
{
    1 <= word.len() && word.len() <= 16 && has_name_bytes(word.as_bytes())
}

// The text of a value that is a name.
pub(crate) fn name_text(value: &Value) -> Option<&str>
    ensures { option_map (λ s. s.now) result ≡ (if is_name_text (view value.now) then Some (text_of (view value.now)) else None) }
{
    let word = value.as_str()?;
    if is_name(word) { Some(word) } else { None }
}
