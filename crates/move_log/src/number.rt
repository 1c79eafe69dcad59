// Numbers in a text.
ghost use Rattle.std.specs.Prelude.{◌≡◌, ◌≢◌, ◌<◌, ◌^◌, ◌++◌, ◌∷◌, ℕ, List, decimal, nat_eq, IfSome, IfNone};
ghost use Rattle.std.specs.List.{position};

use itoa::Buffer;
use std::str;

// What follows a word at the beginning of a text.
#[tactic(auto, using(crate::proofs::Words::word_found, crate::proofs::Words::no_word))]
pub(crate) fn after<'a>(text: &'a [u8], word: &[u8]) -> Option<&'a [u8]>
    ensures some { IfSome result (λ rest. text.now ≡ word.now ++ rest.now) }
    ensures none { IfNone result ((rest : List ℕ) → text.now ≢ word.now ++ rest) }
{
    text.strip_prefix(word)
}

// The first place of a byte.
fn place_of(text: &[u8], end: u8) -> Option<usize>
    ensures { result ≡ position (λ byte. nat_eq byte end) text.now }
{
    text.iter().position(|byte| *byte == end)
}

// The number that these bytes are the digits of. A number is written in one way only, so what is read is printed again.
#[tactic(auto, using(crate::proofs::Numbers::no_text, crate::proofs::Numbers::not_read, crate::proofs::Numbers::other_digits))]
fn number_of(bytes: &[u8]) -> Option<u32>
    ensures some { IfSome result (λ n. bytes.now ≡ decimal n) }
    ensures none { IfNone result ((n : ℕ) → n < 2 ^ 32 → bytes.now ≢ decimal n) }
{
    let Ok(text) = str::from_utf8(bytes) else {
        return None;
    };
    let Ok(number) = text.parse::<u32>() else {
        return None;
    };
    let mut buffer = Buffer::new();
    if buffer.format(number).as_bytes() == bytes {
        Some(number)
    } else {
        None
    }
}

// The number at the beginning of a text, up to a byte that is no digit, and what follows that byte.
pub(crate) fn read_number(text: &[u8], end: u8) -> Option<(u32, &[u8])>
    requires { end < 48 }
    ensures some { IfSome result (λ r. text.now ≡ decimal r.0 ++ end ∷ r.1.now) }
    ensures fits { IfSome result (λ r. r.0 < 2 ^ 32) }
    ensures none { IfNone result ((n : ℕ) (rest : List ℕ) → n < 2 ^ 32 → text.now ≢ decimal n ++ end ∷ rest) }
{
    let place = place_of(text, end)?;
    let number = number_of(&text[..place])?;
    Some((number, &text[place + 1..]))
}
