// What a single word says: a number, a name, an exit or a crossing.
ghost use Rattle.std.specs.Prelude.{◌≡◌, ◌≢◌, ◌<◌, ◌^◌, List, ℕ, ℤ, true, decimal, nat_eq, IfNone, IfOk, IfSome, MatchOption, Option, None, Some, option_map};
ghost use Rattle.std.specs.Fmt.{signed_decimal};
ghost use Rattle.std.specs.List.{list_all, position};
ghost use Rattle.witness_check.specs.Reading.{is_name, is_name_byte, is_signed};
ghost use Rattle.witness_check.specs.Words.{bit_word, cross_at, cross_rest, cross_word, cut_at, exit_word, name_word, number_word, signed_word};

use curve_paths::Cross;
use itoa::Buffer;
use obd_base::{ArcNo, Exit, Name, NoMemory, SideNo};
use std::alloc::Global;
use std::str;

// The number that the bytes are the digits of. A number is written in one way only.
#[tactic(auto, using(crate::proofs::NumberWords::no_text, crate::proofs::NumberWords::not_read, crate::proofs::NumberWords::other_digits))]
fn digits_number(word: &[u8]) -> Option<u32>
    ensures fits { IfSome result (λ n. n < 2 ^ 32) }
    ensures some { IfSome result (λ n. word.now ≡ decimal n) }
    ensures none { IfNone result ((n : ℕ) → n < 2 ^ 32 → word.now ≢ decimal n) }
{
    let Ok(text) = str::from_utf8(word) else {
        return None;
    };
    let Ok(number) = text.parse::<u32>() else {
        return None;
    };
    let mut buffer = Buffer::new();
    if buffer.format(number).as_bytes() == word {
        Some(number)
    } else {
        None
    }
}

// The number that a word is.
pub(crate) fn number_word(word: &[u8]) -> Option<u32>
    ensures value { result ≡ number_word word.now }
    ensures fits { IfSome result (λ n. n < 2 ^ 32) }
{
    digits_number(word)
}

// The number that the bytes are the digits of, perhaps behind a minus.
#[tactic(auto, using(crate::proofs::SignedWords::no_text, crate::proofs::SignedWords::not_read, crate::proofs::SignedWords::other_digits, crate::proofs::SignedWords::read_fits))]
fn digits_signed(word: &[u8]) -> Option<i32>
    ensures fits { IfSome result (λ z. is_signed z ≡ true) }
    ensures some { IfSome result (λ z. word.now ≡ signed_decimal z) }
    ensures none { IfNone result ((z : ℤ) → is_signed z ≡ true → word.now ≢ signed_decimal z) }
{
    let Ok(text) = str::from_utf8(word) else {
        return None;
    };
    let Ok(number) = text.parse::<i32>() else {
        return None;
    };
    let mut buffer = Buffer::new();
    if buffer.format(number).as_bytes() == word {
        Some(number)
    } else {
        None
    }
}

// The number that a word is, perhaps behind a minus.
pub(crate) fn signed_word(word: &[u8]) -> Option<i32>
    ensures { result ≡ signed_word word.now }
{
    digits_signed(word)
}

// A letter, a digit or `_`.
fn is_name_byte(byte: u8) -> bool
    ensures { result ≡ is_name_byte byte }
{
    matches!(byte, b'A'..=b'Z' | b'a'..=b'z' | b'0'..=b'9' | b'_')
}

// All bytes are such.
fn has_name_bytes(word: &[u8]) -> bool
    ensures { result ≡ list_all is_name_byte word.now }
{
    word.iter().all(|byte| is_name_byte(*byte))
}

// 1 to 16 such bytes.
fn is_name(word: &[u8]) -> bool
    ensures { result ≡ is_name word.now }
{
    1 <= word.len() && word.len() <= 16 && has_name_bytes(word)
}

// The text of a word that is a name.
#[tactic(auto, using(crate::proofs::NumberWords::no_name))]
fn name_text(word: &[u8]) -> Option<&str>
    ensures { option_map (λ text. text.now) result ≡ name_word word.now }
{
    let Ok(text) = str::from_utf8(word) else {
        return None;
    };
    if is_name(word) { Some(text) } else { None }
}

// The first place of a byte.
fn place_of(word: &[u8], mark: u8) -> Option<usize>
    ensures { result ≡ position (λ byte. nat_eq mark byte) word.now }
{
    word.iter().position(|byte| mark == *byte)
}

// What stands before the first of these bytes, and behind it.
fn cut_at(word: &[u8], mark: u8) -> Option<(&[u8], &[u8])>
    ensures { MatchOption result (cut_at mark word.now ≡ None) (λ p. cut_at mark word.now ≡ Some (p.0.now, p.1.now)) }
{
    let place = place_of(word, mark)?;
    Some((&word[..place], &word[place + 1..]))
}

// SIDE.PLACE
fn exit_word(word: &[u8]) -> Option<Exit>
    ensures { result ≡ exit_word word.now }
{
    let (side, place) = cut_at(word, b'.')?;
    let side = number_word(side)?;
    let place = number_word(place)?;
    Some(Exit {
        side: SideNo::new(side),
        place,
    })
}

// 0 or 1
fn bit_word(word: &[u8]) -> Option<u8>
    ensures { result ≡ bit_word word.now }
{
    let number = number_word(word)?;
    if number <= 1 {
        Some(number as u8)
    } else {
        None
    }
}

// What of a crossing stands behind its label.
#[derive(Clone, Copy)]
struct Behind {
    occurrence: u8,
    place: u32,
}

// OCC:PLACE
fn passage(word: &[u8]) -> Option<Behind>
    ensures { (label : List ℕ) → cross_rest label word.now ≡ option_map (λ p. cross_at label p.occurrence p.place) result }
{
    let (occurrence, place) = cut_at(word, b':')?;
    let occurrence = bit_word(occurrence)?;
    let place = number_word(place)?;
    Some(Behind { occurrence, place })
}

// LABEL:OCC:PLACE
fn cross_word(alloc: Global, word: &[u8]) -> Result<Option<Cross>, NoMemory>
    ensures { IfOk result (λ found. found ≡ cross_word word.now) }
{
    let Some((label, rest)) = cut_at(word, b':') else {
        return Ok(None);
    };
    let Some(label) = name_text(label) else {
        return Ok(None);
    };
    let Some(Behind { occurrence, place }) = passage(rest) else {
        return Ok(None);
    };
    Ok(Some(Cross {
        label: Name::from_str(alloc, label)?,
        occurrence,
        place,
    }))
}

// What a single word says.
pub(crate) trait Token: Sized {
    // What is read of a word.
    ghost said: { List ℕ → Option Self };

    // What the word says, if it says something.
    fn read(alloc: Global, word: &[u8]) -> Result<Option<Self>, NoMemory>
        ensures { IfOk result (λ found. found ≡ said word.now) };
}

impl Token for u32 {
    ghost said = { number_word };

    fn read(_: Global, word: &[u8]) -> Result<Option<u32>, NoMemory> {
        Ok(number_word(word))
    }
}

impl Token for ArcNo {
    ghost said = { number_word };

    fn read(_: Global, word: &[u8]) -> Result<Option<ArcNo>, NoMemory> {
        let Some(number) = number_word(word) else {
            return Ok(None);
        };
        Ok(Some(ArcNo::new(number)))
    }
}

impl Token for Name {
    ghost said = { name_word };

    fn read(alloc: Global, word: &[u8]) -> Result<Option<Name>, NoMemory> {
        let Some(text) = name_text(word) else {
            return Ok(None);
        };
        Ok(Some(Name::from_str(alloc, text)?))
    }
}

impl Token for Exit {
    ghost said = { exit_word };

    fn read(_: Global, word: &[u8]) -> Result<Option<Exit>, NoMemory> {
        Ok(exit_word(word))
    }
}

impl Token for Cross {
    ghost said = { cross_word };

    fn read(alloc: Global, word: &[u8]) -> Result<Option<Cross>, NoMemory> {
        cross_word(alloc, word)
    }
}
