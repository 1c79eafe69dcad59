// Lines of words. A line is its kind, further words behind one space each, and a line feed.
ghost use Rattle.std.specs.Prelude.{◌≡◌, ◌++◌, List, ℕ, [], ◌∷◌, decimal, map, OnOk};
ghost use Rattle.std.specs.Fmt.{signed_decimal};
ghost use Rattle.witness_check.specs.Line.{exit_text, line, lines, listed, row_lines, spaced};

use obd_base::{ArcNo, Exit, Items, Name, NoMemory, SideNo, Text};

/// What stands as one word of a line.
pub trait Word {
    /// The word's text.
    ghost word: { Self → List ℕ };

    /// Appends the word.
    fn put_word(&self, text: &mut Text) -> Result<(), NoMemory>
        ensures { OnOk result (text.new ≡ text.old ++ word self.now) };
}

impl Word for u32 {
    ghost word = { decimal };

    fn put_word(&self, text: &mut Text) -> Result<(), NoMemory> {
        text.put_number(u64::from(*self))
    }
}

impl Word for SideNo {
    ghost word = { decimal };

    fn put_word(&self, text: &mut Text) -> Result<(), NoMemory> {
        self.number().put_word(text)
    }
}

impl Word for ArcNo {
    ghost word = { decimal };

    fn put_word(&self, text: &mut Text) -> Result<(), NoMemory> {
        self.number().put_word(text)
    }
}

impl Word for Name {
    ghost word = { λ name. name };

    fn put_word(&self, text: &mut Text) -> Result<(), NoMemory> {
        text.put(self.as_str())
    }
}

impl Word for Exit {
    ghost word = { exit_text };

    fn put_word(&self, text: &mut Text) -> Result<(), NoMemory> {
        self.side.put_word(text)?;
        text.put(".")?;
        self.place.put_word(text)
    }
}

// Appends the words, each behind a space.
pub(crate) fn put_words<T: Word>(text: &mut Text, words: &[T]) -> Result<(), NoMemory>
    ensures { OnOk result (text.new ≡ text.old ++ spaced (map T.word words.now)) }
{
    for word in words {
        text.put(" ")?;
        word.put_word(text)?;
    }
    Ok(())
}

/// Appends a line of a kind with these words. Linear in the text that is put, as are the calls below.
#[tactic(auto, unfolding(crate::specs::Line::line))]
pub fn put_line<T: Word>(text: &mut Text, kind: &str, words: &[T]) -> Result<(), NoMemory>
    ensures { OnOk result (text.new ≡ text.old ++ line kind.now (map T.word words.now)) }
{
    text.put(kind)?;
    put_words(text, words)?;
    text.put("\n")
}

/// What stands on a line of its own.
pub(crate) trait Entry {
    /// The words of the line, after its kind.
    ghost words: { Self → List (List ℕ) };

    /// Appends the words, each behind a space.
    fn put_entry(&self, text: &mut Text) -> Result<(), NoMemory>
        ensures { OnOk result (text.new ≡ text.old ++ spaced (words self.now)) };
}

// Appends a line of a kind for each entry.
#[tactic(auto, unfolding(crate::specs::Line::line, crate::specs::Line::lines))]
fn put_entries<T: Entry>(text: &mut Text, kind: &str, entries: &[T]) -> Result<(), NoMemory>
    ensures { OnOk result (text.new ≡ text.old ++ lines kind.now T.words entries.now) }
{
    for entry in entries {
        text.put(kind)?;
        entry.put_entry(text)?;
        text.put("\n")?;
    }
    Ok(())
}

// Appends a line with the number of items, and then a line for each.
#[tactic(auto, unfolding(crate::specs::Line::listed))]
pub(crate) fn put_list<T: Entry>(
    text: &mut Text,
    many: &str,
    one: &str,
    items: &Items<T>,
) -> Result<(), NoMemory>
    ensures { OnOk result (text.new ≡ text.old ++ listed many.now one.now T.words items.now) }
{
    let entries = items.as_slice();
    put_count(text, many, entries.len() as u64)?;
    put_entries(text, one, entries)
}

// Appends a line with a count.
#[tactic(auto, unfolding(crate::specs::Line::line))]
pub(crate) fn put_count(text: &mut Text, kind: &str, count: u64) -> Result<(), NoMemory>
    ensures { OnOk result (text.new ≡ text.old ++ line kind.now (decimal count ∷ [])) }
{
    text.put(kind)?;
    text.put(" ")?;
    text.put_number(count)?;
    text.put("\n")
}

// Appends a line with one number.
pub(crate) fn put_number(text: &mut Text, kind: &str, number: u32) -> Result<(), NoMemory>
    ensures { OnOk result (text.new ≡ text.old ++ line kind.now (decimal number ∷ [])) }
{
    put_count(text, kind, u64::from(number))
}

// Appends a line with one number that may be below 0.
#[tactic(auto, unfolding(crate::specs::Line::line))]
pub(crate) fn put_signed(text: &mut Text, kind: &str, number: i32) -> Result<(), NoMemory>
    ensures { OnOk result (text.new ≡ text.old ++ line kind.now (signed_decimal number ∷ [])) }
{
    text.put(kind)?;
    text.put(" ")?;
    text.put_signed(i64::from(number))?;
    text.put("\n")
}

/// Appends a line with a number and then words.
#[tactic(auto, unfolding(crate::specs::Line::line))]
pub fn put_numbered<T: Word>(
    text: &mut Text,
    kind: &str,
    number: u64,
    words: &[T],
) -> Result<(), NoMemory>
    ensures { OnOk result (text.new ≡ text.old ++ line kind.now (decimal number ∷ map T.word words.now)) }
{
    text.put(kind)?;
    text.put(" ")?;
    text.put_number(number)?;
    put_words(text, words)?;
    text.put("\n")
}

/// Appends a line of a kind for each row, with its number, counted from 0, and its words.
#[tactic(auto, unfolding(crate::specs::Line::lines))]
pub fn put_rows<T: Word>(text: &mut Text, kind: &str, rows: &[Items<T>]) -> Result<(), NoMemory>
    ensures { OnOk result (text.new ≡ text.old ++ row_lines kind.now T.word rows.now) }
{
    for (number, words) in rows.iter().enumerate() {
        put_numbered(text, kind, number as u64, words.as_slice())?;
    }
    Ok(())
}
