// The lines of a log.
ghost use Rattle.std.specs.Prelude.{All, ◌≡◌, ◌≢◌, ◌<◌, ◌≤◌, ◌+◌, ◌++◌, ◌∷◌, ℕ, List, decimal, length, OnOk, IfOk, IfSome, IfNone};
ghost use Rattle.std.specs.List.{flat_map};
ghost use Rattle.move_log.specs.Text.{SideFits, FingerFits, ReadAll, finger_line, slide_line};

use crate::number::{after, read_number};
use drawing::Finger;
use obd_base::{Items, NoMemory, SideNo, StrandNo, Text};
use std::alloc::Global;

// What stands on a line of its own.
pub(crate) trait Entry {
    // The entry's line.
    ghost line: { Self → List ℕ };
    // Whether its numbers are in range.
    ghost fits: { Self → Type 0 };

    // The entry at the beginning of a text, and what follows its line.
    fn read(text: &[u8]) -> Option<(Self, &[u8])>
    where
        Self: Sized,
        ensures some { IfSome result (λ r. text.now ≡ line r.0 ++ r.1.now) }
        ensures fit { IfSome result (λ r. fits r.0) }
        ensures shorter { IfSome result (λ r. length r.1.now < length text.now) }
        ensures none { IfNone result ((entry : Self) (rest : List ℕ) → fits entry → text.now ≢ line entry ++ rest) };

    // Appends the line.
    fn put(&self, text: &mut Text) -> Result<(), NoMemory>
        ensures put { OnOk result (text.new ≡ text.old ++ line self.now) }
        ensures fit { OnOk result (fits self.now) };
}

// Appends a space and a number.
fn put_word(text: &mut Text, number: u32) -> Result<(), NoMemory>
    ensures { OnOk result (text.new ≡ text.old ++ 32 ∷ decimal number) }
{
    text.put(" ")?;
    text.put_number(u64::from(number))
}

impl Entry for SideNo {
    ghost line = { slide_line };

    ghost fits = { SideFits };

    #[tactic(auto, unfolding(crate::specs::Text::slide_line))]
    fn read(text: &[u8]) -> Option<(SideNo, &[u8])> {
        let words = after(text, b"slide ")?;
        let (side, rest) = read_number(words, b'\n')?;
        Some((SideNo::new(side), rest))
    }

    #[tactic(auto, unfolding(crate::specs::Text::slide_line))]
    fn put(&self, text: &mut Text) -> Result<(), NoMemory> {
        text.put("slide")?;
        put_word(text, self.number())?;
        text.put("\n")
    }
}

impl Entry for Finger {
    ghost line = { finger_line };

    ghost fits = { FingerFits };

    #[tactic(auto, using(crate::proofs::Words::no_kind, crate::proofs::Words::no_strand, crate::proofs::Words::finger_words))]
    fn read(text: &[u8]) -> Option<(Finger, &[u8])> {
        let words = after(text, b"finger ")?;
        let (strand, words) = read_number(words, b' ')?;
        let (chord, words) = read_number(words, b' ')?;
        let (side, words) = read_number(words, b' ')?;
        let (segment, rest) = read_number(words, b'\n')?;
        let finger = Finger {
            strand: StrandNo::new(strand),
            chord,
            side: SideNo::new(side),
            segment,
        };
        Some((finger, rest))
    }

    #[tactic(auto, unfolding(crate::specs::Text::finger_line))]
    fn put(&self, text: &mut Text) -> Result<(), NoMemory> {
        text.put("finger")?;
        put_word(text, self.strand.number())?;
        put_word(text, self.chord)?;
        put_word(text, self.side.number())?;
        put_word(text, self.segment)?;
        text.put("\n")
    }
}

// Appends a line for each entry.
pub(crate) fn put_entries<T: Entry>(text: &mut Text, entries: &[T]) -> Result<(), NoMemory>
    ensures put { OnOk result (text.new ≡ text.old ++ flat_map T.line entries.now) }
    ensures fit { OnOk result (All T.fits entries.now) }
{
    for entry in entries {
        entry.put(text)?;
    }
    Ok(())
}

// The entries at the beginning of a text, as many as there are, and what follows them.
pub(crate) fn read_entries<T: Entry + Drop>(
    alloc: Global,
    text: &[u8],
) -> Result<(Items<T>, &[u8]), NoMemory>
    ensures all { IfOk result (λ r. ReadAll T.line T.fits text.now r.0 r.1.now) }
    ensures few { IfOk result (λ r. length r.0 + length r.1.now ≤ length text.now) }
{
    let mut entries = Items::new(alloc);
    let mut rest = text;
    while let Some((entry, after)) = T::read(rest) {
        entries.push(entry)?;
        rest = after;
    }
    Ok((entries, rest))
}
