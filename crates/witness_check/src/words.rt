// The words of a line, read one after another.
ghost use Rattle.std.specs.Prelude.{◌≡◌, nat_eq, [], ◌∷◌, drop, IfOk, MatchOption, OnOk, None, Some, if◌then◌else◌};
ghost use Rattle.std.specs.List.{position};
ghost use Rattle.witness_check.specs.RowWords.{behind_kind, kind_words};
ghost use Rattle.witness_check.specs.Splitting.{is_blank, words_of};
ghost use Rattle.witness_check.specs.Words.{all_words, first_word, line_words, none_left, number_word, signed_word};

use crate::tokens::{Token, number_word, signed_word};
use obd_base::{Items, NoMemory};
use std::alloc::Global;
use std::marker::Model;

// The words of a line that are left to read. Contracts see them as their list.
#[derive(Drop)]
pub(crate) struct Words<'a> {
    rest: &'a [u8],
}

impl<'a> Model for Words<'a> {
    ghost use Rattle.std.specs.Prelude.{List, ℕ};
    ghost use Rattle.witness_check.specs.Splitting.{words_of};

    ghost Value = { List (List ℕ) };

    ghost view = { λ w. words_of w.rest.now };
}

// The place of the first space or line feed.
fn place_of_blank(bytes: &[u8]) -> Option<usize>
    ensures { result ≡ position is_blank bytes.now }
{
    bytes
        .iter()
        .position(|byte| *byte == b' ' || *byte == b'\n')
}

// The place of the first line feed.
fn place_of_feed(bytes: &[u8]) -> Option<usize>
    ensures { result ≡ position (λ byte. nat_eq byte 10) bytes.now }
{
    bytes.iter().position(|byte| *byte == b'\n')
}

// The first word of some bytes, and what follows its blank.
#[tactic(auto, using(crate::proofs::LineWords::first_word, crate::proofs::LineWords::lone_word))]
fn first_piece(bytes: &[u8]) -> Option<(&[u8], &[u8])>
    ensures { MatchOption result (bytes.now ≡ []) (λ p. words_of bytes.now ≡ p.0.now ∷ words_of p.1.now) }
{
    if bytes.is_empty() {
        return None;
    }
    let Some(end) = place_of_blank(bytes) else {
        return Some((bytes, &bytes[bytes.len()..]));
    };
    Some((&bytes[..end], &bytes[end + 1..]))
}

impl<'a> Words<'a> {
    // The words of a line, which has one line feed, at its end.
    pub(crate) fn of(line: &'a [u8]) -> Option<Words<'a>>
        ensures { result ≡ line_words line.now }
    {
        let feed = place_of_feed(line)?;
        if feed + 1 == line.len() {
            Some(Words { rest: line })
        } else {
            None
        }
    }

    // The next word.
    fn next(&mut self) -> Option<&'a [u8]>
        ensures { MatchOption result ((self.old ≡ []) × (self.new ≡ [])) (λ word. self.old ≡ word.now ∷ self.new) }
    {
        let (word, rest) = first_piece(self.rest)?;
        self.rest = rest;
        Some(word)
    }

    // What the next word says.
    pub(crate) fn token<T: Token>(&mut self, alloc: Global) -> Result<Option<T>, NoMemory>
        ensures found { IfOk result (λ found. found ≡ first_word T.said self.old) }
        ensures rest { OnOk result (self.new ≡ drop 1 self.old) }
    {
        match self.next() {
            Some(word) => T::read(alloc, word),
            None => Ok(None),
        }
    }

    // What each word that is left says.
    pub(crate) fn all<T: Token + Drop>(
        &mut self,
        alloc: Global,
    ) -> Result<Option<Items<T>>, NoMemory>
        ensures { IfOk result (λ found. found ≡ all_words T.said self.old) }
    {
        let mut items = Items::new(alloc);
        while let Some(word) = self.next() {
            let Some(item) = T::read(alloc, word)? else {
                return Ok(None);
            };
            items.push(item)?;
        }
        Ok(Some(items))
    }

    // The number that the next word writes.
    pub(crate) fn number(&mut self) -> Option<u32>
        ensures found { result ≡ first_word number_word self.old }
        ensures rest { self.new ≡ drop 1 self.old }
    {
        let word = self.next()?;
        number_word(word)
    }

    // The number that the next word writes, perhaps behind a minus.
    pub(crate) fn signed(&mut self) -> Option<i32>
        ensures found { result ≡ first_word signed_word self.old }
        ensures rest { self.new ≡ drop 1 self.old }
    {
        let word = self.next()?;
        signed_word(word)
    }

    // Whether the next word is this kind. It is passed.
    pub(crate) fn passes(&mut self, kind: &str) -> bool
        ensures { behind_kind kind.now self.old ≡ (if result then Some self.new else None) }
    {
        match self.next() {
            Some(word) => word == kind.as_bytes(),
            None => false,
        }
    }

    // The words of a line of a kind, behind the kind.
    pub(crate) fn of_kind(kind: &str, line: &'a [u8]) -> Option<Words<'a>>
        ensures { result ≡ kind_words kind.now line.now }
    {
        let mut words = Words::of(line)?;
        if words.passes(kind) {
            Some(words)
        } else {
            None
        }
    }

    // Whether no word is left.
    pub(crate) fn is_empty(&self) -> bool
        ensures { result ≡ none_left self.now }
    {
        self.rest.is_empty()
    }
}
