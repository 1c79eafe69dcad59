// The lines of a text, taken one after another.
ghost use Rattle.std.specs.Prelude.{◌≡◌, ◌<◌, ◌≤◌, ◌+◌, ◌^◌, ◌∷◌, [], suc, drop, length, nat_eq, take, IfNone, IfSome};
ghost use Rattle.std.specs.List.{position};
ghost use Rattle.witness_check.specs.Forms.{broken, read_one, whole};
ghost use Rattle.witness_check.specs.Lines.{version_line};
ghost use Rattle.witness_check.specs.Splitting.{lines_of};

use crate::row::read_version;
use std::marker::Model;

// The lines of a text after the first one, which is the line of the version: those that are left, and how many were taken.
#[derive(Drop)]
pub(crate) struct Lines<'a> {
    rest: &'a [u8],
    taken: u32,
}

impl<'a> Model for Lines<'a> {
    ghost use Rattle.std.specs.Prelude.{◌<◌, ◌+◌, ◌^◌, length};
    ghost use Rattle.witness_check.specs.Passing.{Lines as Shown};
    ghost use Rattle.witness_check.specs.Splitting.{lines_of};

    ghost Value = { Shown };

    ghost view = { λ l. record { taken = l.taken; left = lines_of l.rest.now } };

    ghost invariant = { λ l. l.taken + length l.rest.now + 1 < 2 ^ 32 };
}

// Where the first line feed stands.
fn feed(text: &[u8]) -> Option<usize>
    ensures { result ≡ position (λ byte. nat_eq byte 10) text.now }
{
    text.iter().position(|byte| *byte == b'\n')
}

// Where the first line ends.
#[tactic(auto, using(crate::proofs::LinesTaken::fed, crate::proofs::LinesTaken::unfed))]
fn line_end(text: &[u8]) -> usize
    requires { 0 < length text.now }
    ensures cut { lines_of text.now ≡ take result text.now ∷ lines_of (drop result text.now) }
    ensures some { 0 < result }
    ensures within { result ≤ length text.now }
{
    match feed(text) {
        Some(at) => at + 1,
        None => text.len(),
    }
}

// The first line of a text, and what follows it.
fn cut(text: &[u8]) -> Option<(&[u8], &[u8])>
    ensures none { IfNone result (lines_of text.now ≡ []) }
    ensures some { IfSome result (λ cut. lines_of text.now ≡ cut.0.now ∷ lines_of cut.1.now) }
    ensures size { IfSome result (λ cut. length cut.0.now + length cut.1.now ≡ length text.now) }
    ensures longer { IfSome result (λ cut. 0 < length cut.0.now) }
{
    if text.is_empty() {
        return None;
    }
    Some(text.split_at(line_end(text)))
}

impl<'a> Lines<'a> {
    // The lines after the first one, if this is the line of the version.
    pub(crate) fn of(text: &'a [u8]) -> Option<Lines<'a>>
        requires { length text.now < 2 ^ 32 }
        ensures some { IfSome result (λ lines. (read_one version_line (lines_of text.now) ≡ whole 1 lines.left) × (lines.taken ≡ 1)) }
        ensures none { IfNone result (read_one version_line (lines_of text.now) ≡ broken 1 0) }
    {
        let (line, rest) = cut(text)?;
        if !read_version(line) {
            return None;
        }
        Some(Lines { rest, taken: 1 })
    }

    // The next line, if there is one, with its line feed if it has one. Linear in the line.
    pub(crate) fn next(&mut self) -> Option<&'a [u8]>
        ensures none { IfNone result (self.old.left ≡ []) }
        ensures kept { IfNone result (self.new ≡ self.old) }
        ensures some { IfSome result (λ line. self.old.left ≡ line.now ∷ self.new.left) }
        ensures taken { IfSome result (λ line. self.new.taken ≡ suc self.old.taken) }
    {
        let (line, rest) = cut(self.rest)?;
        self.rest = rest;
        self.taken += 1;
        Some(line)
    }

    // The number of the next line, counted from 1.
    pub(crate) fn number(&self) -> u32
        ensures value { result ≡ suc self.now.taken }
        ensures few { self.now.taken + length self.now.left + 1 < 2 ^ 32 }
    {
        self.taken + 1
    }
}
