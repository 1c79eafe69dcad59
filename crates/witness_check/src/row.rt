// Lines that say one thing each, read.
ghost use Rattle.std.specs.Prelude.{◌≡◌, List, ℕ, true, option_map, IfOk};
ghost use Rattle.witness_check.specs.Forms.{LineForm, has_form, value_in};
ghost use Rattle.witness_check.specs.Lines.{answer_line, basis_line, contact_line, curve_line, end_line, finger_line, homology_line, number_line, pivot_line, polygon_line, seams_line, strand_line, twist_line, version_line};
ghost use Rattle.witness_check.specs.Words.{is_word};

use crate::entries::{self, ContactLine};
use curve_paths::{NamedPath, NamedTwist};
use drawing::Finger;
use mod2_rank::{Pivot, Verdict};
use obd_base::{ArcNo, Exit, Items, Name, NoMemory, SideNo};
use std::alloc::Global;

/// What a line of its own says, one of many of its kind.
pub(crate) trait Row: Sized {
    /// The form of the line, by its kind and its number, where it has one.
    ghost form: { List ℕ → ℕ → LineForm Self };

    /// What a line says, `None` exactly where it lacks the form. The kind is one word. Linear in the line.
    fn read(alloc: Global, kind: &str, number: u32, line: &[u8]) -> Result<Option<Self>, NoMemory>
        requires { is_word kind.now ≡ true }
        ensures { IfOk result (λ found. found ≡ value_in (form kind.now number) line.now) };
}

impl Row for Items<Name> {
    ghost form = { λ _ _. polygon_line };

    #[tactic(auto, using(crate::proofs::LineReaders::polygon_read))]
    fn read(alloc: Global, _: &str, _: u32, line: &[u8]) -> Result<Option<Items<Name>>, NoMemory> {
        entries::polygon(alloc, line)
    }
}

impl Row for NamedPath {
    ghost form = { λ _ _. curve_line };

    #[tactic(auto, using(crate::proofs::LineReaders::curve_read))]
    fn read(alloc: Global, _: &str, _: u32, line: &[u8]) -> Result<Option<NamedPath>, NoMemory> {
        entries::curve(alloc, line)
    }
}

impl Row for SideNo {
    ghost form = { λ kind _. number_line kind };

    #[tactic(auto, using(crate::proofs::LineReaders::word_number_read))]
    fn read(_: Global, kind: &str, _: u32, line: &[u8]) -> Result<Option<SideNo>, NoMemory> {
        let Some(number) = entries::number(kind, line) else {
            return Ok(None);
        };
        Ok(Some(SideNo::new(number)))
    }
}

impl Row for NamedTwist {
    ghost form = { λ _ _. twist_line };

    #[tactic(auto, using(crate::proofs::LineReaders::twist_read))]
    fn read(alloc: Global, _: &str, _: u32, line: &[u8]) -> Result<Option<NamedTwist>, NoMemory> {
        entries::twist(alloc, line)
    }
}

impl Row for Items<Exit> {
    ghost form = { strand_line };

    #[tactic(auto, using(crate::proofs::LineReaders::word_strand_read))]
    fn read(
        alloc: Global,
        kind: &str,
        number: u32,
        line: &[u8],
    ) -> Result<Option<Items<Exit>>, NoMemory> {
        entries::strand(alloc, kind, number, line)
    }
}

impl Row for Finger {
    ghost form = { λ _ _. finger_line };

    #[tactic(auto, using(crate::proofs::LineReaders::finger_read))]
    fn read(_: Global, _: &str, _: u32, line: &[u8]) -> Result<Option<Finger>, NoMemory> {
        Ok(entries::finger(line))
    }
}

impl Row for Pivot {
    ghost form = { λ _ _. pivot_line };

    #[tactic(auto, using(crate::proofs::LineReaders::pivot_read))]
    fn read(_: Global, _: &str, _: u32, line: &[u8]) -> Result<Option<Pivot>, NoMemory> {
        Ok(entries::pivot(line))
    }
}

/// Whether a line is that of the version, which is 1. Linear in the line, as is each call below.
pub(crate) fn read_version(line: &[u8]) -> bool
    ensures { result ≡ has_form version_line line.now }
{
    entries::version(line).is_some()
}

/// The number of a line of a kind, which is one word.
#[tactic(auto, using(crate::proofs::LineReaders::word_number_read))]
pub(crate) fn read_number(kind: &str, line: &[u8]) -> Option<u32>
    requires { is_word kind.now ≡ true }
    ensures { result ≡ value_in (number_line kind.now) line.now }
{
    entries::number(kind, line)
}

/// The labels along which the polygons are joined.
#[tactic(auto, using(crate::proofs::LineReaders::seams_read))]
pub(crate) fn read_seams(alloc: Global, line: &[u8]) -> Result<Option<Items<Name>>, NoMemory>
    ensures { IfOk result (λ found. found ≡ value_in seams_line line.now) }
{
    entries::seams(alloc, line)
}

/// The arc of each side of the polygon after all slides.
#[tactic(auto, using(crate::proofs::LineReaders::basis_read))]
pub(crate) fn read_basis(alloc: Global, line: &[u8]) -> Result<Option<Items<ArcNo>>, NoMemory>
    ensures { IfOk result (λ found. found ≡ value_in basis_line line.now) }
{
    entries::basis(alloc, line)
}

/// The contact generator: its number, and the numbers of its points, so many of them.
#[tactic(auto, using(crate::proofs::LineReaders::contact_read))]
pub(crate) fn read_contact(
    alloc: Global,
    points: u32,
    line: &[u8],
) -> Result<Option<ContactLine>, NoMemory>
    ensures { IfOk result (λ found. option_map (λ c. (c.number, c.points)) found ≡ value_in (contact_line points) line.now) }
{
    entries::contact(alloc, points, line)
}

/// The number of generators less twice the rank, as the line has it.
#[tactic(auto, using(crate::proofs::LineReaders::homology_read))]
pub(crate) fn read_homology(line: &[u8]) -> Option<i32>
    ensures { result ≡ value_in homology_line line.now }
{
    entries::homology(line)
}

/// The columns or the rows of the verdict.
#[tactic(auto, using(crate::proofs::LineReaders::answer_read))]
pub(crate) fn read_verdict(alloc: Global, line: &[u8]) -> Result<Option<Verdict>, NoMemory>
    ensures { IfOk result (λ found. found ≡ value_in answer_line line.now) }
{
    entries::verdict(alloc, line)
}

/// Whether a line is the last one.
pub(crate) fn is_end(line: &[u8]) -> bool
    ensures { result ≡ has_form end_line line.now }
{
    entries::end(line).is_some()
}
