// A text, read as a certificate.
ghost use Rattle.std.specs.Prelude.{◌≡◌, ◌<◌, ◌^◌, ℕ, [], suc, true, length, IfErr, IfOk};
ghost use Rattle.witness_check.specs.Forms.{whole};
ghost use Rattle.witness_check.specs.Grammar.{BreaksAfter, certificate_of, drawn_form, fits, outcome_form};
ghost use Rattle.witness_check.specs.Parsing.{book_fields, drawn_fields, joined_fields, outcome_fields};
ghost use Rattle.witness_check.specs.Passing.{Breaks, EndsAt, SectionRead};
ghost use Rattle.witness_check.specs.Stages.{polygons_on, seams_on};
ghost use Rattle.witness_check.specs.Text.{certificate_text};
ghost use Rattle.witness_check.specs.declared.parsing.ParseRefusal.TheVariants as refused;

use crate::certificate::Certificate;
use crate::checked::Reason;
use crate::entries::ContactLine;
use crate::fault::Refusal;
use crate::lines::Lines;
use crate::taking::{
    next_basis, next_contact, next_end, next_homology, next_list, next_number, next_rows,
    next_seams, next_verdict,
};
use curve_paths::{NamedPath, NamedTwist};
use drawing::Finger;
use mod2_rank::{Pivot, Verdict};
use obd_base::{ArcNo, Exit, Items, Name, SideNo};
use std::alloc::Global;

// The fields from the pivots on.
#[derive(Drop)]
pub(crate) struct OutcomeLines {
    pivots: Items<Pivot>,
    rank: u32,
    homology: i32,
    verdict: Verdict,
}

// The fields from the strands on.
#[derive(Drop)]
pub(crate) struct DrawnLines {
    strands: Items<Items<Exit>>,
    fingers: Items<Finger>,
    finals: Items<Items<Exit>>,
    generators: u32,
    contact: ContactLine,
    outcome: OutcomeLines,
}

// The fields from the seams on.
#[derive(Drop)]
pub(crate) struct JoinedLines {
    seams: Items<Name>,
    basis: Items<ArcNo>,
    drawn: DrawnLines,
}

// The fields from the polygons on.
#[derive(Drop)]
pub(crate) struct BookLines {
    polygons: Items<Items<Name>>,
    curves: Items<NamedPath>,
    slides: Items<SideNo>,
    twists: Items<NamedTwist>,
    joined: JoinedLines,
}

// The lines from the pivots on.
fn read_outcome(alloc: Global, lines: &mut Lines) -> Result<OutcomeLines, Refusal>
    ensures read { IfOk result (λ outcome. SectionRead outcome_form lines.old lines.new (outcome_fields outcome)) }
    ensures breaks { IfErr result (Breaks outcome_form lines.old) }
{
    let pivots = next_list::<Pivot>(alloc, lines, "pivots", "pivot")?;
    let rank = next_number(lines, "rank")?;
    let homology = next_homology(lines)?;
    let verdict = next_verdict(alloc, lines)?;
    next_end(lines)?;
    Ok(OutcomeLines {
        pivots,
        rank,
        homology,
        verdict,
    })
}

// The lines from the strands on, with so many strands.
fn read_drawn(alloc: Global, lines: &mut Lines, count: u32) -> Result<DrawnLines, Refusal>
    ensures read { IfOk result (λ drawn. SectionRead (drawn_form count) lines.old lines.new (drawn_fields drawn)) }
    ensures breaks { IfErr result (Breaks (drawn_form count) lines.old) }
{
    let strands = next_rows::<Items<Exit>>(alloc, lines, "strand", count)?;
    let fingers = next_list::<Finger>(alloc, lines, "fingers", "finger")?;
    let finals = next_rows::<Items<Exit>>(alloc, lines, "final", count)?;
    let generators = next_number(lines, "generators")?;
    let contact = next_contact(alloc, lines, count)?;
    let outcome = read_outcome(alloc, lines)?;
    Ok(DrawnLines {
        strands,
        fingers,
        finals,
        generators,
        contact,
        outcome,
    })
}

// The lines from the seams on.
fn read_joined(alloc: Global, lines: &mut Lines) -> Result<JoinedLines, Refusal>
    ensures read { IfOk result (λ joined. SectionRead seams_on lines.old lines.new (joined_fields joined)) }
    ensures breaks { IfErr result (Breaks seams_on lines.old) }
{
    let seams = next_seams(alloc, lines)?;
    let basis = next_basis(alloc, lines)?;
    let drawn = read_drawn(alloc, lines, (basis.len() / 2) as u32)?;
    Ok(JoinedLines {
        seams,
        basis,
        drawn,
    })
}

// The lines from the polygons on.
fn read_book(alloc: Global, lines: &mut Lines) -> Result<BookLines, Refusal>
    ensures read { IfOk result (λ book. SectionRead polygons_on lines.old lines.new (book_fields book)) }
    ensures breaks { IfErr result (Breaks polygons_on lines.old) }
{
    let polygons = next_list::<Items<Name>>(alloc, lines, "polygons", "polygon")?;
    let curves = next_list::<NamedPath>(alloc, lines, "curves", "curve")?;
    let slides = next_list::<SideNo>(alloc, lines, "slides", "slide")?;
    let twists = next_list::<NamedTwist>(alloc, lines, "twists", "twist")?;
    let joined = read_joined(alloc, lines)?;
    Ok(BookLines {
        polygons,
        curves,
        slides,
        twists,
        joined,
    })
}

/// Why a text is no certificate's.
#[derive(Clone, Copy, Debug, PartialEq, Eq)]
pub enum ParseRefusal {
    /// A line, counted from 1, is the first that lacks its form, or that follows the last line.
    Form { line: u32 },
    /// Memory is wanting.
    NoMemory,
}

impl From<Refusal> for ParseRefusal {
    ghost use Rattle.witness_check.specs.Parsing.{parse_refusal};

    ghost from_gives = { λ refusal result. result ≡ parse_refusal refusal };

    fn from(refusal: Refusal) -> Self {
        match refusal {
            Refusal::Bad { line, .. } => ParseRefusal::Form { line },
            Refusal::NoMemory => ParseRefusal::NoMemory,
        }
    }
}

// The lines from the polygons on, and no further ones.
fn read_all(alloc: Global, lines: &mut Lines) -> Result<BookLines, Refusal>
    ensures read { IfOk result (λ book. polygons_on.read lines.old.left ≡ whole (book_fields book) []) }
    ensures breaks { IfErr result (EndsAt polygons_on lines.old) }
{
    let book = read_book(alloc, lines)?;
    let line = lines.number();
    match lines.next() {
        None => Ok(book),
        Some(_) => Err(Refusal::Bad {
            line,
            reason: Reason::Form,
        }),
    }
}

/// The certificate whose text this is; and otherwise `Form` names the first line that lacks its form. Of the rules of the lines, which
/// `check` tries, it tries none. Linear in the text.
pub fn parse(alloc: Global, text: &[u8]) -> Result<Certificate, ParseRefusal>
    requires { length text.now < 2 ^ 32 }
    ensures ok { IfOk result (λ c. (fits c ≡ true) × (text.now ≡ certificate_text c)) }
    ensures form { IfErr result (λ refusal. (line : ℕ) → refusal ≡ refused.Form line → (n : ℕ) × (line ≡ suc n) × BreaksAfter text.now n) }
{
    let Some(mut lines) = Lines::of(text) else {
        return Err(ParseRefusal::Form { line: 1 });
    };
    let book = read_all(alloc, &mut lines)?;
    Ok(certificate_of(book))
}

// The certificate with these fields.
fn certificate_of(book: BookLines) -> Certificate
    ensures { result ≡ certificate_of (1, book_fields book) }
{
    let BookLines {
        polygons,
        curves,
        slides,
        twists,
        joined,
    } = book;
    let JoinedLines {
        seams,
        basis,
        drawn,
    } = joined;
    let DrawnLines {
        strands,
        fingers,
        finals,
        generators,
        contact,
        outcome,
    } = drawn;
    Certificate {
        version: 1,
        polygons,
        curves,
        slides,
        twists,
        seams,
        basis,
        strands,
        fingers,
        finals,
        generators,
        contact: contact.number,
        points: contact.points,
        pivots: outcome.pivots,
        rank: outcome.rank,
        homology: outcome.homology,
        verdict: outcome.verdict,
    }
}
