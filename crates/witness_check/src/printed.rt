// The text of a certificate, line by line.
ghost use Rattle.std.specs.Prelude.{◌≡◌, ◌++◌, List, ℕ, [], ◌∷◌, decimal, map, OnOk, IfOk, codes, length};
ghost use Rattle.std.specs.Fmt.{signed_decimal};
ghost use Rattle.witness_check.specs.Line.{line, lines, spaced};
ghost use Rattle.witness_check.specs.Text.{certificate_text, cross_text, drawing_text, finger_words, monodromy_text, outcome_text, page_text, path_words, pivot_words, polygon_words, slide_words, twist_words, verdict_line};

use crate::certificate::Certificate;
use crate::line::{
    Entry, Word, put_count, put_line, put_list, put_number, put_numbered, put_rows, put_signed,
    put_words,
};
use curve_paths::{Cross, NamedPath, NamedTwist};
use drawing::Finger;
use mod2_rank::{Pivot, Verdict};
use obd_base::{Items, Name, NoMemory, SideNo, Text};
use std::alloc::Global;

impl Word for Cross {
    ghost word = { cross_text };

    fn put_word(&self, text: &mut Text) -> Result<(), NoMemory> {
        self.label.put_word(text)?;
        text.put(":")?;
        text.put_number(u64::from(self.occurrence))?;
        text.put(":")?;
        self.place.put_word(text)
    }
}

impl Entry for NamedPath {
    ghost words = { path_words };

    fn put_entry(&self, text: &mut Text) -> Result<(), NoMemory> {
        text.put(" ")?;
        self.name.put_word(text)?;
        put_words(text, self.path.as_slice())
    }
}

impl Entry for SideNo {
    ghost words = { slide_words };

    fn put_entry(&self, text: &mut Text) -> Result<(), NoMemory> {
        text.put(" ")?;
        self.put_word(text)
    }
}

impl Entry for NamedTwist {
    ghost words = { twist_words };

    fn put_entry(&self, text: &mut Text) -> Result<(), NoMemory> {
        text.put(" ")?;
        self.name.put_word(text)?;
        text.put(" ")?;
        text.put_signed(i64::from(self.power))
    }
}

impl Entry for Finger {
    ghost words = { finger_words };

    fn put_entry(&self, text: &mut Text) -> Result<(), NoMemory> {
        put_words(
            text,
            &[
                self.strand.number(),
                self.chord,
                self.side.number(),
                self.segment,
            ],
        )
    }
}

impl Entry for Pivot {
    ghost words = { pivot_words };

    fn put_entry(&self, text: &mut Text) -> Result<(), NoMemory> {
        put_words(text, &[self.column, self.row])
    }
}

// A line for each polygon, with its labels.
#[tactic(auto, unfolding(crate::specs::Line::lines))]
fn put_polygons(text: &mut Text, polygons: &[Items<Name>]) -> Result<(), NoMemory>
    ensures { OnOk result (text.new ≡ text.old ++ lines (codes "polygon") polygon_words polygons.now) }
{
    for labels in polygons {
        put_line(text, "polygon", labels.as_slice())?;
    }
    Ok(())
}

// The lines of the version and the polygons.
#[tactic(auto, unfolding(crate::specs::Line::listed))]
fn put_page(text: &mut Text, certificate: &Certificate) -> Result<(), NoMemory>
    ensures { OnOk result (text.new ≡ text.old ++ page_text certificate.now) }
{
    let polygons = certificate.polygons.as_slice();
    put_number(text, "contact certificate", certificate.version)?;
    put_count(text, "polygons", polygons.len() as u64)?;
    put_polygons(text, polygons)
}

// The lines of the curves, the slides and the twists.
fn put_monodromy(text: &mut Text, certificate: &Certificate) -> Result<(), NoMemory>
    ensures { OnOk result (text.new ≡ text.old ++ monodromy_text certificate.now) }
{
    put_list(text, "curves", "curve", &certificate.curves)?;
    put_list(text, "slides", "slide", &certificate.slides)?;
    put_list(text, "twists", "twist", &certificate.twists)
}

// The lines from the seams to the contact generator.
fn put_drawing(text: &mut Text, certificate: &Certificate) -> Result<(), NoMemory>
    ensures { OnOk result (text.new ≡ text.old ++ drawing_text certificate.now) }
{
    let seams = certificate.seams.as_slice();
    put_numbered(text, "seams", seams.len() as u64, seams)?;
    put_line(text, "basis", certificate.basis.as_slice())?;
    put_rows(text, "strand", certificate.strands.as_slice())?;
    put_list(text, "fingers", "finger", &certificate.fingers)?;
    put_rows(text, "final", certificate.finals.as_slice())?;
    put_number(text, "generators", certificate.generators)?;
    let contact = u64::from(certificate.contact.number());
    put_numbered(text, "contact", contact, certificate.points.as_slice())
}

// The line `zero` or `nonzero`.
fn put_verdict(text: &mut Text, verdict: &Verdict) -> Result<(), NoMemory>
    ensures { OnOk result (text.new ≡ text.old ++ verdict_line verdict.now) }
{
    match verdict {
        Verdict::Chain(columns) => put_line(text, "zero", columns.as_slice()),
        Verdict::Functional(rows) => put_line(text, "nonzero", rows.as_slice()),
    }
}

// The lines from the pivots to the end.
fn put_outcome(text: &mut Text, certificate: &Certificate) -> Result<(), NoMemory>
    ensures { OnOk result (text.new ≡ text.old ++ outcome_text certificate.now) }
{
    put_list(text, "pivots", "pivot", &certificate.pivots)?;
    put_number(text, "rank", certificate.rank)?;
    put_signed(text, "homology", certificate.homology)?;
    put_verdict(text, &certificate.verdict)?;
    put_line::<u32>(text, "end", &[])
}

/// The text of a certificate: one line after another. Linear in the text.
pub fn print(alloc: Global, certificate: &Certificate) -> Result<Text, NoMemory>
    ensures { IfOk result (λ text. text ≡ certificate_text certificate.now) }
{
    let mut text = Text::new(alloc);
    put_page(&mut text, certificate)?;
    put_monodromy(&mut text, certificate)?;
    put_drawing(&mut text, certificate)?;
    put_outcome(&mut text, certificate)?;
    Ok(text)
}
