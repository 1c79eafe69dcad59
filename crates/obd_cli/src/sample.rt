// The command `sample`: a book on the torus from a seed, and the summary of its certificate.
ghost use Rattle.std.specs.Prelude.{◌≡◌, ◌<◌, ◌≤◌, ◌++◌, [], ◌∷◌, true, length, IfOk, OnOk};
ghost use Rattle.std.specs.List.{flat_map};
ghost use Rattle.witness_check.specs.Checked.{answer_of};
ghost use Rattle.obd_doc.specs.Document.{IsBook};
ghost use Rattle.obd_cli.specs.Answers.{has_text};
ghost use Rattle.obd_cli.specs.Decisions.{Tells};
ghost use Rattle.obd_cli.specs.Sample.{answer_lines, around, crossings, entry, next, question_lines, sample_book, sample_curves, sample_twists, size_lines, summary, torus};
ghost use Rattle.obd_cli.specs.Steps.{IsSurfaceOf};

use crate::check_command::answer_word;
use crate::decide::{Decision, decided};
use crate::refused::put_number_line;
use crate::status::{Answer, Status};
use crate::surface::Surface;
use curve_paths::{Cross, PageCurve, page_names};
use mod2_rank::Verdict;
use obd_base::{Exit, Items, Name, NoMemory, Text};
use obd_doc::{Book, Limits, NamedCurve, Twist};
use page_surface::Page;
use std::alloc::Global;
use witness_check::{Answer as Found, Certificate};

// The number after a number.
fn next(number: u32) -> u32
    requires { number < 65537 }
    ensures value { result ≡ next number }
    ensures small { result < 65537 }
{
    (75 * number + 74) % 65_537
}

// The entry of a twist word that two numbers give.
fn entry(about: u32, turned: u32) -> Twist
    ensures { result ≡ entry about turned }
{
    Twist {
        curve: about % 2,
        power: if turned % 4 == 0 { -1 } else { 1 },
    }
}

// The twist word of a seed with so many entries.
fn sample_twists(alloc: Global, seed: u16, count: u16) -> Result<Items<Twist>, NoMemory>
    ensures { IfOk result (λ twists. twists ≡ sample_twists seed count) }
{
    let mut twists = Items::new(alloc);
    let mut number = u32::from(seed);
    for _ in 0..count {
        let about = next(number);
        number = next(about);
        twists.push(entry(about, number))?;
    }
    Ok(twists)
}

// The torus A B A B.
fn torus(alloc: Global) -> Result<Page, NoMemory>
    ensures { IfOk result (λ page. page ≡ torus) }
{
    let mut sides = Vec::new(alloc);
    sides.push(String::from_str(alloc, "A")?)?;
    sides.push(String::from_str(alloc, "B")?)?;
    sides.push(String::from_str(alloc, "A")?)?;
    sides.push(String::from_str(alloc, "B")?)?;
    let mut polygons = Vec::new(alloc);
    polygons.push(sides)?;
    match Page::new(alloc, &polygons) {
        Ok(page) => Ok(page),
        Err(_) => Err(NoMemory),
    }
}

// The path that crosses a label once.
fn path_across(alloc: Global, label: &str) -> Result<Items<Cross>, NoMemory>
    ensures { IfOk result (λ path. path ≡ record { label = label.now; occurrence = 0; place = 0 } ∷ []) }
{
    let mut path = Items::new(alloc);
    path.push(Cross {
        label: Name::from_str(alloc, label)?,
        occurrence: 0,
        place: 0,
    })?;
    Ok(path)
}

// The curve of a name on the torus that crosses one label once.
fn around(alloc: Global, page: &Page, name: &str, label: &str) -> Result<NamedCurve, NoMemory>
    requires { page.now ≡ torus }
    ensures { IfOk result (λ curve. curve ≡ around name.now label.now) }
{
    let path = path_across(alloc, label)?;
    let name = Name::from_str(alloc, name)?;
    match PageCurve::new(alloc, page, path.as_slice()) {
        Ok(curve) => Ok(NamedCurve { name, path, curve }),
        Err(_) => Err(NoMemory),
    }
}

// The curves a and b.
fn sample_curves(alloc: Global, page: &Page) -> Result<Items<NamedCurve>, NoMemory>
    requires { page.now ≡ torus }
    ensures { IfOk result (λ curves. curves ≡ sample_curves) }
{
    let mut curves = Items::new(alloc);
    curves.push(around(alloc, page, "a", "A")?)?;
    curves.push(around(alloc, page, "b", "B")?)?;
    Ok(curves)
}

/// The book of the sample of a seed with so many twists. Linear in the twists.
#[tactic(auto, unfolding(crate::specs::Sample::sample_book))]
pub(crate) fn sample_book(alloc: Global, seed: u16, twists: u16) -> Result<Book, NoMemory>
    ensures { IfOk result (λ book. book ≡ sample_book seed twists) }
{
    let page = torus(alloc)?;
    let polygons = page_names(alloc, &page)?;
    let curves = sample_curves(alloc, &page)?;
    let twists = sample_twists(alloc, seed, twists)?;
    Ok(Book {
        polygons,
        page,
        curves,
        twists,
        slides: Items::new(alloc),
        limits: Limits {
            moves: 20_000,
            generators: 20_000,
        },
    })
}

// The number of the exits of some strands.
fn exit_count(strands: &[Items<Exit>]) -> u64
    requires { length (flat_map (λ strand. strand) strands.now) ≤ 4000 }
    ensures { result ≡ length (flat_map (λ strand. strand) strands.now) }
{
    let mut count = 0;
    for strand in strands {
        count += strand.len() as u64;
    }
    count
}

// The answer that a verdict gives.
fn answer_of(verdict: &Verdict) -> Found
    ensures { result ≡ answer_of verdict.now }
{
    match verdict {
        Verdict::Chain(_) => Found::Zero,
        Verdict::Functional(_) => Found::Nonzero,
    }
}

// Appends the lines that tell which sample it is.
fn put_question(text: &mut Text, seed: u16, twists: u16) -> Result<(), NoMemory>
    ensures { OnOk result (text.new ≡ text.old ++ question_lines seed twists) }
{
    put_number_line(text, "sample", &[u64::from(seed)])?;
    put_number_line(text, "arcs", &[2])?;
    put_number_line(text, "twists", &[u64::from(twists)])
}

// Appends the lines of the sizes of a certificate's drawings and of its complex.
fn put_sizes(text: &mut Text, certificate: &Certificate) -> Result<(), NoMemory>
    requires { crossings certificate.now ≤ 4000 }
    ensures { OnOk result (text.new ≡ text.old ++ size_lines certificate.now) }
{
    let crossings = exit_count(certificate.strands.as_slice());
    put_number_line(text, "crossings", &[crossings])?;
    put_number_line(text, "moves", &[certificate.fingers.len() as u64])?;
    put_number_line(text, "generators", &[u64::from(certificate.generators)])?;
    put_number_line(text, "rank", &[u64::from(certificate.rank)])
}

// Appends the lines of what is left of a certificate's complex, and of its answer.
#[tactic(auto, unfolding(witness_check::specs::Line::line))]
fn put_answer(text: &mut Text, certificate: &Certificate) -> Result<(), NoMemory>
    ensures { OnOk result (text.new ≡ text.old ++ answer_lines certificate.now) }
{
    text.put("homology ")?;
    text.put_signed(i64::from(certificate.homology))?;
    text.put("\n")?;
    text.put(answer_word(answer_of(&certificate.verdict)))?;
    text.put("\n")
}

// The summary of a certificate, as that of a sample.
#[tactic(auto, unfolding(crate::specs::Sample::summary))]
fn summary(
    alloc: Global,
    seed: u16,
    twists: u16,
    certificate: &Certificate,
) -> Result<Answer, NoMemory>
    requires { crossings certificate.now ≤ 4000 }
    ensures { IfOk result (λ answer. answer ≡ record { status = Status.Done; text = summary seed twists certificate.now }) }
{
    let mut text = Text::new(alloc);
    put_question(&mut text, seed, twists)?;
    put_sizes(&mut text, certificate)?;
    put_answer(&mut text, certificate)?;
    Ok(Answer {
        status: Status::Done,
        text,
    })
}

/// The summary of a book on its surface, as that of the sample of a seed with so many twists; or what stands in place of the
/// book's certificate. The cost is that of `decided`, and linear in the exits of the first drawing.
pub(crate) fn sample_answer(
    alloc: Global,
    seed: u16,
    twists: u16,
    book: &Book,
    surface: &Surface,
) -> Result<Answer, NoMemory>
    requires valid { IsBook book.now }
    requires surface { IsSurfaceOf book.now surface.now }
    requires most_moves { book.now.limits.moves ≤ 20000 }
    requires most_generators { book.now.limits.generators ≤ 20000 }
    ensures answered { IfOk result (Tells (summary seed twists) book.now surface.now.slid) }
    ensures settled { IfOk result (λ answer. has_text answer.status ≡ true) }
{
    match decided(alloc, book, surface)? {
        Decision::Certified(certificate) => summary(alloc, seed, twists, &certificate),
        Decision::Stopped(answer) => Ok(answer),
    }
}
