// What is decided of a book, and the answer of the command `decide`.
ghost use Rattle.std.specs.Prelude.{◌≡◌, ◌≤◌, true, length, IfOk};
ghost use Rattle.page_surface.specs.Drawing.{all_exits};
ghost use Rattle.drawing.specs.Points.{generators as generators_of};
ghost use Rattle.region_table.specs.Table.{IsTableOf};
ghost use Rattle.witness_check.specs.Belonging.{IsFirstDrawing};
ghost use Rattle.witness_check.specs.Text.{certificate_text};
ghost use Rattle.obd_doc.specs.Document.{IsBook};
ghost use Rattle.obd_cli.specs.Opened.{open_book};
ghost use Rattle.obd_cli.specs.Answers.{has_text};
ghost use Rattle.obd_cli.specs.Decisions.{DecidesDrawing, DecidesWords, Tells, over_budget, over_limit, stopped, stopped_last};
ghost use Rattle.obd_cli.specs.Sample.{HasFewCrossings};
ghost use Rattle.obd_cli.specs.Steps.{AreDrawings, IsSurfaceOf};
ghost use Rattle.obd_cli.specs.Words.{book_words as words_of_book};
ghost use Rattle.obd_cli.specs.declared.decide.Decision.TheVariants.{Stopped};

use crate::certify::certify;
use crate::drawn::drawn;
use crate::moves::{Moved, moved_to_nice};
use crate::page::too_long;
use crate::refused::put_number_line;
use crate::status::{Answer, Status};
use crate::surface::Surface;
use drawing::Drawing;
use generator_list::{Generators, ListRefusal, list};
use monodromy::MonodromyRefusal;
use nice_plan::PlanRefusal;
use obd_base::{NoMemory, Text};
use obd_doc::Book;
use region_table::Regions;
use std::alloc::Global;
use witness_check::{Certificate, print, put_line};

/// What is decided of a book: its certificate, or the answer that stands in its place.
#[derive(Drop)]
pub(crate) enum Decision {
    Certified(Certificate),
    Stopped(Answer),
}

// That a book's strategy takes more fingers than its limit, by the limit and the weight that is left.
fn over_budget(alloc: Global, limit: u32, weight: u64) -> Result<Decision, NoMemory>
    ensures { IfOk result (λ decision. decision ≡ Stopped (over_budget limit weight)) }
{
    let mut text = Text::new(alloc);
    put_number_line(&mut text, "move-budget", &[u64::from(limit), weight])?;
    Ok(Decision::Stopped(Answer {
        status: Status::MoveBudget,
        text,
    }))
}

// That a book's last drawing has more generators than its limit, by the limit and one.
fn over_limit(alloc: Global, over: u32) -> Result<Decision, NoMemory>
    ensures { IfOk result (λ decision. decision ≡ Stopped (over_limit over)) }
{
    let mut text = Text::new(alloc);
    put_line(&mut text, "generator-limit", &[over])?;
    Ok(Decision::Stopped(Answer {
        status: Status::GeneratorLimit,
        text,
    }))
}

// What is decided of a last drawing with no more generators than the book's limit.
fn listed(
    alloc: Global,
    book: &Book,
    surface: &Surface,
    moved: Moved,
    regions: &Regions,
    generators: &Generators,
) -> Result<Decision, NoMemory>
    requires surface { IsSurfaceOf book.now surface.now }
    requires most_moves { book.now.limits.moves ≤ 20000 }
    requires most_generators { book.now.limits.generators ≤ 20000 }
    requires drawings { AreDrawings book.now surface.now moved }
    requires moves { length moved.fingers ≤ book.now.limits.moves }
    requires table { IsTableOf moved.last regions.now }
    requires generators { generators.now ≡ generators_of moved.last }
    requires within { length generators.now ≤ book.now.limits.generators }
    ensures { IfOk result (DecidesDrawing book.now (stopped_last book.now.limits.generators moved.last)) }
{
    let certificate = certify(alloc, book, surface, moved, regions, generators)?;
    Ok(Decision::Certified(certificate))
}

// What is decided of the last drawing, to which the fingers lead, with its table of regions.
fn decided_last(
    alloc: Global,
    book: &Book,
    surface: &Surface,
    moved: Moved,
    regions: &Regions,
) -> Result<Decision, NoMemory>
    requires surface { IsSurfaceOf book.now surface.now }
    requires most_moves { book.now.limits.moves ≤ 20000 }
    requires most_generators { book.now.limits.generators ≤ 20000 }
    requires drawings { AreDrawings book.now surface.now moved }
    requires moves { length moved.fingers ≤ book.now.limits.moves }
    requires table { IsTableOf moved.last regions.now }
    ensures { IfOk result (DecidesDrawing book.now (stopped_last book.now.limits.generators moved.last)) }
{
    match list(alloc, moved.last.drawing(), book.limits.generators) {
        Ok(generators) => listed(alloc, book, surface, moved, regions, &generators),
        Err(ListRefusal::GeneratorLimit { over }) => over_limit(alloc, over),
        Err(ListRefusal::NoMemory) => Err(NoMemory),
    }
}

// What is decided of a first drawing.
fn decided_drawing(
    alloc: Global,
    book: &Book,
    surface: &Surface,
    drawing: Drawing,
) -> Result<Decision, NoMemory>
    requires surface { IsSurfaceOf book.now surface.now }
    requires most_moves { book.now.limits.moves ≤ 20000 }
    requires most_generators { book.now.limits.generators ≤ 20000 }
    requires first { IsFirstDrawing (open_book book.now) surface.now.slid drawing.drawing }
    requires few { length (all_exits drawing.drawing) ≤ 4000 }
    ensures { IfOk result (DecidesDrawing book.now (stopped book.now.limits drawing.drawing)) }
{
    let mut regions = Regions::of(alloc, &drawing)?;
    match moved_to_nice(alloc, drawing, &mut regions, book.limits.moves) {
        Ok(moved) => decided_last(alloc, book, surface, moved, &regions),
        Err(PlanRefusal::MoveBudget { limit, weight }) => over_budget(alloc, limit, weight),
        Err(PlanRefusal::NoMemory) => Err(NoMemory),
    }
}

/// What is decided of a book on its surface: its certificate, where the strategy takes no more fingers and the last
/// drawing has no more generators than the book's limits; else the answer with the line of the first of these that fails, or
/// before them TooLong as for `page`. The cost is that of `monodromy::drawn`, of `Regions::of`, of `nice_plan::make_nice`,
/// of `list`, of `columns` and of `eliminate`.
pub(crate) fn decided(alloc: Global, book: &Book, surface: &Surface) -> Result<Decision, NoMemory>
    requires valid { IsBook book.now }
    requires surface { IsSurfaceOf book.now surface.now }
    requires most_moves { book.now.limits.moves ≤ 20000 }
    requires most_generators { book.now.limits.generators ≤ 20000 }
    ensures decided { IfOk result (DecidesWords book.now surface.now.slid (words_of_book book.now surface.now.slid)) }
    ensures few { IfOk result HasFewCrossings }
{
    match drawn(alloc, book, surface) {
        Ok(drawing) => decided_drawing(alloc, book, surface, drawing),
        Err(MonodromyRefusal::TooLong(long)) => Ok(Decision::Stopped(too_long(alloc, long)?)),
        Err(MonodromyRefusal::NoMemory) => Err(NoMemory),
    }
}

// The answer with a certificate.
fn certified(alloc: Global, certificate: &Certificate) -> Result<Answer, NoMemory>
    ensures { IfOk result (λ answer. answer ≡ record { status = Status.Done; text = certificate_text certificate.now }) }
{
    Ok(Answer {
        status: Status::Done,
        text: print(alloc, certificate)?,
    })
}

/// The answer of `decide` to a book on its surface: its certificate, or what stands in its place. The cost is that of `decided`,
/// and linear in the text.
pub(crate) fn decide_answer(
    alloc: Global,
    book: &Book,
    surface: &Surface,
) -> Result<Answer, NoMemory>
    requires valid { IsBook book.now }
    requires surface { IsSurfaceOf book.now surface.now }
    requires most_moves { book.now.limits.moves ≤ 20000 }
    requires most_generators { book.now.limits.generators ≤ 20000 }
    ensures answered { IfOk result (Tells certificate_text book.now surface.now.slid) }
    ensures settled { IfOk result (λ answer. has_text answer.status ≡ true) }
{
    match decided(alloc, book, surface)? {
        Decision::Certified(certificate) => certified(alloc, &certificate),
        Decision::Stopped(answer) => Ok(answer),
    }
}
