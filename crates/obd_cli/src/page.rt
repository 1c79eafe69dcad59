// The answer of the command `page`.
ghost use Rattle.std.specs.Prelude.{◌≡◌, ◌++◌, true, Ok, IfOk, OnOk};
ghost use Rattle.page_surface.specs.Drawing.{words};
ghost use Rattle.obd_doc.specs.Document.{IsBook};
ghost use Rattle.obd_cli.specs.Answers.{has_text, page_answer};
ghost use Rattle.obd_cli.specs.Decisions.{refused_with};
ghost use Rattle.obd_cli.specs.Steps.{IsSurfaceOf};
ghost use Rattle.obd_cli.specs.Words.{book_words as words_of_book, lines_of, long_line, words_text};

use crate::drawn::drawn;
use crate::refused::put_refused;
use crate::status::{Answer, Status};
use crate::surface::Surface;
use curve_paths::TooLong;
use drawing::Drawing;
use monodromy::MonodromyRefusal;
use obd_base::{ArcNo, Items, Name, NoMemory, SideNo, Text};
use obd_doc::Book;
use std::alloc::Global;
use witness_check::{put_line, put_numbered, put_rows};

// Appends the lines of the seams, the basis and the words.
fn put_page(
    text: &mut Text,
    seams: &[Name],
    arcs: &[ArcNo],
    words: &[Items<SideNo>],
) -> Result<(), NoMemory>
    ensures { OnOk result (text.new ≡ text.old ++ lines_of seams.now arcs.now words.now) }
{
    put_numbered(text, "seams", seams.len() as u64, seams)?;
    put_line(text, "basis", arcs)?;
    put_rows(text, "word", words)
}

// The text of `page`.
fn words_text(
    alloc: Global,
    book: &Book,
    surface: &Surface,
    words: &[Items<SideNo>],
) -> Result<Text, NoMemory>
    requires { IsSurfaceOf book.now surface.now }
    ensures { IfOk result (λ text. text ≡ words_text book.now surface.now.slid words.now) }
{
    let seams = surface.seam_names(alloc, &book.page)?;
    let arcs = surface.arcs(alloc)?;
    let mut text = Text::new(alloc);
    put_page(&mut text, seams.as_slice(), arcs.as_slice(), words)?;
    Ok(text)
}

// The answer that tells the words of a drawing.
fn worded(
    alloc: Global,
    book: &Book,
    surface: &Surface,
    drawing: &Drawing,
) -> Result<Answer, NoMemory>
    requires { IsSurfaceOf book.now surface.now }
    ensures { IfOk result (λ answer. answer ≡ page_answer book.now surface.now.slid (Ok (words drawing.now.drawing))) }
{
    let words = drawing.words(alloc)?;
    Ok(Answer {
        status: Status::Done,
        text: words_text(alloc, book, surface, words.as_slice())?,
    })
}

/// The answer to words that are too long.
pub(crate) fn too_long(alloc: Global, long: TooLong) -> Result<Answer, NoMemory>
    ensures { IfOk result (λ answer. answer ≡ refused_with (long_line long)) }
{
    let mut text = Text::new(alloc);
    put_refused(&mut text, 51, "TooLong", &[], &[long.twist, long.letters])?;
    Ok(Answer {
        status: Status::Refused,
        text,
    })
}

/// The answer of `page` to a book on its surface: the seams, the basis and the words of the strands, or TooLong, which says
/// after which entry of the twist word the words have more than 4,000 letters together.
pub(crate) fn paged(alloc: Global, book: &Book, surface: &Surface) -> Result<Answer, NoMemory>
    requires valid { IsBook book.now }
    requires surface { IsSurfaceOf book.now surface.now }
    ensures answered { IfOk result (λ answer. answer ≡ page_answer book.now surface.now.slid (words_of_book book.now surface.now.slid)) }
    ensures settled { IfOk result (λ answer. has_text answer.status ≡ true) }
{
    match drawn(alloc, book, surface) {
        Ok(drawing) => worded(alloc, book, surface, &drawing),
        Err(MonodromyRefusal::TooLong(long)) => too_long(alloc, long),
        Err(MonodromyRefusal::NoMemory) => Err(NoMemory),
    }
}
