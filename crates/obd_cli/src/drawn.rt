// The first drawing of a book.
ghost use Rattle.std.specs.Prelude.{◌≡◌, ◌≤◌, length, Ok, Err, IfOk, IfErr};
ghost use Rattle.page_surface.specs.Drawing.{all_exits, words};
ghost use Rattle.curve_paths.specs.declared.twist.TooLong.{TooLong};
ghost use Rattle.witness_check.specs.Belonging.{IsFirstDrawing};
ghost use Rattle.obd_doc.specs.Document.{IsBook};
ghost use Rattle.obd_cli.specs.Opened.{open_book};
ghost use Rattle.obd_cli.specs.Decisions.{drawing_of};
ghost use Rattle.obd_cli.specs.Steps.{IsSurfaceOf};
ghost use Rattle.obd_cli.specs.Words.{book_words as words_of_book};

use crate::surface::Surface;
use drawing::Drawing;
use monodromy::MonodromyRefusal;
use obd_doc::Book;
use std::alloc::Global;

/// The first drawing of a book on its surface: the images of the arc basis after the book's twist word, drawn tight. Its
/// cost is that of `monodromy::drawn`.
pub(crate) fn drawn(
    alloc: Global,
    book: &Book,
    surface: &Surface,
) -> Result<Drawing, MonodromyRefusal>
    requires valid { IsBook book.now }
    requires surface { IsSurfaceOf book.now surface.now }
    ensures first { IfOk result (λ drawing. IsFirstDrawing (open_book book.now) surface.now.slid drawing.drawing) }
    ensures words { IfOk result (λ drawing. words_of_book book.now surface.now.slid ≡ Ok (words drawing.drawing)) }
    ensures few { IfOk result (λ drawing. length (all_exits drawing.drawing) ≤ 4000) }
    ensures tight { IfOk result (λ drawing. drawing.drawing ≡ drawing_of surface.now.slid (words drawing.drawing)) }
    ensures long { IfErr result (λ refusal. (long : TooLong) → refusal ≡ MonodromyRefusal.TooLong long → words_of_book book.now surface.now.slid ≡ Err long) }
{
    let polygon = &surface.slid.polygon;
    let curves = surface.slid.curves.as_slice();
    monodromy::drawn(alloc, polygon, curves, book.twists.as_slice())
}
