// A certificate's text, checked line by line.
ghost use Rattle.std.specs.Prelude.{◌≡◌, ◌<◌, ◌^◌, ℕ, List, length, IfErr, IfOk};
ghost use Rattle.witness_check.specs.Between.{AfterDrawing, AfterVersion, Refutes};
ghost use Rattle.witness_check.specs.Checked.{checked};
ghost use Rattle.witness_check.specs.LastDrawing.{IsLast};
ghost use Rattle.witness_check.specs.declared.checked.Checked.TheVariants.{Valid as valid};
ghost use Rattle.drawing.specs.Points.{generators as all_generators};

use crate::book_stage::book_stage;
use crate::checked::{Answer, Checked, Reason};
use crate::drawing_stage::{Counted, drawing_stage};
use crate::fault::Refusal;
use crate::generator_lines::columns_of_last;
use crate::lines::Lines;
use crate::outcome_stage::outcome_stage;
use obd_base::NoMemory;
use std::alloc::Global;

// The last drawing with its generators, by the lines behind that of the version.
fn drawn(alloc: Global, lines: &mut Lines) -> Result<Counted, Refusal>
    ensures passed { IfOk result (λ drawn. (text : List ℕ) → AfterVersion text lines.old → AfterDrawing drawn.last.diagram (length drawn.generators) text lines.new) }
    ensures last { IfOk result (λ drawn. IsLast drawn.last) }
    ensures generators { IfOk result (λ drawn. drawn.generators ≡ all_generators drawn.last.diagram) }
    ensures refuted { IfErr result (λ refusal. (text : List ℕ) → AfterVersion text lines.old → Refutes text refusal) }
{
    let book = book_stage(alloc, lines)?;
    drawing_stage(
        alloc,
        lines,
        &book.surface.slid.polygon,
        book.words.as_slice(),
    )
}

// The answer of the lines behind that of the contact generator.
fn decided(alloc: Global, lines: &mut Lines, drawn: &Counted) -> Result<Answer, Refusal>
    requires last { IsLast drawn.now.last }
    requires generators { drawn.now.generators ≡ all_generators drawn.now.last.diagram }
    ensures valid { IfOk result (λ answer. (text : List ℕ) → AfterDrawing drawn.now.last.diagram (length drawn.now.generators) text lines.old → checked text ≡ valid answer) }
    ensures refuted { IfErr result (λ refusal. (text : List ℕ) → AfterDrawing drawn.now.last.diagram (length drawn.now.generators) text lines.old → Refutes text refusal) }
{
    let columns = columns_of_last(alloc, &drawn.last, &drawn.generators)?;
    outcome_stage(alloc, lines, columns.as_slice(), drawn.generators.count())
}

// The answer of the lines behind that of the version.
fn answered(alloc: Global, lines: &mut Lines) -> Result<Answer, Refusal>
    ensures valid { IfOk result (λ answer. (text : List ℕ) → AfterVersion text lines.old → checked text ≡ valid answer) }
    ensures refuted { IfErr result (λ refusal. (text : List ℕ) → AfterVersion text lines.old → Refutes text refusal) }
{
    let drawn = drawn(alloc, lines)?;
    decided(alloc, lines, &drawn)
}

// The answer of a text, where it is valid.
fn answer_of(alloc: Global, text: &[u8]) -> Result<Answer, Refusal>
    requires { length text.now < 2 ^ 32 }
    ensures valid { IfOk result (λ answer. checked text.now ≡ valid answer) }
    ensures refuted { IfErr result (λ refusal. Refutes text.now refusal) }
{
    match Lines::of(text) {
        Some(mut lines) => answered(alloc, &mut lines),
        None => Err(Refusal::Bad {
            line: 1,
            reason: Reason::Form,
        }),
    }
}

/// Whether a text is a valid certificate, and what it then says of the contact class; or else its first line that lacks its form or
/// breaks a rule, counted from 1, with the reason of the first such rule. It takes no account of how the certificate was found: the
/// fingers need be legal and lead to a nice drawing, and not be those of any strategy.
///
/// The lines are taken in order and each is tried once; those of one list, as all fingers, are read up to the first that lacks its
/// form before they are tried, and nothing behind the list of the first bad line is looked at. Refuses only for want of memory. The
/// cost is linear in the text, but for what the lines ask for: the words after each single twist (`monodromy::words_of`),
/// each finger tested and pushed (linear in the exits), the regions and generators of the last drawing, its columns
/// (`boundary_map::columns`), and the pivots and the verdict (`mod2_rank::Reducers`, `mod2_rank::is_verdict`).
pub fn check(alloc: Global, text: &[u8]) -> Result<Checked, NoMemory>
    requires { length text.now < 2 ^ 32 }
    ensures { IfOk result (λ answer. answer ≡ checked text.now) }
{
    match answer_of(alloc, text) {
        Ok(answer) => Ok(Checked::Valid(answer)),
        Err(Refusal::Bad { line, reason }) => Ok(Checked::Bad { line, reason }),
        Err(Refusal::NoMemory) => Err(NoMemory),
    }
}
