// Lines and sections of a text, read one after another.
ghost use Rattle.std.specs.Prelude.{◌≡◌, ◌≤◌, ℕ, true, None, Some, IfErr, IfOk, OnOk};
ghost use Rattle.witness_check.specs.declared.checked.Reason.TheVariants.{Form as form};
ghost use Rattle.witness_check.specs.declared.fault.Refusal.TheVariants.{Bad as badly};
ghost use Rattle.witness_check.specs.Forms.{one, rows};
ghost use Rattle.witness_check.specs.Lines.{answer_line, basis_line, contact_line, end_line, homology_line, number_line, seams_line};
ghost use Rattle.witness_check.specs.Words.{is_word};
ghost use Rattle.witness_check.specs.Passing.{Breaks, CountRefused, LineRead, RowsRead, SectionRead, counted_rows, is_between};

use crate::checked::Reason;
use crate::entries::ContactLine;
use crate::fault::Refusal;
use crate::lines::Lines;
use crate::row::{
    Row, is_end, read_basis, read_contact, read_homology, read_number, read_seams, read_verdict,
};
use mod2_rank::Verdict;
use obd_base::{ArcNo, Items, Name, NoMemory};
use std::alloc::Global;

// Rows that were read, and the line that is the first to lack its form, if these aren't all that were wanted.
#[derive(Drop)]
pub(crate) struct Rows<T> {
    pub(crate) items: Items<T>,
    pub(crate) breaks: Option<u32>,
}

// The next line, which is a row.
fn next_row<T: Row>(
    alloc: Global,
    lines: &mut Lines,
    kind: &str,
    number: u32,
) -> Result<Option<T>, NoMemory>
    requires { is_word kind.now ≡ true }
    ensures read { IfOk result (λ found. LineRead (T.form kind.now number) lines.old lines.new found) }
    ensures taken { lines.old.taken ≤ lines.new.taken }
{
    match lines.next() {
        Some(line) => T::read(alloc, kind, number, line),
        None => Ok(None),
    }
}

// So many rows. Memory is taken for what is read alone. Linear in the lines that are taken.
pub(crate) fn read_rows<T: Row + Drop>(
    alloc: Global,
    lines: &mut Lines,
    kind: &str,
    count: u32,
) -> Result<Rows<T>, NoMemory>
    requires { is_word kind.now ≡ true }
    ensures { IfOk result (λ rows. RowsRead (T.form kind.now) count lines.old lines.new rows.items rows.breaks) }
{
    let mut items = Items::new(alloc);
    for number in 0..count {
        let line = lines.number();
        match next_row::<T>(alloc, lines, kind, number)? {
            Some(item) => items.push(item)?,
            None => {
                return Ok(Rows {
                    items,
                    breaks: Some(line),
                });
            }
        }
    }
    Ok(Rows {
        items,
        breaks: None,
    })
}

// A line's value, where it has its form.
fn said<T: Drop>(found: Option<T>, line: u32) -> Result<T, Refusal>
    ensures some { IfOk result (λ value. found ≡ Some value) }
    ensures none { IfErr result (λ refusal. (found ≡ None) × (refusal ≡ badly line form)) }
{
    match found {
        Some(value) => Ok(value),
        None => Err(Refusal::Bad {
            line,
            reason: Reason::Form,
        }),
    }
}

// The next line, which has one number.
pub(crate) fn next_number(lines: &mut Lines, kind: &str) -> Result<u32, Refusal>
    requires { is_word kind.now ≡ true }
    ensures read { IfOk result (SectionRead (one (number_line kind.now)) lines.old lines.new) }
    ensures breaks { IfErr result (Breaks (one (number_line kind.now)) lines.old) }
{
    let number = lines.number();
    match lines.next() {
        Some(line) => said(read_number(kind, line), number),
        None => said(None, number),
    }
}

// The next line, which tells how many further ones follow, where that is in a range; and otherwise it is refused for this reason.
pub(crate) fn next_count(
    lines: &mut Lines,
    kind: &str,
    least: u32,
    most: u32,
    reason: Reason,
) -> Result<u32, Refusal>
    requires { is_word kind.now ≡ true }
    ensures read { IfOk result (SectionRead (one (number_line kind.now)) lines.old lines.new) }
    ensures within { IfOk result (λ count. is_between least most count ≡ true) }
    ensures refused { IfErr result (CountRefused kind.now least most reason lines.old lines.new) }
{
    let line = lines.number();
    let count = next_number(lines, kind)?;
    if least <= count && count <= most {
        Ok(count)
    } else {
        Err(Refusal::Bad { line, reason })
    }
}

// Nothing, where rows are all that were wanted, and otherwise the refusal of the line that lacks its form.
pub(crate) fn all_read(breaks: Option<u32>) -> Result<(), Refusal>
    ensures whole { OnOk result (breaks ≡ None) }
    ensures broken { IfErr result (λ refusal. (line : ℕ) × (breaks ≡ Some line) × (refusal ≡ badly line form)) }
{
    match breaks {
        None => Ok(()),
        Some(line) => Err(Refusal::Bad {
            line,
            reason: Reason::Form,
        }),
    }
}

// A section of so many rows.
pub(crate) fn next_rows<T: Row + Drop>(
    alloc: Global,
    lines: &mut Lines,
    kind: &str,
    count: u32,
) -> Result<Items<T>, Refusal>
    requires { is_word kind.now ≡ true }
    ensures read { IfOk result (SectionRead (rows (T.form kind.now) count) lines.old lines.new) }
    ensures breaks { IfErr result (Breaks (rows (T.form kind.now) count) lines.old) }
{
    let rows = read_rows::<T>(alloc, lines, kind, count)?;
    match rows.breaks {
        None => Ok(rows.items),
        Some(line) => Err(Refusal::Bad {
            line,
            reason: Reason::Form,
        }),
    }
}

// A line with a number, and then as many rows.
pub(crate) fn next_list<T: Row + Drop>(
    alloc: Global,
    lines: &mut Lines,
    many: &str,
    one: &str,
) -> Result<Items<T>, Refusal>
    requires many { is_word many.now ≡ true }
    requires one { is_word one.now ≡ true }
    ensures read { IfOk result (SectionRead (counted_rows many.now (T.form one.now)) lines.old lines.new) }
    ensures breaks { IfErr result (Breaks (counted_rows many.now (T.form one.now)) lines.old) }
{
    let count = next_number(lines, many)?;
    next_rows(alloc, lines, one, count)
}

// The seams' line.
pub(crate) fn next_seams(alloc: Global, lines: &mut Lines) -> Result<Items<Name>, Refusal>
    ensures read { IfOk result (SectionRead (one seams_line) lines.old lines.new) }
    ensures breaks { IfErr result (Breaks (one seams_line) lines.old) }
{
    let number = lines.number();
    match lines.next() {
        Some(line) => said(read_seams(alloc, line)?, number),
        None => said(None, number),
    }
}

// The basis's line.
pub(crate) fn next_basis(alloc: Global, lines: &mut Lines) -> Result<Items<ArcNo>, Refusal>
    ensures read { IfOk result (SectionRead (one basis_line) lines.old lines.new) }
    ensures breaks { IfErr result (Breaks (one basis_line) lines.old) }
{
    let number = lines.number();
    match lines.next() {
        Some(line) => said(read_basis(alloc, line)?, number),
        None => said(None, number),
    }
}

// The contact generator's line, with so many points.
pub(crate) fn next_contact(
    alloc: Global,
    lines: &mut Lines,
    points: u32,
) -> Result<ContactLine, Refusal>
    ensures read { IfOk result (λ c. SectionRead (one (contact_line points)) lines.old lines.new (c.number, c.points)) }
    ensures breaks { IfErr result (Breaks (one (contact_line points)) lines.old) }
{
    let number = lines.number();
    match lines.next() {
        Some(line) => said(read_contact(alloc, points, line)?, number),
        None => said(None, number),
    }
}

// The homology's line.
pub(crate) fn next_homology(lines: &mut Lines) -> Result<i32, Refusal>
    ensures read { IfOk result (SectionRead (one homology_line) lines.old lines.new) }
    ensures breaks { IfErr result (Breaks (one homology_line) lines.old) }
{
    let number = lines.number();
    match lines.next() {
        Some(line) => said(read_homology(line), number),
        None => said(None, number),
    }
}

// The verdict's line.
pub(crate) fn next_verdict(alloc: Global, lines: &mut Lines) -> Result<Verdict, Refusal>
    ensures read { IfOk result (SectionRead (one answer_line) lines.old lines.new) }
    ensures breaks { IfErr result (Breaks (one answer_line) lines.old) }
{
    let number = lines.number();
    match lines.next() {
        Some(line) => said(read_verdict(alloc, line)?, number),
        None => said(None, number),
    }
}

// The last line.
pub(crate) fn next_end(lines: &mut Lines) -> Result<(), Refusal>
    ensures read { OnOk result (SectionRead (one end_line) lines.old lines.new tt) }
    ensures breaks { IfErr result (Breaks (one end_line) lines.old) }
{
    let number = lines.number();
    match lines.next() {
        Some(line) if is_end(line) => Ok(()),
        _ => Err(Refusal::Bad {
            line: number,
            reason: Reason::Form,
        }),
    }
}
