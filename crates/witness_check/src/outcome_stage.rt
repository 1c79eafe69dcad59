// The stages from the pivots to the end of the text.
ghost use Rattle.std.specs.Prelude.{◌≡◌, ◌<◌, ◌^◌, ◌*◌, ◌&&◌, ◌-ℤ◌, [], ℕ, List, Ok, length, map, nat_eq, pos, true, None, IfErr, IfOk, OnOk};
ghost use Rattle.std.specs.List.{list_all};
ghost use Rattle.std.specs.Ordering.{int_eq};
ghost use Rattle.mod2_rank.specs.Ascending.{AllAscend};
ghost use Rattle.mod2_rank.specs.Linear.{is_empty};
ghost use Rattle.mod2_rank.specs.PivotRules.{reduced_by, reducers};
ghost use Rattle.witness_check.specs.Between.{AfterColumns, AfterHomology, AfterRank, AfterVerdict, Refutes};
ghost use Rattle.witness_check.specs.Checked.{answer_of, checked};
ghost use Rattle.witness_check.specs.DrawingRules.{Finds, Stops};
ghost use Rattle.witness_check.specs.OutcomeRules.{AfterReducers, BeginsPivots, Follows, Untrue};
ghost use Rattle.witness_check.specs.Rules.{each, pivot_rules};
ghost use Rattle.witness_check.specs.declared.checked.Checked.TheVariants.{Valid as valid};

use crate::checked::{Answer, Reason};
use crate::fault::{Fault, Refusal, Stop};
use crate::lines::Lines;
use crate::settling::settled;
use crate::taking::{next_count, next_end, next_homology, next_number, next_verdict, read_rows};
use mod2_rank::{Pivot, PivotRefusal, Reducers, Verdict, is_verdict};
use obd_base::{Column, NoMemory};
use std::alloc::Global;

// The reducers of the pivots that were read, or the first pivot that doesn't pass. The cost is that of `Reducers::of`.
fn reducers_of(
    alloc: Global,
    columns: &[Column],
    rows: u32,
    pivots: &[Pivot],
) -> Result<Reducers, Stop>
    requires few { length columns.now < 2 ^ 32 }
    requires few_pivots { length pivots.now < 2 ^ 32 }
    requires ascend { AllAscend rows (map (λ column. column.rows) columns.now) }
    ensures value { IfOk result (λ made. made ≡ record { rows = rows; list = reducers rows (map (λ column. column.rows) columns.now) [] pivots.now }) }
    ensures kept { OnOk result (Finds (BeginsPivots (map (λ column. column.rows) columns.now) rows pivots.now) (λ c. each (pivot_rules c) pivots.now) None) }
    ensures fault { IfErr result (Stops (BeginsPivots (map (λ column. column.rows) columns.now) rows pivots.now) (λ c. each (pivot_rules c) pivots.now)) }
{
    match Reducers::of(alloc, columns, rows, pivots) {
        Ok(made) => Ok(made),
        Err(PivotRefusal::Bad { at }) => Err(Stop::Fault(Fault {
            at,
            reason: Reason::Pivot,
        })),
        Err(PivotRefusal::NoMemory) => Err(Stop::NoMemory),
    }
}

// The lines of the pivots: their reducers.
fn pivots_stage(
    alloc: Global,
    lines: &mut Lines,
    columns: &[Column],
    rows: u32,
) -> Result<Reducers, Refusal>
    requires few { length columns.now < 2 ^ 32 }
    requires ascend { AllAscend rows (map (λ column. column.rows) columns.now) }
    ensures passed { IfOk result (λ made. (text : List ℕ) → AfterColumns (map (λ column. column.rows) columns.now) rows text lines.old → AfterReducers (map (λ column. column.rows) columns.now) made text lines.new) }
    ensures rows { IfOk result (λ made. made.rows ≡ rows) }
    ensures refuted { IfErr result (λ refusal. (text : List ℕ) → AfterColumns (map (λ column. column.rows) columns.now) rows text lines.old → Refutes text refusal) }
{
    let count = next_count(lines, "pivots", 0, rows, Reason::Pivot)?;
    let first = lines.number();
    let pivots = read_rows::<Pivot>(alloc, lines, "pivot", count)?;
    let tried = reducers_of(alloc, columns, rows, pivots.items.as_slice());
    settled(first, tried, pivots.breaks)
}

// A line's value, where the line's rule is kept.
fn held<T: Drop>(
    value: T,
    tried: Result<bool, NoMemory>,
    line: u32,
    reason: Reason,
) -> Result<T, Refusal>
    ensures made { IfOk result (λ made. (made ≡ value) × (tried ≡ Ok true)) }
    ensures refused { IfErr result (Untrue tried line reason) }
{
    match tried {
        Ok(true) => Ok(value),
        Ok(false) => Err(Refusal::Bad { line, reason }),
        Err(NoMemory) => Err(Refusal::NoMemory),
    }
}

// Whether a rank is the number of pivots, and every column reduces to nothing by them.
fn is_rank(
    alloc: Global,
    columns: &[Column],
    reducers: &Reducers,
    rank: u32,
) -> Result<bool, NoMemory>
    requires { AllAscend reducers.now.rows (map (λ column. column.rows) columns.now) }
    ensures { IfOk result (λ yes. yes ≡ (nat_eq rank (length reducers.now.list) && list_all (λ c. is_empty (reduced_by reducers.now.rows reducers.now.list c)) (map (λ column. column.rows) columns.now))) }
{
    if rank != reducers.count() {
        return Ok(false);
    }
    reducers.reduce_all(alloc, columns)
}

// The line of the rank.
fn rank_stage(
    alloc: Global,
    lines: &mut Lines,
    columns: &[Column],
    reducers: &Reducers,
) -> Result<u32, Refusal>
    requires { AllAscend reducers.now.rows (map (λ column. column.rows) columns.now) }
    ensures passed { IfOk result (λ rank. (text : List ℕ) → AfterReducers (map (λ column. column.rows) columns.now) reducers.now text lines.old → AfterRank (map (λ column. column.rows) columns.now) reducers.now.rows rank text lines.new) }
    ensures refuted { IfErr result (λ refusal. (text : List ℕ) → AfterReducers (map (λ column. column.rows) columns.now) reducers.now text lines.old → Refutes text refusal) }
{
    let line = lines.number();
    let rank = next_number(lines, "rank")?;
    let tried = is_rank(alloc, columns, reducers, rank);
    held(rank, tried, line, Reason::Rank)
}

// Whether a number is what two times the rank leaves of the rows.
fn is_homology(homology: i32, rows: u32, rank: u32) -> bool
    ensures { result ≡ int_eq homology (pos rows -ℤ pos (2 * rank)) }
{
    i64::from(homology) == i64::from(rows) - 2 * i64::from(rank)
}

// The line of the homology.
fn homology_stage(lines: &mut Lines, rows: u32, rank: u32) -> Result<(), Refusal>
    ensures passed { OnOk result ((columns : List (List ℕ)) (text : List ℕ) → AfterRank columns rows rank text lines.old → AfterHomology columns rows text lines.new) }
    ensures refuted { IfErr result (λ refusal. (columns : List (List ℕ)) (text : List ℕ) → AfterRank columns rows rank text lines.old → Refutes text refusal) }
{
    let line = lines.number();
    let homology = next_homology(lines)?;
    let right = is_homology(homology, rows, rank);
    held((), Ok(right), line, Reason::Homology)
}

// The answer that a verdict gives.
fn answer_of(verdict: &Verdict) -> Answer
    ensures { result ≡ answer_of verdict.now }
{
    match verdict {
        Verdict::Chain(_) => Answer::Zero,
        Verdict::Functional(_) => Answer::Nonzero,
    }
}

// The line of the verdict: its answer.
fn verdict_stage(
    alloc: Global,
    lines: &mut Lines,
    columns: &[Column],
    rows: u32,
) -> Result<Answer, Refusal>
    requires some { 0 < rows }
    requires ascend { AllAscend rows (map (λ column. column.rows) columns.now) }
    ensures passed { IfOk result (λ answer. (text : List ℕ) → AfterHomology (map (λ column. column.rows) columns.now) rows text lines.old → AfterVerdict answer text lines.new) }
    ensures refuted { IfErr result (λ refusal. (text : List ℕ) → AfterHomology (map (λ column. column.rows) columns.now) rows text lines.old → Refutes text refusal) }
{
    let line = lines.number();
    let verdict = next_verdict(alloc, lines)?;
    let tried = is_verdict(alloc, columns, rows, &verdict);
    held(answer_of(&verdict), tried, line, Reason::Verdict)
}

// No further line.
fn no_more(lines: &mut Lines) -> Result<(), Refusal>
    ensures none { OnOk result (lines.old.left ≡ []) }
    ensures more { IfErr result (Follows lines.old) }
{
    let line = lines.number();
    match lines.next() {
        None => Ok(()),
        Some(_) => Err(Refusal::Bad {
            line,
            reason: Reason::Form,
        }),
    }
}

// The last line, and no further one.
fn end_stage(lines: &mut Lines) -> Result<(), Refusal>
    ensures passed { OnOk result ((answer : Answer) (text : List ℕ) → AfterVerdict answer text lines.old → checked text ≡ valid answer) }
    ensures refuted { IfErr result (λ refusal. (answer : Answer) (text : List ℕ) → AfterVerdict answer text lines.old → Refutes text refusal) }
{
    next_end(lines)?;
    no_more(lines)
}

// The lines of the pivots and the rank: the rank.
fn ranked(alloc: Global, lines: &mut Lines, columns: &[Column], rows: u32) -> Result<u32, Refusal>
    requires few { length columns.now < 2 ^ 32 }
    requires ascend { AllAscend rows (map (λ column. column.rows) columns.now) }
    ensures passed { IfOk result (λ rank. (text : List ℕ) → AfterColumns (map (λ column. column.rows) columns.now) rows text lines.old → AfterRank (map (λ column. column.rows) columns.now) rows rank text lines.new) }
    ensures refuted { IfErr result (λ refusal. (text : List ℕ) → AfterColumns (map (λ column. column.rows) columns.now) rows text lines.old → Refutes text refusal) }
{
    let reducers = pivots_stage(alloc, lines, columns, rows)?;
    rank_stage(alloc, lines, columns, &reducers)
}

// The lines of the verdict and the end: the answer.
fn answered(
    alloc: Global,
    lines: &mut Lines,
    columns: &[Column],
    rows: u32,
) -> Result<Answer, Refusal>
    requires some { 0 < rows }
    requires ascend { AllAscend rows (map (λ column. column.rows) columns.now) }
    ensures passed { IfOk result (λ answer. (text : List ℕ) → AfterHomology (map (λ column. column.rows) columns.now) rows text lines.old → checked text ≡ valid answer) }
    ensures refuted { IfErr result (λ refusal. (text : List ℕ) → AfterHomology (map (λ column. column.rows) columns.now) rows text lines.old → Refutes text refusal) }
{
    let answer = verdict_stage(alloc, lines, columns, rows)?;
    end_stage(lines)?;
    Ok(answer)
}

/// Reads the lines of the pivots, the rank, the homology, the verdict and the end, and tries each by these columns over so many
/// rows: the answer of the verdict, where the text ends there. The cost is linear in the text that is read, but for that of
/// `Reducers::of`, `Reducers::reduce_all` and `is_verdict`, once each.
pub(crate) fn outcome_stage(
    alloc: Global,
    lines: &mut Lines,
    columns: &[Column],
    rows: u32,
) -> Result<Answer, Refusal>
    requires some { 0 < rows }
    requires one_each { length columns.now ≡ rows }
    requires ascend { AllAscend rows (map (λ column. column.rows) columns.now) }
    ensures passed { IfOk result (λ answer. (text : List ℕ) → AfterColumns (map (λ column. column.rows) columns.now) rows text lines.old → checked text ≡ valid answer) }
    ensures refuted { IfErr result (λ refusal. (text : List ℕ) → AfterColumns (map (λ column. column.rows) columns.now) rows text lines.old → Refutes text refusal) }
{
    let rank = ranked(alloc, lines, columns, rows)?;
    homology_stage(lines, rows, rank)?;
    answered(alloc, lines, columns, rows)
}
