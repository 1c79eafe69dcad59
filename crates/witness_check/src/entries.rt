// The words of each kind of line, read.
ghost use Rattle.std.specs.Prelude.{◌≡◌, codes, option_map, IfOk};
ghost use Rattle.witness_check.specs.RowWords.{answer_words, basis_words, contact_words, curve_words, finger_words, kind_words, name_words, one_number, one_signed, pivot_words, seams_words, strand_words, twist_words, version_words};
ghost use Rattle.witness_check.specs.Words.{and_then, last_word, line_words};

use crate::words::Words;
use curve_paths::{Cross, NamedPath, NamedTwist};
use drawing::Finger;
use mod2_rank::{Pivot, Verdict};
use obd_base::{ArcNo, Exit, GenNo, Items, Name, NoMemory, SideNo, StrandNo};
use std::alloc::Global;

// KIND NUMBER
pub(crate) fn number(kind: &str, line: &[u8]) -> Option<u32>
    ensures { result ≡ and_then (kind_words kind.now line.now) one_number }
{
    let mut words = Words::of_kind(kind, line)?;
    let number = words.number()?;
    if words.is_empty() { Some(number) } else { None }
}

// `homology H`
pub(crate) fn homology(line: &[u8]) -> Option<i32>
    ensures { result ≡ and_then (kind_words (codes "homology") line.now) one_signed }
{
    let mut words = Words::of_kind("homology", line)?;
    let number = words.signed()?;
    if words.is_empty() { Some(number) } else { None }
}

// `contact certificate 1`
pub(crate) fn version(line: &[u8]) -> Option<u32>
    ensures { result ≡ and_then (kind_words (codes "contact") line.now) version_words }
{
    let mut words = Words::of_kind("contact", line)?;
    if !words.passes("certificate") {
        return None;
    }
    let number = words.number()?;
    if number == 1 && words.is_empty() {
        Some(number)
    } else {
        None
    }
}

// `end`
pub(crate) fn end(line: &[u8]) -> Option<()>
    ensures { result ≡ and_then (kind_words (codes "end") line.now) (last_word tt) }
{
    let words = Words::of_kind("end", line)?;
    if words.is_empty() { Some(()) } else { None }
}

// `pivot COLUMN ROW`
pub(crate) fn pivot(line: &[u8]) -> Option<Pivot>
    ensures { result ≡ and_then (kind_words (codes "pivot") line.now) pivot_words }
{
    let mut words = Words::of_kind("pivot", line)?;
    let column = words.number()?;
    let row = words.number()?;
    if words.is_empty() {
        Some(Pivot { column, row })
    } else {
        None
    }
}

// `finger STRAND CHORD SIDE SEGMENT`
pub(crate) fn finger(line: &[u8]) -> Option<Finger>
    ensures { result ≡ and_then (kind_words (codes "finger") line.now) finger_words }
{
    let mut words = Words::of_kind("finger", line)?;
    let strand = StrandNo::new(words.number()?);
    let chord = words.number()?;
    let side = SideNo::new(words.number()?);
    let segment = words.number()?;
    if words.is_empty() {
        Some(Finger {
            strand,
            chord,
            side,
            segment,
        })
    } else {
        None
    }
}

// `polygon NAME ..`
pub(crate) fn polygon(alloc: Global, line: &[u8]) -> Result<Option<Items<Name>>, NoMemory>
    ensures { IfOk result (λ found. found ≡ and_then (kind_words (codes "polygon") line.now) name_words) }
{
    let Some(mut words) = Words::of_kind("polygon", line) else {
        return Ok(None);
    };
    words.all(alloc)
}

// `curve NAME LABEL:OCC:PLACE ..`
pub(crate) fn curve(alloc: Global, line: &[u8]) -> Result<Option<NamedPath>, NoMemory>
    ensures { IfOk result (λ found. found ≡ and_then (kind_words (codes "curve") line.now) curve_words) }
{
    let Some(mut words) = Words::of_kind("curve", line) else {
        return Ok(None);
    };
    let Some(name) = words.token::<Name>(alloc)? else {
        return Ok(None);
    };
    let Some(path) = words.all::<Cross>(alloc)? else {
        return Ok(None);
    };
    Ok(Some(NamedPath { name, path }))
}

// `twist NAME POWER`
pub(crate) fn twist(alloc: Global, line: &[u8]) -> Result<Option<NamedTwist>, NoMemory>
    ensures { IfOk result (λ found. found ≡ and_then (kind_words (codes "twist") line.now) twist_words) }
{
    let Some(mut words) = Words::of_kind("twist", line) else {
        return Ok(None);
    };
    let Some(name) = words.token::<Name>(alloc)? else {
        return Ok(None);
    };
    let Some(power) = words.signed() else {
        return Ok(None);
    };
    if words.is_empty() {
        Ok(Some(NamedTwist { name, power }))
    } else {
        Ok(None)
    }
}

// `seams M NAME ..`
pub(crate) fn seams(alloc: Global, line: &[u8]) -> Result<Option<Items<Name>>, NoMemory>
    ensures { IfOk result (λ found. found ≡ and_then (kind_words (codes "seams") line.now) seams_words) }
{
    let Some(mut words) = Words::of_kind("seams", line) else {
        return Ok(None);
    };
    let Some(count) = words.number() else {
        return Ok(None);
    };
    let Some(names) = words.all::<Name>(alloc)? else {
        return Ok(None);
    };
    if count as usize == names.len() {
        Ok(Some(names))
    } else {
        Ok(None)
    }
}

// `basis ARC ..`
pub(crate) fn basis(alloc: Global, line: &[u8]) -> Result<Option<Items<ArcNo>>, NoMemory>
    ensures { IfOk result (λ found. found ≡ and_then (kind_words (codes "basis") line.now) basis_words) }
{
    let Some(mut words) = Words::of_kind("basis", line) else {
        return Ok(None);
    };
    let Some(arcs) = words.all::<ArcNo>(alloc)? else {
        return Ok(None);
    };
    let half = arcs.len() / 2;
    if 2 * half == arcs.len() && half <= u32::MAX as usize {
        Ok(Some(arcs))
    } else {
        Ok(None)
    }
}

// `KIND I SIDE.PLACE ..`
pub(crate) fn strand(
    alloc: Global,
    kind: &str,
    number: u32,
    line: &[u8],
) -> Result<Option<Items<Exit>>, NoMemory>
    ensures { IfOk result (λ found. found ≡ and_then (kind_words kind.now line.now) (strand_words number)) }
{
    let Some(mut words) = Words::of_kind(kind, line) else {
        return Ok(None);
    };
    let Some(found) = words.number() else {
        return Ok(None);
    };
    if found == number {
        words.all(alloc)
    } else {
        Ok(None)
    }
}

/// What the line of the contact generator says: its number, and the numbers of its points, arc by arc.
#[derive(Drop)]
pub(crate) struct ContactLine {
    pub(crate) number: GenNo,
    pub(crate) points: Items<u32>,
}

// `contact NUMBER POINT ..`, with so many points.
pub(crate) fn contact(
    alloc: Global,
    points: u32,
    line: &[u8],
) -> Result<Option<ContactLine>, NoMemory>
    ensures { IfOk result (λ found. option_map (λ c. (c.number, c.points)) found ≡ and_then (kind_words (codes "contact") line.now) (contact_words points)) }
{
    let Some(mut words) = Words::of_kind("contact", line) else {
        return Ok(None);
    };
    let Some(number) = words.number() else {
        return Ok(None);
    };
    let Some(found) = words.all::<u32>(alloc)? else {
        return Ok(None);
    };
    if found.len() == points as usize {
        Ok(Some(ContactLine {
            number: GenNo::new(number),
            points: found,
        }))
    } else {
        Ok(None)
    }
}

// `zero GEN ..` or `nonzero GEN ..`
pub(crate) fn verdict(alloc: Global, line: &[u8]) -> Result<Option<Verdict>, NoMemory>
    ensures { IfOk result (λ found. found ≡ and_then (line_words line.now) answer_words) }
{
    if let Some(mut words) = Words::of_kind("zero", line) {
        let Some(columns) = words.all::<u32>(alloc)? else {
            return Ok(None);
        };
        return Ok(Some(Verdict::Chain(columns)));
    }
    let Some(mut words) = Words::of_kind("nonzero", line) else {
        return Ok(None);
    };
    let Some(rows) = words.all::<u32>(alloc)? else {
        return Ok(None);
    };
    Ok(Some(Verdict::Functional(rows)))
}
