// The stage of the polygons.
ghost use Rattle.std.specs.Prelude.{◌≡◌, ◌≤◌, ◌<◌, ℕ, List, length, None, Some, IfErr, IfOk, OnOk};
ghost use Rattle.witness_check.specs.Between.{AfterPolygons, AfterVersion, Refutes};
ghost use Rattle.witness_check.specs.BookRules.{PolygonsCome};
ghost use Rattle.witness_check.specs.declared.fault.Fault.{Fault as Broken};

use crate::checked::Reason;
use crate::fault::{Fault, Refusal, Stop};
use crate::lines::Lines;
use crate::page_lines::page_of;
use crate::settling::settled;
use crate::taking::{all_read, next_count, read_rows};
use obd_base::{Items, Name};
use page_surface::Page;
use std::alloc::Global;

// The most polygons of a page.
const MOST: u32 = 16;

// The page of all polygon lines. A fault is that of the last one.
fn all_polygons(alloc: Global, polygons: &[Items<Name>]) -> Result<Page, Stop>
    requires some { 1 ≤ length polygons.now }
    requires few { length polygons.now ≤ 16 }
    ensures page { IfOk result (λ page. page ≡ polygons.now) }
    ensures kept { OnOk result (PolygonsCome polygons.now None) }
    ensures fault { IfErr result (λ stop. (fault : Broken) → stop ≡ Stop.Fault fault → PolygonsCome polygons.now (Some fault)) }
{
    match page_of(alloc, polygons)? {
        Some(page) => Ok(page),
        None => Err(Stop::Fault(Fault {
            at: polygons.len() as u32 - 1,
            reason: Reason::Page,
        })),
    }
}

/// Reads the lines of the polygons: the page that they are. The cost is that of `page_of`.
pub(crate) fn polygons_stage(alloc: Global, lines: &mut Lines) -> Result<Page, Refusal>
    ensures passed { IfOk result (λ page. (text : List ℕ) → AfterVersion text lines.old → AfterPolygons page text lines.new) }
    ensures refuted { IfErr result (λ refusal. (text : List ℕ) → AfterVersion text lines.old → Refutes text refusal) }
{
    let count = next_count(lines, "polygons", 1, MOST, Reason::Page)?;
    let first = lines.number();
    let rows = read_rows::<Items<Name>>(alloc, lines, "polygon", count)?;
    all_read(rows.breaks)?;
    let found = all_polygons(alloc, rows.items.as_slice());
    settled(first, found, None)
}
