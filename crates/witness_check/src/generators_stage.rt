// The stages of the generators and of the contact generator.
ghost use Rattle.std.specs.Prelude.{◌≡◌, ◌≤◌, ℕ, List, length, IfErr, IfOk, OnOk};
ghost use Rattle.drawing.specs.Points.{generators as all_generators};
ghost use Rattle.witness_check.specs.Between.{AfterDrawing, AfterFinals, AfterGenerators, Refutes};

use crate::fault::{Refusal, Stop, refusal_at};
use crate::generator_lines::{generators_of, wrong_contact};
use crate::lines::Lines;
use crate::settling::settled;
use crate::taking::{next_contact, next_number};
use generator_list::Generators;
use hkm_diagram::Diagram;
use std::alloc::Global;

/// Reads the line with the number of generators and tries it by the last drawing: the generators. The cost is that of
/// `generators_of`.
pub(crate) fn generators_stage(
    alloc: Global,
    lines: &mut Lines,
    diagram: &Diagram,
) -> Result<Generators, Refusal>
    ensures passed { IfOk result (λ found. (text : List ℕ) → AfterFinals diagram.now text lines.old → AfterGenerators diagram.now (length found) text lines.new) }
    ensures generators { IfOk result (λ found. found ≡ all_generators diagram.now) }
    ensures few { IfOk result (λ found. length found ≤ 20000) }
    ensures refuted { IfErr result (λ refusal. (text : List ℕ) → AfterFinals diagram.now text lines.old → Refutes text refusal) }
{
    let first = lines.number();
    let count = next_number(lines, "generators")?;
    let tried = generators_of(alloc, diagram, count);
    settled(first, tried, None)
}

/// Reads the line of the contact generator and tries it by the last drawing and the number of its generators. Linear in the arcs.
pub(crate) fn contact_stage(
    alloc: Global,
    lines: &mut Lines,
    diagram: &Diagram,
    count: u32,
) -> Result<(), Refusal>
    ensures passed { OnOk result ((text : List ℕ) → AfterGenerators diagram.now count text lines.old → AfterDrawing diagram.now count text lines.new) }
    ensures refuted { IfErr result (λ refusal. (text : List ℕ) → AfterGenerators diagram.now count text lines.old → Refutes text refusal) }
{
    let arcs = diagram.drawing().polygon().sides() / 2;
    let first = lines.number();
    let contact = next_contact(alloc, lines, arcs)?;
    match wrong_contact(diagram, contact.number, contact.points.as_slice(), count) {
        None => Ok(()),
        Some(fault) => Err(refusal_at(first, Stop::Fault(fault))),
    }
}
