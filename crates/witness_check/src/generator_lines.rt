// The lines of the generators and of the contact generator, and the columns of the last drawing.
ghost use Rattle.std.specs.Prelude.{◌≡◌, ◌≢◌, ℕ, List, ◌<◌, ◌≤◌, ◌&&◌, ◌↔◌, ◌∷◌, [], suc, length, map, nat_eq, slice_index_or, None, IfErr, IfNone, IfOk, IfSome, IsTrue, OnOk};
ghost use Rattle.std.specs.List.Sorted.{IsStrictlyIncreasing};
ghost use Rattle.obd_base.specs.Lists.{Mem};
ghost use Rattle.drawing.specs.Points.{contact_generator, generators as all_generators};
ghost use Rattle.mod2_rank.specs.Linear.{same_list};
ghost use Rattle.witness_check.specs.DrawingRules.{Finds, HasContact, HasGenerators, Stops};
ghost use Rattle.witness_check.specs.LastDrawing.{IsLast};
ghost use Rattle.witness_check.specs.Rules.{contact_rules, generator_rules, last_columns};
ghost use Rattle.witness_check.specs.Written.{last_drawing};
ghost use Rattle.witness_check.specs.declared.certificate.Certificate.{Certificate};

use crate::checked::Reason;
use crate::fault::{Fault, Stop};
use crate::final_lines::LastDrawing;
use boundary_map::columns;
use generator_list::{Generators, ListRefusal, list};
use hkm_diagram::Diagram;
use obd_base::{ArcNo, Column, GenNo, Items, NoMemory};
use std::alloc::Global;

// The most generators that a certificate may have.
const MOST: u32 = 20_000;

// The generators of the last drawing where there are so many, and `None` exactly where their number is another.
fn counted(alloc: Global, diagram: &Diagram, count: u32) -> Result<Option<Generators>, NoMemory>
    requires { count ≤ 20000 }
    ensures some { IfOk result (λ found. IfSome found (λ listed. listed ≡ all_generators diagram.now)) }
    ensures count { IfOk result (λ found. IfSome found (λ _. count ≡ length (all_generators diagram.now))) }
    ensures none { IfOk result (λ found. IfNone found (count ≢ length (all_generators diagram.now))) }
{
    match list(alloc, diagram.drawing(), MOST) {
        Ok(generators) => {
            if generators.count() == count {
                Ok(Some(generators))
            } else {
                Ok(None)
            }
        }
        Err(ListRefusal::GeneratorLimit { .. }) => Ok(None),
        Err(ListRefusal::NoMemory) => Err(NoMemory),
    }
}

/// The generators of the last drawing, by the number that their line tells: it is at most 20,000, and theirs. A fault is that
/// line's, so it is at 0. The cost is that of `list` up to 20,000 generators.
pub(crate) fn generators_of(
    alloc: Global,
    diagram: &Diagram,
    count: u32,
) -> Result<Generators, Stop>
    ensures generators { IfOk result (λ found. found ≡ all_generators diagram.now) }
    ensures count { IfOk result (λ found. length found ≡ count) }
    ensures few { OnOk result (count ≤ 20000) }
    ensures kept { OnOk result (Finds (HasGenerators diagram.now count) (λ c. generator_rules c ∷ []) None) }
    ensures fault { IfErr result (Stops (HasGenerators diagram.now count) (λ c. generator_rules c ∷ [])) }
{
    if count > MOST {
        return Err(Stop::Fault(Fault {
            at: 0,
            reason: Reason::Limit,
        }));
    }
    match counted(alloc, diagram, count)? {
        Some(generators) => Ok(generators),
        None => Err(Stop::Fault(Fault {
            at: 0,
            reason: Reason::Generators,
        })),
    }
}

// How many contact points there are: one an arc.
fn contact_count(diagram: &Diagram) -> u32
    ensures { result ≡ length (contact_generator diagram.now) }
{
    diagram.drawing().polygon().sides() / 2
}

// The number of the contact point of an arc.
fn contact_point(diagram: &Diagram, arc: u32) -> u32
    requires { arc < length (contact_generator diagram.now) }
    ensures { result ≡ slice_index_or (contact_generator diagram.now) arc result }
{
    diagram.contact(ArcNo::new(arc)).number
}

// Whether some numbers are those of the contact points, arc by arc.
fn are_contact_points(diagram: &Diagram, points: &[u32]) -> bool
    ensures { IsTrue result ↔ (points.now ≡ contact_generator diagram.now) }
{
    let arcs = contact_count(diagram);
    if points.len() != arcs as usize {
        return false;
    }
    for arc in 0..arcs {
        if points[arc as usize] != contact_point(diagram, arc) {
            return false;
        }
    }
    true
}

/// Whether the contact generator has the last of so many numbers, and its points are these: whether its line keeps its rule.
/// Linear in the arcs.
pub(crate) fn is_contact(diagram: &Diagram, contact: GenNo, points: &[u32], count: u32) -> bool
    ensures { result ≡ (nat_eq (suc contact) count && same_list points.now (contact_generator diagram.now)) }
{
    u64::from(contact.number()) + 1 == u64::from(count) && are_contact_points(diagram, points)
}

/// The fault of the contact line, by the number of generators that their line tells. Linear in the arcs.
pub(crate) fn wrong_contact(
    diagram: &Diagram,
    contact: GenNo,
    points: &[u32],
    count: u32,
) -> Option<Fault>
    ensures { Finds (HasContact diagram.now count contact points.now) (λ c. contact_rules c ∷ []) result }
{
    if is_contact(diagram, contact, points, count) {
        return None;
    }
    Some(Fault {
        at: 0,
        reason: Reason::Contact,
    })
}

/// The columns of the last drawing, one for each generator in order. The cost is that of `boundary_map::columns`.
pub(crate) fn columns_of_last(
    alloc: Global,
    last: &LastDrawing,
    generators: &Generators,
) -> Result<Items<Column>, NoMemory>
    requires last { IsLast last.now }
    requires generators { generators.now ≡ all_generators last.now.diagram }
    ensures columns { IfOk result (λ found. (c : Certificate) → last_drawing c ≡ last.now.diagram → map (λ column. column.rows) found ≡ last_columns c) }
    ensures one_each { IfOk result (λ found. length found ≡ length generators.now) }
    ensures ascend { IfOk result (λ found. (rows : List ℕ) → Mem rows (map (λ column. column.rows) found) → IsStrictlyIncreasing rows) }
    ensures below { IfOk result (λ found. (rows : List ℕ) → Mem rows (map (λ column. column.rows) found) → (row : ℕ) → Mem row rows → row < length generators.now) }
{
    columns(alloc, &last.diagram, &last.regions, generators)
}
