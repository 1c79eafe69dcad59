// The stages of the seams and of the basis.
ghost use Rattle.std.specs.Prelude.{◌≡◌, ℕ, List, false, true, IfErr, OnOk};
ghost use Rattle.page_surface.specs.Joining.{joined as joined_page};
ghost use Rattle.witness_check.specs.declared.checked.Reason.TheVariants.{Basis as basis};
ghost use Rattle.witness_check.specs.declared.fault.Refusal.TheVariants.{Bad as badly};
ghost use Rattle.witness_check.specs.Between.{AfterBook, AfterSeams, AfterTwists, Refutes};

use crate::basis_lines::{has_basis, has_seams};
use crate::checked::Reason;
use crate::fault::Refusal;
use crate::lines::Lines;
use crate::surface::Surface;
use crate::taking::{next_basis, next_seams};
use page_surface::Page;
use std::alloc::Global;

// Nothing, where a line says what it ought to, and otherwise its refusal.
fn held(line: u32, keeps: bool) -> Result<(), Refusal>
    ensures kept { OnOk result (keeps ≡ true) }
    ensures broken { IfErr result (λ refusal. (keeps ≡ false) × (refusal ≡ badly line basis)) }
{
    if keeps {
        Ok(())
    } else {
        Err(Refusal::Bad {
            line,
            reason: Reason::Basis,
        })
    }
}

/// Reads the line of the seams, and whether they are those of the page. Linear in the line and in the names.
pub(crate) fn seams_stage(
    alloc: Global,
    lines: &mut Lines,
    page: &Page,
    surface: &Surface,
) -> Result<(), Refusal>
    requires { surface.now.basis ≡ joined_page page.now }
    ensures passed { OnOk result ((text : List ℕ) (words : List (List ℕ)) → AfterTwists page.now surface.now.slid.polygon words text lines.old → AfterSeams surface.now.slid.polygon words text lines.new) }
    ensures refuted { IfErr result (λ refusal. (text : List ℕ) (words : List (List ℕ)) → AfterTwists page.now surface.now.slid.polygon words text lines.old → Refutes text refusal) }
{
    let line = lines.number();
    let seams = next_seams(alloc, lines)?;
    held(line, has_seams(page, surface, seams.as_slice()))
}

/// Reads the line of the basis, and whether it has the arcs of the sides after the slides. Linear in the line and in the sides.
pub(crate) fn basis_stage(
    alloc: Global,
    lines: &mut Lines,
    surface: &Surface,
) -> Result<(), Refusal>
    ensures passed { OnOk result ((text : List ℕ) (words : List (List ℕ)) → AfterSeams surface.now.slid.polygon words text lines.old → AfterBook surface.now.slid.polygon words text lines.new) }
    ensures refuted { IfErr result (λ refusal. (text : List ℕ) (words : List (List ℕ)) → AfterSeams surface.now.slid.polygon words text lines.old → Refutes text refusal) }
{
    let line = lines.number();
    let basis = next_basis(alloc, lines)?;
    held(line, has_basis(surface, basis.as_slice()))
}

/// Reads the lines of the seams and of the basis, and whether they are those of the surface. Linear in the lines, the names and the sides.
pub(crate) fn joined_stage(
    alloc: Global,
    lines: &mut Lines,
    page: &Page,
    surface: &Surface,
) -> Result<(), Refusal>
    requires { surface.now.basis ≡ joined_page page.now }
    ensures passed { OnOk result ((text : List ℕ) (words : List (List ℕ)) → AfterTwists page.now surface.now.slid.polygon words text lines.old → AfterBook surface.now.slid.polygon words text lines.new) }
    ensures refuted { IfErr result (λ refusal. (text : List ℕ) (words : List (List ℕ)) → AfterTwists page.now surface.now.slid.polygon words text lines.old → Refutes text refusal) }
{
    seams_stage(alloc, lines, page, surface)?;
    basis_stage(alloc, lines, surface)
}
