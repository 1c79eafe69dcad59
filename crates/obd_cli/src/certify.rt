// The certificate of a book, from what the steps make.
ghost use Rattle.std.specs.Prelude.{◌≡◌, ℕ, ◌+◌, ◌<◌, ◌≤◌, ◌*◌, ◌^◌, pos, ◌-ℤ◌, [], map, length, slice_index_or, IfOk};
ghost use Rattle.obd_base.specs.Lists.{below};
ghost use Rattle.page_surface.specs.Polygon.{arc_count};
ghost use Rattle.drawing.specs.Points.{contact_generator, crossings_of, generators as generators_of};
ghost use Rattle.region_table.specs.Table.{IsTableOf};
ghost use Rattle.obd_cli.specs.Opened.{named_twists, paths_of};
ghost use Rattle.obd_cli.specs.Steps.{AreDrawings, AreLastLines, ArePageLines, IsCertificateOf, IsComplexOf, IsSurfaceOf};

use crate::complex::{Complex, complex_of};
use crate::moves::{Moved, strands_of};
use crate::refused::name_of;
use crate::surface::Surface;
use curve_paths::{NamedPath, NamedTwist, copied_path, page_names};
use generator_list::Generators;
use hkm_diagram::Diagram;
use obd_base::{ArcNo, Exit, GenNo, Items, Name, NoMemory, SideNo};
use obd_doc::{Book, NamedCurve};
use region_table::Regions;
use std::alloc::Global;
use witness_check::Certificate;

// The curves of a book by name and crossings.
fn named_paths(alloc: Global, curves: &[NamedCurve]) -> Result<Items<NamedPath>, NoMemory>
    ensures { IfOk result (λ paths. paths ≡ paths_of curves.now) }
{
    let mut paths = Items::new(alloc);
    for curve in curves {
        paths.push(NamedPath {
            name: Name::from_str(alloc, curve.name.as_str())?,
            path: copied_path(alloc, curve.path.as_slice())?,
        })?;
    }
    Ok(paths)
}

// The name of a curve by its number, and no letter where there is none.
fn curve_name(alloc: Global, curves: &[NamedCurve], number: u32) -> Result<Name, NoMemory>
    ensures { IfOk result (λ name. name ≡ slice_index_or (map (λ curve. curve.name) curves.now) number []) }
{
    Name::from_str(alloc, name_of(curves, u64::from(number)))
}

// The twist word of a book by the names of the curves.
fn named_twists(alloc: Global, book: &Book) -> Result<Items<NamedTwist>, NoMemory>
    ensures { IfOk result (λ twists. twists ≡ named_twists book.now) }
{
    let curves = book.curves.as_slice();
    let mut twists = Items::new(alloc);
    for twist in book.twists.as_slice() {
        twists.push(NamedTwist {
            name: curve_name(alloc, curves, twist.curve)?,
            power: twist.power,
        })?;
    }
    Ok(twists)
}

// Some sides, as a list of their own.
fn copied(alloc: Global, sides: &[SideNo]) -> Result<Items<SideNo>, NoMemory>
    ensures { IfOk result (λ copy. copy ≡ sides.now) }
{
    let mut copy = Items::new(alloc);
    for side in sides {
        copy.push(*side)?;
    }
    Ok(copy)
}

// The numbers of the contact points, arc by arc.
fn contact_points(alloc: Global, diagram: &Diagram) -> Result<Items<u32>, NoMemory>
    ensures { IfOk result (λ points. points ≡ contact_generator diagram.now) }
{
    let mut points = Items::new(alloc);
    for arc in 0..diagram.drawing().polygon().sides() / 2 {
        points.push(diagram.contact(ArcNo::new(arc)).number)?;
    }
    Ok(points)
}

// The number of generators less twice the rank.
fn homology(generators: u32, rank: u32) -> i32
    requires few { generators < 2 ^ 30 }
    requires rank { rank ≤ generators }
    ensures { result ≡ pos generators -ℤ pos (2 * rank) }
{
    generators as i32 - 2 * rank as i32
}

// The lines that tell the book's page with its curves, and the surface's seams and arcs.
#[derive(Drop)]
struct PageLines {
    polygons: Items<Items<Name>>,
    curves: Items<NamedPath>,
    seams: Items<Name>,
    basis: Items<ArcNo>,
}

// These lines of a book and its surface.
fn page_lines(alloc: Global, book: &Book, surface: &Surface) -> Result<PageLines, NoMemory>
    requires { IsSurfaceOf book.now surface.now }
    ensures { IfOk result (ArePageLines book.now surface.now) }
{
    Ok(PageLines {
        polygons: page_names(alloc, &book.page)?,
        curves: named_paths(alloc, book.curves.as_slice())?,
        seams: surface.seam_names(alloc, &book.page)?,
        basis: surface.arcs(alloc)?,
    })
}

// The lines that tell the strands of the last drawing and the points of its contact generator.
#[derive(Drop)]
struct LastLines {
    finals: Items<Items<Exit>>,
    points: Items<u32>,
}

// These lines of a drawing.
fn last_lines(alloc: Global, last: &Diagram) -> Result<LastLines, NoMemory>
    ensures { IfOk result (AreLastLines last.now) }
{
    Ok(LastLines {
        finals: strands_of(alloc, last.drawing())?,
        points: contact_points(alloc, last)?,
    })
}

// The certificate of a book from its surface, its drawings and the complex of the last one. Linear in the text that it
// makes.
fn certificate_of(
    alloc: Global,
    book: &Book,
    surface: &Surface,
    moved: Moved,
    complex: Complex,
) -> Result<Certificate, NoMemory>
    requires surface { IsSurfaceOf book.now surface.now }
    requires most_moves { book.now.limits.moves ≤ 20000 }
    requires most_generators { book.now.limits.generators ≤ 20000 }
    requires drawings { AreDrawings book.now surface.now moved }
    requires moves { length moved.fingers ≤ book.now.limits.moves }
    requires complex { IsComplexOf moved.last book.now.limits.generators complex }
    ensures { IfOk result (IsCertificateOf book.now) }
{
    let page = page_lines(alloc, book, surface)?;
    let last = last_lines(alloc, &moved.last)?;
    let twists = named_twists(alloc, book)?;
    let slides = copied(alloc, book.slides.as_slice())?;
    let Moved {
        strands,
        fingers,
        last: _last,
    } = moved;
    let Complex {
        generators,
        outcome,
    } = complex;
    let homology = homology(generators, outcome.rank);
    Ok(Certificate {
        version: 1,
        polygons: page.polygons,
        curves: page.curves,
        slides,
        twists,
        seams: page.seams,
        basis: page.basis,
        strands,
        fingers,
        finals: last.finals,
        generators,
        contact: GenNo::new(generators - 1),
        points: last.points,
        homology,
        pivots: outcome.pivots,
        rank: outcome.rank,
        verdict: outcome.verdict,
    })
}

/// The certificate of a book from its first drawing, the fingers and the last drawing, with the table of
/// regions and the generators of that one. Its cost is that of `complex_of`, and linear in the text that it makes.
pub(crate) fn certify(
    alloc: Global,
    book: &Book,
    surface: &Surface,
    moved: Moved,
    regions: &Regions,
    generators: &Generators,
) -> Result<Certificate, NoMemory>
    requires surface { IsSurfaceOf book.now surface.now }
    requires most_moves { book.now.limits.moves ≤ 20000 }
    requires most_generators { book.now.limits.generators ≤ 20000 }
    requires drawings { AreDrawings book.now surface.now moved }
    requires moves { length moved.fingers ≤ book.now.limits.moves }
    requires table { IsTableOf moved.last regions.now }
    requires generators { generators.now ≡ generators_of moved.last }
    requires within { length generators.now ≤ book.now.limits.generators }
    ensures { IfOk result (IsCertificateOf book.now) }
{
    let complex = complex_of(alloc, &moved.last, regions, generators)?;
    certificate_of(alloc, book, surface, moved, complex)
}
