// Polygons joined along their labels.
ghost use Rattle.std.specs.Prelude.{◌≡◌, ◌<◌, ◌+◌, ◌++◌, [], length, take, drop, position, slice_index_or, slice_set, IfOk, OnOk, IfSome, IsSome};
ghost use Rattle.std.specs.List.{remove};
ghost use Rattle.page_surface.specs.Joining.{is_side, joined};
ghost use Rattle.page_surface.specs.Labels.{side_labels_of};
ghost use Rattle.arc_basis.specs.Basis.{joined_sides};
ghost use Rattle.arc_basis.specs.SeamTables.{place_in, polygon_with};

use crate::sides::polygon_sides;
use obd_base::{Items, LabelNo, NoMemory};
use page_surface::{Page, SideLabel};
use std::alloc::Global;

// Where a side stands: on which of some polygons, and at which place there.
#[derive(Clone, Copy)]
struct SidePlace {
    polygon: usize,
    place: usize,
}

// What joining leaves: the sides of the one polygon, and the seams in the order of joining.
#[derive(Drop)]
pub(crate) struct Whole {
    pub(crate) sides: Items<SideLabel>,
    pub(crate) seams: Items<LabelNo>,
}

// The polygons of a page, each the list of its sides by label and occurrence.
fn page_polygons(alloc: Global, page: &Page) -> Result<Vec<Items<SideLabel>>, NoMemory>
    ensures { IfOk result (λ polygons. polygons.items ≡ side_labels_of [] page.now) }
{
    let mut polygons = Vec::new(alloc);
    for polygon in 0..page.polygon_count() {
        polygons.push(polygon_sides(alloc, page, polygon)?)?;
    }
    Ok(polygons)
}

// Where a side stands on a polygon. Linear in the sides.
fn place_of(sides: &[SideLabel], side: &SideLabel) -> Option<usize>
    ensures { result ≡ position (is_side side.now) sides.now }
{
    sides.iter().position(|other| side == other)
}

// The first of some polygons that has a side, and where it stands there. Linear in the sides of all.
fn side_place(polygons: &[Items<SideLabel>], side: &SideLabel) -> Option<SidePlace>
    requires { polygon_with side.now polygons.now < length polygons.now }
    ensures polygon { IfSome result (λ at. at.polygon ≡ polygon_with side.now polygons.now) }
    ensures place { IfSome result (λ at. at.place ≡ place_in side.now polygons.now) }
    ensures found { IsSome result }
{
    for polygon in 0..polygons.len() {
        if let Some(place) = place_of(polygons[polygon].as_slice(), side) {
            return Some(SidePlace { polygon, place });
        }
    }
    None
}

// The sides of one polygon set in the place of a side of another: from the one after its own side round to the
// one before it. Linear in the sides.
fn set_in_place(
    alloc: Global,
    first: &[SideLabel],
    place: usize,
    second: &[SideLabel],
    own: usize,
) -> Result<Items<SideLabel>, NoMemory>
    requires place { place < length first.now }
    requires own { own < length second.now }
    ensures { IfOk result (λ sides. sides
        ≡ take place first.now ++ (drop (own + 1) second.now ++ (take own second.now ++ drop (place + 1) first.now))) }
{
    let mut sides = Vec::new(alloc);
    sides.extend_from_slice(&first[..place])?;
    sides.extend_from_slice(&second[own + 1..])?;
    sides.extend_from_slice(&second[..own])?;
    sides.extend_from_slice(&first[place + 1..])?;
    Ok(Items::from_vec(sides))
}

// Joins two polygons along a label whose sides stand at these places: the second is set in place of the label's
// side on the first, and goes away. Linear in the sides.
fn splice(
    alloc: Global,
    polygons: &mut Vec<Items<SideLabel>>,
    first: SidePlace,
    second: SidePlace,
) -> Result<(), NoMemory>
    requires first { first.polygon < length polygons.old.items }
    requires second { second.polygon < length polygons.old.items }
    requires place { first.place < length (slice_index_or polygons.old.items first.polygon []) }
    requires own { second.place < length (slice_index_or polygons.old.items second.polygon []) }
    ensures { OnOk result (polygons.new.items ≡ remove (slice_set polygons.old.items first.polygon
        (take first.place (slice_index_or polygons.old.items first.polygon [])
        ++ (drop (second.place + 1) (slice_index_or polygons.old.items second.polygon [])
        ++ (take second.place (slice_index_or polygons.old.items second.polygon [])
        ++ drop (first.place + 1) (slice_index_or polygons.old.items first.polygon []))))) second.polygon) }
{
    let both = set_in_place(
        alloc,
        polygons[first.polygon].as_slice(),
        first.place,
        polygons[second.polygon].as_slice(),
        second.place,
    )?;
    polygons[first.polygon] = both;
    polygons.remove(second.polygon);
    Ok(())
}

// Joins the polygons of a page along its labels, taken by number. At most the labels times the sides.
pub(crate) fn join_polygons(alloc: Global, page: &Page) -> Result<Whole, NoMemory>
    ensures sides { IfOk result (λ whole. whole.sides ≡ joined_sides (joined page.now)) }
    ensures seams { IfOk result (λ whole. whole.seams ≡ (joined page.now).seams) }
{
    let mut polygons = page_polygons(alloc, page)?;
    let mut seams = Items::new(alloc);
    for number in 0..page.label_count() {
        let label = LabelNo::new(number);
        let first = side_place(
            &polygons,
            &SideLabel {
                label,
                occurrence: 0,
            },
        )
        .unwrap();
        let second = side_place(
            &polygons,
            &SideLabel {
                label,
                occurrence: 1,
            },
        )
        .unwrap();
        if first.polygon != second.polygon {
            splice(alloc, &mut polygons, first, second)?;
            seams.push(label)?;
        }
    }
    Ok(Whole {
        sides: polygons.remove(0),
        seams,
    })
}
