// The sides of a polygon after a slide.
ghost use Rattle.std.specs.Prelude.{◌≡◌, ◌≢◌, ℕ, ◌<◌, ◌≤◌, ◌++◌, ◌∷◌, [], cond, count_by, length, map, nat_eq, slice_index_or, All, IfOk, OnOk};
ghost use Rattle.std.specs.List.{position_or_len};
ghost use Rattle.obd_base.specs.Lists.{below};
ghost use Rattle.page_surface.specs.Polygon.{IsPolygon, partner, sides};
ghost use Rattle.handle_slide.specs.Slide.{new_number, side_after as next_side, slid_polygon, slid_sides as sides_after};

use obd_base::{NoMemory, SideNo};
use page_surface::Polygon;
use std::alloc::Global;

// The side after a side, read round.
pub(crate) fn side_after(polygon: &Polygon, side: SideNo) -> SideNo
    requires { side < sides polygon.now }
    ensures { result ≡ next_side polygon.now side }
{
    let sides = polygon.sides();
    let next = side.number() + 1;
    if next == sides {
        SideNo::new(0)
    } else {
        SideNo::new(next)
    }
}

// Puts a side last, and before the partner of the side that is slid the side after that one.
fn put_side(
    order: &mut Vec<SideNo>,
    other: SideNo,
    partner: SideNo,
    next: SideNo,
) -> Result<(), NoMemory>
    ensures { OnOk result (order.new.items ≡ order.old.items ++ cond (nat_eq other partner) (next ∷ other ∷ []) (other ∷ [])) }
{
    if other == partner {
        order.push(next)?;
    }
    order.push(other)?;
    Ok(())
}

// The sides after a slide, in order, by their old numbers.
fn slid_sides(alloc: Global, polygon: &Polygon, side: SideNo) -> Result<Vec<SideNo>, NoMemory>
    requires { side < sides polygon.now }
    ensures { IfOk result (λ order. order.items ≡ sides_after polygon.now side) }
{
    let count = polygon.sides();
    let partner = polygon.pair(side);
    let next = side_after(polygon, side);
    let mut order = Vec::new(alloc);
    order.push(side)?;
    for offset in 0..count - 2 {
        let other = SideNo::new((side.number() + 2 + offset) % count);
        put_side(&mut order, other, partner, next)?;
    }
    Ok(order)
}

// The place of each number in a list in which each stands once. Linear in the list.
fn places_in(alloc: Global, order: &[SideNo]) -> Result<Vec<SideNo>, NoMemory>
    requires few { length order.now ≤ 16 }
    requires in_range { All (λ s. s < length order.now) order.now }
    requires once { (s : ℕ) → s < length order.now → count_by (nat_eq s) order.now ≡ 1 }
    ensures { IfOk result (λ places. places.items ≡ map (λ s. position_or_len (nat_eq s) order.now) (below (length order.now))) }
{
    let mut places = vec![in alloc; SideNo::new(0); order.len()]?;
    for (place, side) in order.iter().enumerate() {
        places[side.number() as usize] = SideNo::new(place as u32);
    }
    Ok(places)
}

// The new numbers of the partners of some sides.
fn renumbered(
    alloc: Global,
    polygon: &Polygon,
    order: &[SideNo],
    numbers: &[SideNo],
) -> Result<Vec<SideNo>, NoMemory>
    requires valid { IsPolygon polygon.now }
    requires in_range { All (λ s. s < sides polygon.now) order.now }
    requires size { length numbers.now ≡ sides polygon.now }
    ensures { IfOk result (λ pairs. pairs.items ≡ map (λ s. slice_index_or numbers.now (partner polygon.now s) 0) order.now) }
{
    let mut pairs = Vec::new(alloc);
    for side in order {
        pairs.push(numbers[polygon.pair(*side).number() as usize])?;
    }
    Ok(pairs)
}

// The polygon after a slide, and the new number of each of its sides by the old ones.
#[derive(Drop)]
pub(crate) struct NewSides {
    pub(crate) numbers: Vec<SideNo>,
    pub(crate) polygon: Polygon,
}

impl NewSides {
    // The sides after a slide. Linear in the sides.
    pub(crate) fn of(alloc: Global, polygon: &Polygon, side: SideNo) -> Result<NewSides, NoMemory>
        requires side { side < sides polygon.now }
        requires slides { next_side polygon.now side ≢ partner polygon.now side }
        ensures numbers { IfOk result (λ new. new.numbers.items ≡ map (new_number polygon.now side) (below (sides polygon.now))) }
        ensures polygon { IfOk result (λ new. new.polygon ≡ slid_polygon polygon.now side) }
    {
        // That a polygon has sides says that it is one.
        let _ = polygon.sides();
        let order = slid_sides(alloc, polygon, side)?;
        let numbers = places_in(alloc, &order)?;
        let pairs = renumbered(alloc, polygon, &order, &numbers)?;
        let polygon = Polygon::of(alloc, pairs)?;
        Ok(NewSides { numbers, polygon })
    }
}
