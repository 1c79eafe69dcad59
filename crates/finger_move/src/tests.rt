// What no clause says: that memory suffices for a worked finger.
ghost use Rattle.std.specs.Prelude.{◌≡◌, [], ◌∷◌, IfOk};
ghost use Rattle.page_surface.specs.Polygon.{paired};

use crate::{Finger, apply, is_legal};
use drawing::Drawing;
use obd_base::{Exit, NoMemory, SideNo, StrandNo};
use page_surface::Polygon;
use std::alloc::Global;
use std::test::Fail;

// The sides A, B, A, B.
fn torus(alloc: Global) -> Result<Polygon, NoMemory>
    ensures { IfOk result (λ polygon. polygon ≡ paired (2 ∷ 3 ∷ 0 ∷ 1 ∷ [])) }
{
    let mut pairs = Vec::new(alloc);
    pairs.push(SideNo::new(2))?;
    pairs.push(SideNo::new(3))?;
    pairs.push(SideNo::new(0))?;
    pairs.push(SideNo::new(1))?;
    Polygon::of(alloc, pairs)
}

// Makes room in a small drawing.
fn make_room(drawing: &mut Drawing, fingers: u8) -> Result<(), NoMemory> {
    if drawing.points() <= 1000 {
        drawing.reserve(u32::from(fingers))?;
    }
    Ok(())
}

// Pushes the finger where it is legal and there is room, and answers whether it does.
fn push(drawing: &mut Drawing, finger: &Finger) -> bool {
    if drawing.room() == 0 || !is_legal(drawing, finger) {
        return false;
    }
    apply(drawing, finger);
    true
}

// Whether a strand is there and has these exits.
fn has_exits(drawing: &Drawing, strand: u32, places: &[[u32; 2]]) -> Result<bool, NoMemory> {
    if strand >= drawing.polygon().sides() / 2 {
        return Ok(false);
    }
    let exits = drawing.exits(StrandNo::new(strand))?;
    if exits.len() != places.len() {
        return Ok(false);
    }
    for at in 0..exits.len() {
        let place = places[at];
        let there = Exit {
            side: SideNo::new(place[0]),
            place: place[1],
        };
        if exits[at] != there {
            return Ok(false);
        }
    }
    Ok(true)
}

#[test]
fn finger_of_the_untwisted_torus(rt: HostRuntime) -> Result<(), Fail> {
    let alloc = rt.alloc();
    let polygon = torus(alloc)?;
    let mut drawing = Drawing::identity(alloc, &polygon)?;
    make_room(&mut drawing, 2)?;
    let finger = Finger {
        strand: StrandNo::new(0),
        chord: 0,
        side: SideNo::new(1),
        segment: 0,
    };
    assert!(rt; push(&mut drawing, &finger));
    assert!(rt; has_exits(&drawing, 0, &[[1, 0], [3, 1], [2, 0]])?);
    assert!(rt; has_exits(&drawing, 1, &[[3, 0]])?);
    let nowhere = Finger {
        strand: StrandNo::new(2),
        chord: 0,
        side: SideNo::new(1),
        segment: 0,
    };
    assert!(rt; !push(&mut drawing, &nowhere));
    Ok(())
}
