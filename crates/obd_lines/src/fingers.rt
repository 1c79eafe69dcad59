// What is told of finger moves.
use crate::drawings::{read, strands_told};
use crate::pages::polygon_of;
use crate::stop::Stop;
use drawing::{Drawing, Finger};
use move_log::{Log, ReplayRefusal};
use obd_base::{Items, SideNo, StrandNo};
use std::alloc::Global;

// The number before the first point, and what is behind it.
fn number_of(text: &str) -> Result<(u32, &str), Stop> {
    let (word, rest) = text.split_once('.').unwrap_or((text, ""));
    match word.parse::<u32>() {
        Ok(number) => Ok((number, rest)),
        Err(_) => Err(Stop::NotRead),
    }
}

/// A finger: `0.2.3.2` pushes chord 2 of strand 0 into segment 2 of side 3.
pub(crate) fn finger_of(text: &str) -> Result<Finger, Stop> {
    let (strand, rest) = number_of(text)?;
    let (chord, rest) = number_of(rest)?;
    let (side, rest) = number_of(rest)?;
    let (segment, _) = number_of(rest)?;
    Ok(Finger {
        strand: StrandNo::new(strand),
        chord,
        side: SideNo::new(side),
        segment,
    })
}

fn fingers_of(alloc: Global, text: &str) -> Result<Items<Finger>, Stop> {
    let mut fingers = Items::new(alloc);
    for word in text.split_whitespace() {
        fingers.push(finger_of(word)?)?;
    }
    Ok(fingers)
}

/// A drawing after some fingers, `PAGE : EXITS : FINGERS`: its exits, and the number of the first finger that isn't legal
/// where there is one. The drawing then stands before that finger.
pub(crate) fn fingers_told(alloc: Global, given: &str) -> Result<String, Stop> {
    let Some((page, rest)) = given.split_once(" : ") else {
        return Err(Stop::NotRead);
    };
    let Some((exits, fingers)) = rest.split_once(" : ") else {
        return Err(Stop::NotRead);
    };
    let polygon = polygon_of(alloc, page)?;
    match read(alloc, &polygon, exits)? {
        Ok(drawing) => replayed(alloc, drawing, fingers),
        Err(_) => Err(Stop::NotRead),
    }
}

fn replayed(alloc: Global, mut drawing: Drawing, fingers: &str) -> Result<String, Stop> {
    let log = Log {
        slides: Items::new(alloc),
        fingers: fingers_of(alloc, fingers)?,
    };
    if drawing.points() > 1000 || log.fingers.len() > 1000 {
        return Err(Stop::NotRead);
    }
    let illegal = match log.replay(&mut drawing) {
        Ok(()) => None,
        Err(ReplayRefusal::IllegalMove { number }) => Some(number),
        Err(ReplayRefusal::NoMemory) => return Err(Stop::NoMemory),
    };
    let mut text = strands_told(alloc, &drawing)?;
    if let Some(number) = illegal {
        write!(text, ", illegal {number}")?;
    }
    Ok(text)
}
