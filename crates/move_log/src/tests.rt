// What no clause says: that a text that is short enough for memory is read and written, and its fingers are carried out.
ghost use Rattle.std.specs.Prelude.{◌≡◌, [], ◌∷◌, IfOk};
ghost use Rattle.page_surface.specs.Polygon.{paired};

use crate::{Log, LogRefusal, ReplayRefusal};
use drawing::{Drawing, Finger};
use obd_base::{NoMemory, SideNo, StrandNo};
use page_surface::Polygon;
use std::alloc::Global;
use std::test::Fail;

const TEXT: &[u8] = b"slide 0\nslide 4294967295\nfinger 0 2 3 2\nfinger 1 10 3 1\n";

#[test]
fn text_is_read_back(rt: HostRuntime) -> Result<(), Fail> {
    let alloc = rt.alloc();
    let log = match Log::parse(alloc, TEXT) {
        Ok(log) => log,
        Err(_) => return Err(Fail::new("refused")),
    };
    let slides = [SideNo::new(0), SideNo::new(u32::MAX)];
    assert_eq!(rt; log.slides.as_slice(), slides.as_slice());
    let last = Finger {
        strand: StrandNo::new(1),
        chord: 10,
        side: SideNo::new(3),
        segment: 1,
    };
    assert_eq!(rt; log.fingers.as_slice().last(), Some(&last));
    let text = log.text(alloc)?;
    assert_eq!(rt; text.bytes(), TEXT);
    Ok(())
}

#[test]
fn first_wrong_line_is_named(rt: HostRuntime) -> Result<(), Fail> {
    for (text, line) in [
        ("finger 0 2 3 2\nslide 0\n", 2),
        ("slide 0\nslide 01\n", 2),
        ("slide 4294967296\n", 1),
        ("slide 0\nfinger 0 2 3 2", 2),
        ("slide 0\n\n", 2),
        ("slide +1\n", 1),
        ("slide  1\n", 1),
        ("finger 0 2 3\nfinger 0 2 3 2\n", 1),
        ("slide 1\nfinger 0 2 3 2\nfinger 0 2 3 2 \n", 3),
        ("slide 1\r\n", 1),
    ] {
        let refusal = match Log::parse(rt.alloc(), text.as_bytes()) {
            Ok(_) => return Err(Fail::new("read")),
            Err(refusal) => refusal,
        };
        assert_eq!(rt; refusal, LogRefusal::Form { line }, "{text}");
    }
    Ok(())
}

// The sides A, B, A, B.
fn torus(alloc: Global) -> Result<Polygon, NoMemory>
    ensures { IfOk result (λ polygon. polygon ≡ paired (2 ∷ 3 ∷ 0 ∷ 1 ∷ [])) }
{
    let mut pairs = Vec::new(alloc);
    pairs.push(SideNo::new(2))?;
    pairs.push(SideNo::new(3))?;
    pairs.push(SideNo::new(0))?;
    pairs.push(SideNo::new(1))?;
    Polygon::of(alloc, pairs)
}

// Replays a short log on a small drawing.
fn replay(log: &Log, drawing: &mut Drawing) -> Result<(), ReplayRefusal> {
    if drawing.points() > 1000 || log.fingers.len() > 1000 {
        return Ok(());
    }
    log.replay(drawing)
}

#[test]
fn replay_ends_before_the_first_illegal_finger(rt: HostRuntime) -> Result<(), Fail> {
    let alloc = rt.alloc();
    let text = b"slide 3\nfinger 0 0 1 0\nfinger 0 0 1 0\nfinger 2 0 1 0\nfinger 0 0 1 0\n";
    let log = match Log::parse(alloc, text) {
        Ok(log) => log,
        Err(_) => return Err(Fail::new("refused")),
    };
    let polygon = torus(alloc)?;
    let mut drawing = Drawing::identity(alloc, &polygon)?;
    assert_eq!(rt;
        replay(&log, &mut drawing),
        Err(ReplayRefusal::IllegalMove { number: 2 })
    );
    assert_eq!(rt; drawing.points(), 6);
    Ok(())
}
