// The loops at the meetings of a strand's chord with the curve.
ghost use Rattle.std.specs.Prelude.{◌≡◌, ◌-◌, ◌<◌, ◌++◌, ◌&&◌, not, true, cond, length, OnOk};
ghost use Rattle.std.specs.List.{flat_map};
ghost use Rattle.obd_base.specs.Lists.{Mem};
ghost use Rattle.page_surface.specs.Drawing.{beyond, crosses};
ghost use Rattle.dehn_twist.specs.Surgery.{curve_ring, goes_up, is_forward, loop_along, loop_at, meeting_count, meeting_number, meetings as meetings_of, merged_chords, merged_curve};
ghost use Rattle.dehn_twist.specs.Tables.{loop_met, ring_at};

use crate::chords::Chord;
use crate::copies::{put_backward, put_forward};
use crate::meetings::Meetings;
use crate::ring::CurvePoint;
use obd_base::{Exit, NoMemory, Sign};

// Whether a loop is forward along the curve, at a point where the curve's chord ends or starts.
fn is_forward(sign: Sign, chord: Chord, ends: bool) -> bool
    ensures { result ≡ is_forward sign chord ends }
{
    match sign {
        Sign::Plus => chord.goes_up() == ends,
        Sign::Minus => chord.goes_up() != ends,
    }
}

// Appends the loop at the meeting of a strand's chord with a chord of the curve, at one end of that or the other.
fn put_loop(
    meetings: &Meetings,
    sign: Sign,
    chord: Chord,
    point: CurvePoint,
    row: &mut Vec<Exit>,
) -> Result<(), NoMemory>
    requires chord { Mem chord (merged_chords meetings.now.drawing meetings.now.curve) }
    requires point { point.chord < length meetings.now.curve }
    requires crosses { crosses (merged_curve meetings.now.drawing meetings.now.curve point.chord) chord ≡ true }
    ensures { OnOk result (row.new.items ≡ row.old.items
        ++ loop_along meetings.now.drawing meetings.now.curve sign (is_forward sign chord point.ends) (meeting_count meetings.now.drawing meetings.now.curve)
        point.chord (meeting_number meetings.now.drawing meetings.now.curve point.chord chord)) }
{
    let merged = meetings.merged();
    let uptos = meetings.uptos();
    let line = meetings.number(point.chord, chord);
    if is_forward(sign, chord, point.ends) {
        put_forward(merged, uptos, sign, point.chord as usize, line, row)
    } else {
        put_backward(merged, uptos, sign, point.chord as usize, line, row)
    }
}

// Whether a strand's chord meets the curve at a point of it: the point lies between the chord's ends, its mate doesn't.
fn meets(chord: Chord, point: CurvePoint) -> bool
    ensures { result ≡ (beyond chord point.number && not (beyond chord point.mate)) }
{
    chord.beyond(point.number) && !chord.beyond(point.mate)
}

// Appends the loop at a point of the curve, by its number, where a strand's chord meets the curve there.
fn put_met(
    meetings: &Meetings,
    sign: Sign,
    chord: Chord,
    number: usize,
    row: &mut Vec<Exit>,
) -> Result<(), NoMemory>
    requires chord { Mem chord (merged_chords meetings.now.drawing meetings.now.curve) }
    requires number { number < length (curve_ring meetings.now.drawing.polygon meetings.now.curve) }
    ensures { OnOk result (row.new.items ≡ row.old.items
        ++ loop_met meetings.now.drawing meetings.now.curve sign chord (ring_at meetings.now.drawing.polygon meetings.now.curve number)) }
{
    let _ = meetings.merged();
    let point = meetings.ring()[number];
    if meets(chord, point) {
        put_loop(meetings, sign, chord, point, row)
    } else {
        Ok(())
    }
}

// The number of the point to which a chord comes after so many of all.
fn point_met(chord: Chord, count: usize, step: usize) -> usize
    requires { step < count }
    ensures value { result ≡ cond (goes_up chord) step (count - 1 - step) }
    ensures inside { result < count }
{
    if chord.goes_up() {
        step
    } else {
        count - 1 - step
    }
}

// Appends the loops at all meetings of a strand's chord, in its order. Linear in the points of the curve and the exits
// put there.
pub(crate) fn put_loops(
    meetings: &Meetings,
    sign: Sign,
    chord: Chord,
    row: &mut Vec<Exit>,
) -> Result<(), NoMemory>
    requires { Mem chord (merged_chords meetings.now.drawing meetings.now.curve) }
    ensures { OnOk result (row.new.items ≡ row.old.items
        ++ flat_map (loop_at meetings.now.drawing meetings.now.curve sign (meeting_count meetings.now.drawing meetings.now.curve) chord)
        (meetings_of meetings.now.drawing meetings.now.curve chord)) }
{
    let count = meetings.ring().len();
    for step in 0..count {
        put_met(meetings, sign, chord, point_met(chord, count, step), row)?;
    }
    Ok(())
}
