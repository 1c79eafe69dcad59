// The copies of the curve: one full loop for each meeting.
ghost use Rattle.std.specs.Prelude.{◌≡◌, ◌<◌, ◌≤◌, ◌^◌, ◌++◌, suc, true, false, length, map, OnOk};
ghost use Rattle.obd_base.specs.Lists.{below};
ghost use Rattle.dehn_twist.specs.Surgery.{line_index, loop_along, meeting_count, meetings_upto};
ghost use Rattle.dehn_twist.specs.Tables.{round};

use crate::order::Merged;
use obd_base::{Exit, NoMemory, Sign};

// The number of the exit so many exits after another one, round.
fn round(count: usize, from: usize, step: usize) -> usize
    requires from { from < count }
    requires step { step < count }
    requires few { count ≤ 32 }
    ensures value { result ≡ round count from step }
    ensures inside { result < count }
{
    if from + step < count {
        from + step
    } else {
        from + step - count
    }
}

// The place of a line among so many at the exit where a chord of the curve ends, for a positive twist; so many
// meetings come before the next chord.
fn index_plus(lines: u32, upto: u32, line: u32) -> u32
    requires lines { lines ≤ 2 ^ 20 }
    requires upto { upto ≤ lines }
    requires line { line < lines }
    ensures value { result ≡ line_index Sign.Plus lines upto line }
    ensures inside { result < lines }
{
    if line < upto {
        upto - 1 - line
    } else {
        upto + lines - 1 - line
    }
}

// The same for a twist of either sign.
fn line_index(sign: Sign, lines: u32, upto: u32, line: u32) -> u32
    requires lines { lines ≤ 2 ^ 20 }
    requires upto { upto ≤ lines }
    requires line { line < lines }
    ensures value { result ≡ line_index sign lines upto line }
    ensures inside { result < lines }
{
    let index = index_plus(lines, upto, line);
    match sign {
        Sign::Plus => index,
        Sign::Minus => lines - 1 - index,
    }
}

// Appends a loop forward from an exit on.
pub(crate) fn put_forward(
    merged: &Merged,
    uptos: &[u32],
    sign: Sign,
    from: usize,
    line: u32,
    row: &mut Vec<Exit>,
) -> Result<(), NoMemory>
    requires uptos { uptos.now ≡ map (meetings_upto merged.now.drawing merged.now.curve) (below (suc (length merged.now.curve))) }
    requires from { from < length merged.now.curve }
    requires line { line < meeting_count merged.now.drawing merged.now.curve }
    ensures { OnOk result (row.new.items ≡ row.old.items
        ++ loop_along merged.now.drawing merged.now.curve sign true (meeting_count merged.now.drawing merged.now.curve) from line) }
{
    let exits = merged.curve();
    let lines = uptos[exits.len()];
    for step in 0..exits.len() {
        let at = round(exits.len(), from, step);
        let index = line_index(sign, lines, uptos[at + 1], line);
        row.push(merged.copy_of(lines, exits[at], index))?;
    }
    Ok(())
}

// Appends a loop backward to an exit.
pub(crate) fn put_backward(
    merged: &Merged,
    uptos: &[u32],
    sign: Sign,
    from: usize,
    line: u32,
    row: &mut Vec<Exit>,
) -> Result<(), NoMemory>
    requires uptos { uptos.now ≡ map (meetings_upto merged.now.drawing merged.now.curve) (below (suc (length merged.now.curve))) }
    requires from { from < length merged.now.curve }
    requires line { line < meeting_count merged.now.drawing merged.now.curve }
    ensures { OnOk result (row.new.items ≡ row.old.items
        ++ loop_along merged.now.drawing merged.now.curve sign false (meeting_count merged.now.drawing merged.now.curve) from line) }
{
    let exits = merged.curve();
    let lines = uptos[exits.len()];
    for step in 0..exits.len() {
        let at = round(exits.len(), from, exits.len() - 1 - step);
        let index = lines - 1 - line_index(sign, lines, uptos[at + 1], line);
        row.push(merged.copy_of(lines, merged.curve_entry(exits[at]), index))?;
    }
    Ok(())
}
