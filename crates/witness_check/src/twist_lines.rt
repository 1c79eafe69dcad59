// The words that the twist lines say.
ghost use Rattle.std.specs.Prelude.{◌≡◌, ◌≤◌, ◌<◌, ◌^◌, All, length, Err, IfErr, IfOk, IfSome, None, Ok, OnOk, Some};
ghost use Rattle.std.specs.List.{position};
ghost use Rattle.std.specs.Str.{bytes_eq};
ghost use Rattle.curve_paths.specs.Curves.{IsCurve};
ghost use Rattle.curve_paths.specs.Twists.{AreWords};
ghost use Rattle.witness_check.specs.BookRules.{AreEntries, TwistsCome, WordsAre, curve_number, is_entry, numbered};
ghost use Rattle.witness_check.specs.Rules.{is_power};
ghost use Rattle.witness_check.specs.declared.fault.Fault.{Fault as Broken};

use crate::checked::Reason;
use crate::curve_lines::has_name;
use crate::fault::{Fault, Stop};
use crate::surface::Surface;
use curve_paths::{NamedPath, NamedTwist, TooLong, Twist};
use monodromy::MonodromyRefusal;
use obd_base::{Items, Name, NoMemory, SideNo};
use std::alloc::Global;

// The most single twists of an entry.
const MOST_TURNS: u32 = 64;

// Whether a power is from -64 to 64 and not 0.
fn is_power(power: i32) -> bool
    ensures { result ≡ is_power power }
{
    let turns = power.unsigned_abs();
    1 <= turns && turns <= MOST_TURNS
}

// Whether an entry has a curve's name, and a power.
fn is_entry(curves: &[NamedPath], twist: &NamedTwist) -> bool
    ensures { result ≡ is_entry curves.now twist.now }
{
    has_name(curves, &twist.name) && is_power(twist.power)
}

// How many entries come before the first that isn't one.
fn entry_count(curves: &[NamedPath], twists: &[NamedTwist]) -> usize
    ensures { AreEntries curves.now twists.now result }
{
    for (number, twist) in twists.iter().enumerate() {
        if !is_entry(curves, twist) {
            return number;
        }
    }
    twists.len()
}

// The number of the first curve with the name.
fn first_named(curves: &[NamedPath], name: &Name) -> Option<usize>
    ensures { result ≡ position (λ curve. bytes_eq name.now curve.name) curves.now }
{
    curves
        .iter()
        .position(|curve| name.as_str() == curve.name.as_str())
}

// The number of the first curve with the name, or how many curves there are.
fn curve_number(curves: &[NamedPath], name: &Name) -> usize
    ensures value { result ≡ curve_number curves.now name.now }
    ensures within { result ≤ length curves.now }
{
    first_named(curves, name).unwrap_or(curves.len())
}

// The entries by the numbers of their curves.
fn numbered(
    alloc: Global,
    curves: &[NamedPath],
    twists: &[NamedTwist],
) -> Result<Items<Twist>, NoMemory>
    requires { length curves.now ≤ 32 }
    ensures { IfOk result (λ entries. entries ≡ numbered curves.now twists.now) }
{
    let mut entries = Items::new(alloc);
    for twist in twists {
        entries.push(Twist {
            curve: curve_number(curves, &twist.name) as u32,
            power: twist.power,
        })?;
    }
    Ok(entries)
}

// The fault of an entry after which the words are too long.
fn too_long(long: TooLong) -> Stop
    requires { long.twist < 2 ^ 32 }
    ensures { result ≡ Stop.Fault (record { at = long.twist; reason = Reason.Limit }) }
{
    Stop::Fault(Fault {
        at: long.twist as u32,
        reason: Reason::Limit,
    })
}

/// The words of all strands after some entries of a twist word on a surface, each of a curve by its name. The
/// fault is the first entry that has no curve's name, or a power that is 0 or not from -64 to 64, or a single
/// twist after which the words have more than 4,000 letters together. For each entry linear in the names, and
/// for each single twist in the letters of the words and in those that are set.
pub(crate) fn words_of(
    alloc: Global,
    surface: &Surface,
    curves: &[NamedPath],
    twists: &[NamedTwist],
) -> Result<Items<Items<SideNo>>, Stop>
    requires few_curves { length curves.now ≤ 32 }
    requires few { length twists.now ≤ 256 }
    requires curves { All (λ curve. IfSome curve (IsCurve surface.now.slid.polygon)) surface.now.slid.curves }
    ensures words { IfOk result (λ words. WordsAre surface.now.slid curves.now twists.now words) }
    ensures of_strands { IfOk result (AreWords surface.now.slid.polygon) }
    ensures kept { OnOk result (TwistsCome surface.now.slid curves.now twists.now None) }
    ensures fault { IfErr result (λ stop. (fault : Broken) → stop ≡ Stop.Fault fault → TwistsCome surface.now.slid curves.now twists.now (Some fault)) }
{
    let count = entry_count(curves, twists);
    let entries = numbered(alloc, curves, &twists[..count])?;
    let slid = &surface.slid;
    match monodromy::words_of(
        alloc,
        &slid.polygon,
        slid.curves.as_slice(),
        entries.as_slice(),
    ) {
        Ok(words) => {
            if count < twists.len() {
                return Err(Stop::Fault(Fault {
                    at: count as u32,
                    reason: Reason::Twist,
                }));
            }
            Ok(words)
        }
        Err(MonodromyRefusal::TooLong(long)) => Err(too_long(long)),
        Err(MonodromyRefusal::NoMemory) => Err(Stop::NoMemory),
    }
}
