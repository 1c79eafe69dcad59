// The pushes of a twist along a curve: the word that is set where a path passes a side.
ghost use Rattle.std.specs.Prelude.{◌≡◌, ◌<◌, ◌≤◌, ◌++◌, ◌&&◌, ℕ, [], nat_eq, length, map, All, IsTrue, IfOk, OnOk};
ghost use Rattle.std.specs.List.{position_or_len};
ghost use Rattle.page_surface.specs.Drawing.{is_at};
ghost use Rattle.page_surface.specs.Polygon.{IsPolygon, partner, sides};
ghost use Rattle.page_surface.specs.Words.{inverse, reduced};
ghost use Rattle.curve_paths.specs.Curves.{IsCurve, curve_points, push_at, rho, signed, turned};
ghost use Rattle.path_words.specs.Pushes.{IsPushTable, push_of, reduced_pushes};

use crate::reduce_word::reduce;
use curve_paths::Curve;
use obd_base::{Exit, Items, NoMemory, SideNo, Sign};
use page_surface::Polygon;
use std::alloc::Global;
use std::marker::Model;

// How many points the curve has on a side.
fn points_on(polygon: &Polygon, exits: &[Exit], side: SideNo) -> u32
    requires in_range { All (λ e. e.side < sides polygon.now) exits.now }
    requires few { length exits.now ≤ 32 }
    ensures { result ≡ curve_points polygon.now exits.now side }
{
    let mut count = 0;
    for exit in exits {
        if exit.side == side {
            count += 1;
        }
        if polygon.pair(exit.side) == side {
            count += 1;
        }
    }
    count
}

// The exit that leaves at a place of a side, and the number of exits where there is none.
fn leaving(exits: &[Exit], side: SideNo, place: u32) -> usize
    ensures { result ≡ position_or_len (λ e. is_at e side place) exits.now }
{
    for (number, exit) in exits.iter().enumerate() {
        if exit.side == side && exit.place == place {
            return number;
        }
    }
    exits.len()
}

// The exit at a place that leaves by the partner of a side, and the number of exits where there is none.
fn leaving_partner(polygon: &Polygon, exits: &[Exit], side: SideNo, place: u32) -> usize
    requires { All (λ e. e.side < sides polygon.now) exits.now }
    ensures { result ≡ position_or_len (λ e. nat_eq (partner polygon.now e.side) side && nat_eq e.place place) exits.now }
{
    for (number, exit) in exits.iter().enumerate() {
        if polygon.pair(exit.side) == side && exit.place == place {
            return number;
        }
    }
    exits.len()
}

// Appends the sides of some exits.
fn put_sides(word: &mut Vec<SideNo>, exits: &[Exit]) -> Result<(), NoMemory>
    ensures { OnOk result (word.new.items ≡ word.old.items ++ map (λ e. e.side) exits.now) }
{
    for exit in exits {
        word.push(exit.side)?;
    }
    Ok(())
}

// Appends the way back along some exits: the partners of their sides, the last first.
fn put_back(polygon: &Polygon, word: &mut Vec<SideNo>, exits: &[Exit]) -> Result<(), NoMemory>
    requires { All (λ e. e.side < sides polygon.now) exits.now }
    ensures { OnOk result (word.new.items ≡ word.old.items ++ inverse polygon.now (map (λ e. e.side) exits.now)) }
{
    let mut number = exits.len();
    while number > 0 {
        number -= 1;
        word.push(polygon.pair(exits[number].side))?;
    }
    Ok(())
}

// Appends the curve's word, read round from an exit on.
fn put_round(word: &mut Vec<SideNo>, exits: &[Exit], start: usize) -> Result<(), NoMemory>
    requires { start ≤ length exits.now }
    ensures { OnOk result (word.new.items ≡ word.old.items ++ turned start (map (λ e. e.side) exits.now)) }
{
    put_sides(word, &exits[start..])?;
    put_sides(word, &exits[..start])
}

// Appends the way back round the curve, which ends before an exit.
fn put_round_back(
    polygon: &Polygon,
    word: &mut Vec<SideNo>,
    exits: &[Exit],
    start: usize,
) -> Result<(), NoMemory>
    requires in_range { All (λ e. e.side < sides polygon.now) exits.now }
    requires start { start ≤ length exits.now }
    ensures { OnOk result (word.new.items ≡ word.old.items ++ inverse polygon.now (turned start (map (λ e. e.side) exits.now))) }
{
    put_back(polygon, word, &exits[..start])?;
    put_back(polygon, word, &exits[start..])
}

// Appends what a twist sets at the curve's point at a place of a side with so many points.
fn put_at_point(
    polygon: &Polygon,
    exits: &[Exit],
    sign: Sign,
    side: SideNo,
    place: u32,
    count: u32,
    word: &mut Vec<SideNo>,
) -> Result<(), NoMemory>
    requires valid { IsPolygon polygon.now }
    requires curve { IsCurve polygon.now exits.now }
    requires side { side < sides polygon.now }
    requires count { count ≡ curve_points polygon.now exits.now side }
    requires place { place < count }
    ensures { OnOk result (word.new.items ≡ word.old.items ++ signed polygon.now sign (rho polygon.now exits.now side place)) }
{
    let leaves = leaving(exits, side, place);
    if leaves < exits.len() {
        match sign {
            Sign::Plus => put_round(word, exits, leaves),
            Sign::Minus => put_round_back(polygon, word, exits, leaves),
        }
    } else {
        let enters = leaving_partner(polygon, exits, side, count - 1 - place);
        match sign {
            Sign::Plus => put_round_back(polygon, word, exits, enters + 1),
            Sign::Minus => put_round(word, exits, enters + 1),
        }
    }
}

// The push along a side, reduced: what a twist sets at the curve's points on it, in order.
fn push_along(
    alloc: Global,
    polygon: &Polygon,
    exits: &[Exit],
    sign: Sign,
    side: SideNo,
) -> Result<Vec<SideNo>, NoMemory>
    requires valid { IsPolygon polygon.now }
    requires curve { IsCurve polygon.now exits.now }
    requires few { length exits.now ≤ 32 }
    requires side { side < sides polygon.now }
    ensures { IfOk result (λ push. push.items ≡ reduced polygon.now (push_at polygon.now exits.now sign side)) }
{
    let count = points_on(polygon, exits, side);
    let mut push = Vec::new(alloc);
    for place in 0..count {
        put_at_point(polygon, exits, sign, side, place, count, &mut push)?;
    }
    reduce(polygon, &mut push);
    Ok(push)
}

// What a twist along a curve sets along each side, reduced. Contracts see it as the list of these words.
#[derive(Drop)]
pub(crate) struct Pushes {
    words: Items<Items<SideNo>>,
}

impl Model for Pushes {
    ghost use Rattle.std.specs.Prelude.{ℕ, List};

    ghost Value = { List (List ℕ) };

    ghost view = { λ pushes. pushes.words };
}

impl Pushes {
    // The pushes of a single twist. In no more steps than the points of the curve, which are twice its exits, times
    // its exits: an exit is found at a point in so many steps, and so many letters are set there.
    pub(crate) fn of(
        alloc: Global,
        polygon: &Polygon,
        curve: &Curve,
        sign: Sign,
    ) -> Result<Pushes, NoMemory>
        requires { IsCurve polygon.now curve.now }
        ensures value { IfOk result (λ pushes. pushes ≡ reduced_pushes polygon.now curve.now sign) }
        ensures table { IfOk result (λ pushes. IsPushTable polygon.now pushes) }
        ensures some { 1 ≤ length curve.now }
    {
        let exits = curve.exits();
        let mut words = Items::new(alloc);
        for side in 0..polygon.sides() {
            let push = push_along(alloc, polygon, exits, sign, SideNo::new(side))?;
            words.push(Items::from_vec(push))?;
        }
        Ok(Pushes { words })
    }

    // No push has a letter.
    pub(crate) fn are_empty(&self) -> bool
        ensures { IsTrue result → (k : ℕ) → push_of self.now k ≡ [] }
    {
        for push in self.words.as_slice() {
            if !push.as_slice().is_empty() {
                return false;
            }
        }
        true
    }

    // The push along a side.
    pub(crate) fn along(&self, side: SideNo) -> &[SideNo]
        requires { side < length self.now }
        ensures { result.now ≡ push_of self.now side }
    {
        self.words.as_slice()[side.number() as usize].as_slice()
    }
}
