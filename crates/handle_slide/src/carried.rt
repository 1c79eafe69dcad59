// A curve that is carried over a slide.
ghost use Rattle.std.specs.Prelude.{◌≡◌, ℕ, suc, ◌-◌, ◌<◌, ◌≤◌, ◌++◌, ◌∷◌, ◌&&◌, ◌||◌, [], cond, length, nat_eq, not, Some, None, IfOk, OnOk};
ghost use Rattle.std.specs.Option.{option_map_or};
ghost use Rattle.obd_base.specs.Lists.{Mem};
ghost use Rattle.page_surface.specs.Drawing.{exit};
ghost use Rattle.page_surface.specs.Polygon.{partner, sides};
ghost use Rattle.curve_paths.specs.Curves.{curve_entry, curve_points, exit_at, previous};
ghost use Rattle.handle_slide.specs.Carried.{IsOnTwo, IsSliding, inside_marks, marked, row_number, staying_of, two_rows};
ghost use Rattle.handle_slide.specs.Slide.{side_after as next_side, is_inside, is_slid, new_number, new_place, new_side_points, slid_exits as exits_after};

use crate::points::staying;
use crate::sides::side_after;
use obd_base::{Exit, NoMemory, SideNo};
use page_surface::Polygon;
use std::alloc::Global;
use std::marker::Model;

// The exits of a curve on a polygon of which a side is slid, with the new numbers of the sides and the number of the curve's
// points on each side.
#[derive(Drop)]
pub(crate) struct Carried<'a> {
    pub(crate) polygon: &'a Polygon,
    pub(crate) side: SideNo,
    pub(crate) numbers: &'a [SideNo],
    pub(crate) exits: &'a [Exit],
    pub(crate) counts: &'a [u32],
}

impl<'a> Model for Carried<'a> {
    ghost use Rattle.handle_slide.specs.Carried.{Carried as Shown, IsCarried};

    ghost Value = { Shown };

    ghost view = { λ c. record { polygon = c.polygon.now; side = c.side; exits = c.exits.now } };

    ghost invariant = { λ c. IsCarried (record { polygon = c.polygon.now; side = c.side; exits = c.exits.now }) c.numbers.now c.counts.now };
}

// Puts an exit last, where there is one.
fn put(exits: &mut Vec<Exit>, exit: Option<Exit>) -> Result<(), NoMemory>
    ensures { OnOk result (exits.new.items ≡ exits.old.items ++ option_map_or (λ e. e ∷ []) exit []) }
{
    if let Some(exit) = exit {
        exits.push(exit)?;
    }
    Ok(())
}

impl<'a> Carried<'a> {
    // The partner of a side.
    fn partner(&self, side: SideNo) -> SideNo
        requires { side < sides self.now.polygon }
        ensures value { result ≡ partner self.now.polygon side }
        ensures side { result < sides self.now.polygon }
        ensures known { IsSliding self.now }
    {
        let _ = &self.side;
        self.polygon.pair(side)
    }

    // The exit with a number.
    fn exit(&self, at: usize) -> Exit
        requires { at < length self.now.exits }
        ensures value { result ≡ exit_at self.now.exits at }
        ensures side { result.side < sides self.now.polygon }
        ensures place { result.place < curve_points self.now.polygon self.now.exits result.side }
        ensures known { IsSliding self.now }
    {
        let exits = self.exits;
        exits[at]
    }

    // How many exits there are.
    fn len(&self) -> usize
        ensures value { result ≡ length self.now.exits }
        ensures known { IsSliding self.now }
    {
        self.exits.len()
    }

    // How many points the curve has on a side.
    fn points(&self, side: SideNo) -> u32
        requires { side < sides self.now.polygon }
        ensures value { result ≡ curve_points self.now.polygon self.now.exits side }
        ensures few { result ≤ 64 }
        ensures known { IsSliding self.now }
    {
        self.counts[side.number() as usize]
    }

    // The new number of a side.
    fn new_number(&self, side: SideNo) -> SideNo
        requires { side < sides self.now.polygon }
        ensures value { result ≡ new_number self.now.polygon self.now.side side }
    {
        self.numbers[side.number() as usize]
    }

    // The side that is slid.
    fn slid_side(&self) -> SideNo
        ensures value { result ≡ self.now.side }
        ensures within { result < sides self.now.polygon }
        ensures known { IsSliding self.now }
    {
        self.side
    }

    // The side after it.
    fn next_side(&self) -> SideNo
        ensures value { result ≡ next_side self.now.polygon self.now.side }
        ensures within { result < sides self.now.polygon }
    {
        side_after(self.polygon, self.side)
    }

    // A side is one of the two that become the new side.
    fn is_slid(&self, side: SideNo) -> bool
        ensures { result ≡ is_slid self.now.polygon self.now.side side }
    {
        side == self.slid_side() || side == self.next_side()
    }

    // The exit before an exit, read round.
    fn previous(&self, at: usize) -> Exit
        requires { at < length self.now.exits }
        ensures value { result ≡ exit_at self.now.exits (previous (length self.now.exits) at) }
        ensures side { result.side < sides self.now.polygon }
        ensures place { result.place < curve_points self.now.polygon self.now.exits result.side }
    {
        let last = self.len() - 1;
        self.exit(if at == 0 { last } else { at - 1 })
    }

    // The number of the exit after an exit, read round.
    fn next(&self, at: usize) -> usize
        requires { at < length self.now.exits }
        ensures value { result ≡ cond (nat_eq (suc at) (length self.now.exits)) 0 (suc at) }
        ensures within { result < length self.now.exits }
    {
        let count = self.len();
        if at + 1 == count { 0 } else { at + 1 }
    }

    // The entry that belongs to an exit.
    fn entry(&self, exit: Exit) -> Exit
        requires side { exit.side < sides self.now.polygon }
        requires place { exit.place < curve_points self.now.polygon self.now.exits exit.side }
        ensures { result ≡ curve_entry self.now.polygon self.now.exits exit }
    {
        Exit {
            side: self.partner(exit.side),
            place: self.points(exit.side) - 1 - exit.place,
        }
    }

    // A chord has both ends on the two sides.
    fn is_inside(&self, at: usize) -> bool
        requires { at < length self.now.exits }
        ensures { result ≡ is_inside self.now.polygon self.now.side self.now.exits at }
    {
        self.is_slid(self.partner(self.previous(at).side)) && self.is_slid(self.exit(at).side)
    }

    // The number of a point of the two sides in the row of their points.
    fn number(&self, point: Exit) -> usize
        requires { IsOnTwo self.now point }
        ensures value { result ≡ row_number self.now point }
        ensures within { result < length (two_rows self.now) }
        ensures few { length (two_rows self.now) ≤ 128 }
        ensures known { IsSliding self.now }
    {
        let side = self.slid_side();
        let first = self.points(side);
        let _ = self.points(self.next_side());
        if point.side == side {
            point.place as usize
        } else {
            (first + point.place) as usize
        }
    }

    // Marks a chord that runs between the two sides at its ends.
    fn mark(&self, at: usize, marks: &mut Vec<bool>)
        requires at { at < length self.now.exits }
        requires size { length marks.old.items ≡ length (two_rows self.now) }
        ensures { marks.new.items ≡ marked self.now at marks.old.items }
    {
        let _ = self.slid_side();
        if self.is_inside(at) {
            marks[self.number(self.entry(self.previous(at)))] = true;
            marks[self.number(self.exit(at))] = true;
        }
    }

    // Which points in the row are ends of chords that run between the two sides.
    fn marks(&self, alloc: Global) -> Result<Vec<bool>, NoMemory>
        ensures value { IfOk result (λ marks. marks.items ≡ inside_marks self.now) }
        ensures few { IfOk result (λ marks. length marks.items ≤ 128) }
    {
        let points = self.points(self.slid_side()) + self.points(self.next_side());
        let mut marks = vec![in alloc; false; points as usize]?;
        for at in 0..self.len() {
            self.mark(at, &mut marks);
        }
        Ok(marks)
    }

    // The place of a point on the new side.
    fn place(&self, staying: &[u32], point: Exit) -> u32
        requires staying { staying.now ≡ staying_of (inside_marks self.now) }
        requires there { Mem point (new_side_points self.now.polygon self.now.side self.now.exits) }
        ensures value { result ≡ new_place self.now.polygon self.now.side self.now.exits point }
        ensures within { result < length (new_side_points self.now.polygon self.now.side self.now.exits) }
    {
        let _ = self.slid_side();
        staying[self.number(point)]
    }

    // The curve leaves through the new side before an exit.
    fn enters_new(&self, at: usize) -> bool
        requires { at < length self.now.exits }
        ensures { result ≡ (is_slid self.now.polygon self.now.side (exit_at self.now.exits at).side && not (is_inside self.now.polygon self.now.side self.now.exits at)) }
    {
        self.is_slid(self.exit(at).side) && !self.is_inside(at)
    }

    // The curve leaves through the partner of the new side after an exit.
    fn leaves_partner(&self, at: usize) -> bool
        requires { at < length self.now.exits }
        ensures { result ≡ (is_slid self.now.polygon self.now.side (partner self.now.polygon (exit_at self.now.exits at).side)
            && not (is_inside self.now.polygon self.now.side self.now.exits (cond (nat_eq (suc at) (length self.now.exits)) 0 (suc at)))) }
    {
        self.is_slid(self.partner(self.exit(at).side)) && !self.is_inside(self.next(at))
    }

    // The exit through the new side that comes before an exit.
    fn through_new(&self, staying: &[u32], at: usize) -> Option<Exit>
        requires staying { staying.now ≡ staying_of (inside_marks self.now) }
        requires at { at < length self.now.exits }
        ensures { let e = exit_at self.now.exits at in
            result ≡ cond (is_slid self.now.polygon self.now.side e.side && not (is_inside self.now.polygon self.now.side self.now.exits at))
            (Some (exit (new_number self.now.polygon self.now.side self.now.side) (new_place self.now.polygon self.now.side self.now.exits e))) None }
    {
        let exit = self.exit(at);
        if !self.enters_new(at) {
            return None;
        }
        Some(Exit {
            side: self.new_number(self.slid_side()),
            place: self.place(staying, exit),
        })
    }

    // The exit itself, if its side is still there.
    fn own(&self, at: usize) -> Option<Exit>
        requires { at < length self.now.exits }
        ensures { let e = exit_at self.now.exits at in
            result ≡ cond (nat_eq e.side self.now.side || nat_eq e.side (partner self.now.polygon self.now.side)) None
            (Some (exit (new_number self.now.polygon self.now.side e.side) e.place)) }
    {
        let exit = self.exit(at);
        if exit.side == self.slid_side() || exit.side == self.partner(self.slid_side()) {
            return None;
        }
        Some(Exit {
            side: self.new_number(exit.side),
            place: exit.place,
        })
    }

    // The exit through the partner of the new side that comes after an exit.
    fn through_partner(&self, staying: &[u32], at: usize) -> Option<Exit>
        requires staying { staying.now ≡ staying_of (inside_marks self.now) }
        requires at { at < length self.now.exits }
        ensures { let e = exit_at self.now.exits at in let next = cond (nat_eq (suc at) (length self.now.exits)) 0 (suc at) in
            result ≡ cond (is_slid self.now.polygon self.now.side (partner self.now.polygon e.side) && not (is_inside self.now.polygon self.now.side self.now.exits next))
            (Some (exit (new_number self.now.polygon self.now.side (partner self.now.polygon self.now.side))
            (length (new_side_points self.now.polygon self.now.side self.now.exits) - 1 - new_place self.now.polygon self.now.side self.now.exits (curve_entry self.now.polygon self.now.exits e)))) None }
    {
        let exit = self.exit(at);
        if !self.leaves_partner(at) {
            return None;
        }
        let place = self.place(staying, self.entry(exit));
        let last = staying[staying.len() - 1] - 1;
        Some(Exit {
            side: self.new_number(self.partner(self.slid_side())),
            place: last - place,
        })
    }

    // The exits after the slide. Linear in the exits.
    pub(crate) fn slid_exits(&self, alloc: Global) -> Result<Vec<Exit>, NoMemory>
        ensures { IfOk result (λ exits. exits.items ≡ exits_after self.now.polygon self.now.side self.now.exits) }
    {
        let marks = self.marks(alloc)?;
        let staying = staying(alloc, &marks)?;
        let mut exits = Vec::new(alloc);
        for at in 0..self.len() {
            put(&mut exits, self.through_new(&staying, at))?;
            put(&mut exits, self.own(at))?;
            put(&mut exits, self.through_partner(&staying, at))?;
        }
        Ok(exits)
    }
}
