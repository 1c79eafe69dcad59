// Links over what is gone: each number knows one before it and one after it, with none between them that stays.
ghost use Rattle.std.specs.Prelude.{◌≡◌, ℕ, ◌<◌, ◌^◌, Bool, true, IsTrue};
ghost use Rattle.drawing.specs.Links.{AreLinked, AreNext, Between};

use obd_base::Items;

// Of a number one before it and one after it. The first number has itself before it, and the last one the count after it.
#[derive(Clone, Copy)]
pub(crate) struct Link {
    pub(crate) before: u32,
    pub(crate) after: u32,
}

// Links each number below the count, and below the room, to its two neighbours; there are no other numbers then.
pub(crate) fn link_neighbours(links: &mut Items<Link>, count: u32)
    requires { count < 2 ^ 31 }
    ensures { (gone : ℕ → Bool) → AreLinked gone links.new }
{
    links.truncate(count as usize);
    for number in 0..links.len() {
        let before = (number as u32).saturating_sub(1);
        let after = number as u32 + 1;
        links.set(number, Link { before, after });
    }
}

// Links two numbers of which none between them stays.
pub(crate) fn join(links: &mut Items<Link>, before: u32, after: u32)
    ensures { (gone : ℕ → Bool) → AreLinked gone links.old → Between gone before after → AreLinked gone links.new }
{
    if (before as usize) < links.len() {
        let link = *links.item(before as usize);
        links.set(
            before as usize,
            Link {
                before: link.before,
                after,
            },
        );
    }
    if (after as usize) < links.len() {
        let link = *links.item(after as usize);
        links.set(
            after as usize,
            Link {
                before,
                after: link.after,
            },
        );
    }
}

// Whether two numbers are linked, in either order.
pub(crate) fn are_linked(links: &Items<Link>, one: u32, other: u32) -> bool
    ensures { (gone : ℕ → Bool) → AreLinked gone links.now → IsTrue result → AreNext gone one other }
{
    let low = one.min(other);
    let high = one.max(other);
    (low as usize) < links.len() && low < high && links.item(low as usize).after == high
}

// Links the numbers around two that go.
pub(crate) fn unlink(links: &mut Items<Link>, one: u32, other: u32)
    ensures { (gone : ℕ → Bool) → AreLinked gone links.old → gone one ≡ true → gone other ≡ true → AreNext gone one other → AreLinked gone links.new }
{
    let low = one.min(other) as usize;
    let high = one.max(other) as usize;
    if low < links.len() && high < links.len() {
        let before = links.item(low).before;
        let after = links.item(high).after;
        join(links, before, after);
    }
}
