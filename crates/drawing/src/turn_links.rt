// The links by which nested turns are found: of the points of sides, and of the exits of strands.
ghost use Rattle.std.specs.Prelude.{◌≡◌, ◌+◌, ◌*◌, ◌<◌, ◌≤◌, ◌^◌, length, IfOk};
ghost use Rattle.page_surface.specs.Drawing.{IsEmbedded, all_exits, points_on};
ghost use Rattle.page_surface.specs.Polygon.{arc_count, sides};
ghost use Rattle.drawing.specs.Links.{AreLinked, AreLinksOf, AreWays, exit_gone};
ghost use Rattle.drawing.specs.Pieces.{span_count};
ghost use Rattle.drawing.specs.ThinTables.{is_gone};

use crate::layout::Layout;
use crate::links::{Link, join, link_neighbours};
use obd_base::{Exit, Items, NoMemory, StrandNo};
use std::alloc::Global;

// The links of the numbers of the place order, those of the exits of each strand by their numbers in it, and of the
// number of an entry the number of its exit in the strand. Room alone: all are set anew for each pass.
pub(crate) struct Links {
    pub(crate) sides: Items<Link>,
    pub(crate) ways: Vec<Items<Link>>,
    pub(crate) owners: Vec<u32>,
}

// By hand, so that a caller's proof holds one call and not the drop of each field.
impl Drop for Links {
    fn drop(self) {
        let Links {
            sides: _sides,
            ways: _ways,
            owners: _owners,
        } = self;
    }
}

// Room for the links of the exits of each strand, and of two more for each finger.
fn room(alloc: Global, strands: &[Vec<Exit>], fingers: u32) -> Result<Vec<Items<Link>>, NoMemory>
    ensures { IfOk result (λ ways. length ways.items ≡ length strands.now) }
{
    let link = Link {
        before: 0,
        after: 0,
    };
    let mut ways = Vec::new(alloc);
    for exits in strands {
        ways.push(Items::from_vec(vec![in alloc; link; exits.len() + 2 * fingers as usize]?))?;
    }
    Ok(ways)
}

// Links the numbers of the place order that aren't gone.
fn link_sides(layout: &Layout, gone: &[bool], sides: &mut Items<Link>)
    requires { span_count layout.now.drawing ≤ length gone.now }
    ensures { AreLinked (is_gone gone.now) sides.new }
{
    link_neighbours(sides, layout.span_count());
    let mut last = 0;
    for number in 0..layout.span_count() {
        if !gone[number as usize] {
            join(sides, last, number);
            last = number;
        }
    }
}

// Sets the number of an exit in its strand at that of its entry. It only says where to look, so no more is promised.
fn set_owner(layout: &Layout, exit: &Exit, at: u32, owners: &mut [u32])
    requires side { exit.now.side < sides layout.now.drawing.polygon }
    requires place { exit.now.place < points_on layout.now.drawing exit.now.side }
    requires embedded { IsEmbedded layout.now.drawing }
{
    let entry = layout.spot(layout.entry(*exit)) as usize;
    if entry < owners.len() {
        owners[entry] = at;
    }
}

// Links the exits of a strand that aren't gone, and sets their numbers at those of their entries.
fn link_way(
    layout: &Layout,
    strand: StrandNo,
    gone: &[bool],
    way: &mut Items<Link>,
    owners: &mut [u32],
)
    requires embedded { IsEmbedded layout.now.drawing }
    requires few { length (all_exits layout.now.drawing) < 2 ^ 28 }
    requires strand { strand < arc_count layout.now.drawing.polygon }
    requires size { span_count layout.now.drawing ≤ length gone.now }
    ensures { AreLinked (exit_gone layout.now.drawing (is_gone gone.now) strand) way.new }
{
    let exits = layout.exits(strand);
    let count = exits.len() as u32;
    link_neighbours(way, count);
    let mut last = 0;
    for at in 0..count {
        let exit = &exits[at as usize];
        if !gone[layout.spot(*exit) as usize] {
            join(way, last, at);
            last = at;
            set_owner(layout, exit, at, owners);
        }
    }
}

// The same for all strands.
fn link_ways(layout: &Layout, gone: &[bool], ways: &mut [Items<Link>], owners: &mut [u32])
    requires embedded { IsEmbedded layout.now.drawing }
    requires few { length (all_exits layout.now.drawing) < 2 ^ 28 }
    requires size { span_count layout.now.drawing ≤ length gone.now }
    ensures { AreWays layout.now.drawing (is_gone gone.now) ways.new }
{
    for strand in 0..layout.polygon().sides() / 2 {
        if (strand as usize) < ways.len() {
            link_way(
                layout,
                StrandNo::new(strand),
                gone,
                &mut ways[strand as usize],
                owners,
            );
        }
    }
}

impl Links {
    // Room for a drawing with so many fingers and what is left of it.
    pub(crate) fn of(alloc: Global, layout: &Layout, fingers: u32) -> Result<Links, NoMemory>
        ensures { IfOk result (λ links. length links.sides ≡ span_count layout.now.drawing + 4 * fingers) }
    {
        let link = Link {
            before: 0,
            after: 0,
        };
        let spans = layout.span_count() as usize + 4 * fingers as usize;
        let sides = Items::from_vec(vec![in alloc; link; spans]?);
        let ways = room(alloc, layout.strands(), fingers)?;
        let owners = vec![in alloc; 0; spans]?;
        Ok(Links {
            sides,
            ways,
            owners,
        })
    }

    // Links what isn't gone. Linear in the exits and sides.
    pub(crate) fn set(&mut self, layout: &Layout, gone: &[bool])
        requires embedded { IsEmbedded layout.now.drawing }
        requires few { length (all_exits layout.now.drawing) < 2 ^ 28 }
        requires size { span_count layout.now.drawing ≤ length gone.now }
        ensures { AreLinksOf layout.now.drawing (is_gone gone.now) self.new.sides self.new.ways.items }
    {
        link_sides(layout, gone, &mut self.sides);
        link_ways(layout, gone, &mut self.ways, &mut self.owners);
    }
}
