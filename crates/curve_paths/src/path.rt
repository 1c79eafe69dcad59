// A curve on a page, given by its crossings with labels.
ghost use Rattle.std.specs.Prelude.{◌≡◌, ◌≢◌, ◌<◌, ◌≤◌, ◌^◌, ◌↔◌, [], map, length, filter_map, None, Some, IfOk, IfErr, IfSome, IsSome, OnOk};
ghost use Rattle.obd_base.specs.Lists.{Mem, below};
ghost use Rattle.page_surface.specs.Joining.{joined};

use crate::chords::{ChordPair, PlaceOrder, chords_of, crossing_pair, first_apart};
use crate::copies::{copied_path, page_names};
use crate::crossing::{Crossing, first_unknown, numbered};
use crate::joined::joined_exits;
use crate::places::{first_wrong_label, point_counts};
use crate::{Curve, CurveRefusal};
use arc_basis::Basis;
use obd_base::{Items, Name, NoMemory};
use page_surface::Page;
use std::alloc::Global;
use std::marker::Model;

/// One crossing of a curve with a label: the occurrence through which the curve leaves, and the place among
/// the curve's own points of the label, from the start of occurrence 0.
pub struct Cross {
    pub label: Name,
    pub occurrence: u8,
    pub place: u32,
}

// By hand, so that a caller's proof holds one call and not the drop of each field.
impl Drop for Cross {
    fn drop(self) {
        let Cross {
            label: _label,
            occurrence: _occurrence,
            place: _place,
        } = self;
    }
}

/// A curve on a page: a path of crossings, read round, that keeps the rules of `CurveRefusal`. Contracts see
/// it as its page and its path. Its type keeps that no rule fails.
pub struct PageCurve {
    polygons: Items<Items<Name>>,
    path: Items<Cross>,
    crossings: Vec<Crossing>,
    counts: Vec<u32>,
}

// By hand, so that a caller's proof holds one call and not the drop of each field.
impl Drop for PageCurve {
    fn drop(self) {
        let PageCurve {
            polygons: _polygons,
            path: _path,
            crossings: _crossings,
            counts: _counts,
        } = self;
    }
}

impl Model for PageCurve {
    ghost use Rattle.curve_paths.specs.PathTables.{IsPathKept, PagePath};

    ghost Value = { PagePath };

    ghost view = { λ c. record { page = c.polygons; path = c.path } };

    ghost invariant = { λ c. IsPathKept c.polygons c.path c.crossings.items c.counts.items };
}

impl PageCurve {
    ghost use Rattle.page_surface.specs.Joining.{joined};
    ghost use Rattle.arc_basis.specs.Basis.{joined_polygon};
    ghost use Rattle.curve_paths.specs.Curves.{IsCurve};
    ghost use Rattle.curve_paths.specs.PathRules.{IsPath, refusal_of};
    ghost use Rattle.curve_paths.specs.PathTables.{HaveOccurrences};
    ghost use Rattle.curve_paths.specs.Paths.{crossings};
    ghost use Rattle.curve_paths.specs.declared.crossing.Crossing.{Crossing};
    ghost use Rattle.curve_paths.specs.Through.{exits_through};

    /// The curve on a page with these crossings. The rules are tried in the order of `CurveRefusal`, and the
    /// first that fails is named.
    ///
    /// Linear in the page and the path, but that each two of at most 32 chords are tried.
    pub fn new(alloc: Global, page: &Page, path: &[Cross]) -> Result<PageCurve, CurveRefusal>
        requires occurrences { HaveOccurrences path.now }
        requires fits { length path.now < 2 ^ 32 }
        ensures curve { IfOk result (λ curve. curve ≡ record { page = page.now; path = path.now }) }
        ensures accepted { OnOk result (IsPath page.now path.now) }
        ensures refused { IfErr result (λ refusal. refusal ≢ CurveRefusal.NoMemory → refusal_of page.now path.now ≡ Some refusal) }
    {
        if path.is_empty() {
            return Err(CurveRefusal::EmptyPath);
        }
        if let Some(at) = first_unknown(page, path) {
            return Err(CurveRefusal::UnknownLabel { at });
        }
        let count = path.len() as u32;
        if count > MOST_CROSSINGS {
            return Err(CurveRefusal::TooManyCrossings { count });
        }
        let crossings = numbered(alloc, page, path)?;
        let counts = point_counts(alloc, &crossings, page.label_count())?;
        if let Some(label) = first_wrong_label(alloc, &crossings, &counts)? {
            let label = Name::from_str(alloc, page.name(label))?;
            return Err(CurveRefusal::PlaceWrong { label });
        }
        if let Some(at) = first_apart(page, &crossings) {
            return Err(CurveRefusal::NotAdjacent { at });
        }
        let order = PlaceOrder::of(alloc, page, counts)?;
        let chords = chords_of(alloc, page, &crossings, &order)?;
        if let Some(ChordPair { first, second }) = crossing_pair(&chords) {
            return Err(CurveRefusal::Crosses { first, second });
        }
        Ok(PageCurve {
            polygons: page_names(alloc, page)?,
            path: copied_path(alloc, path)?,
            crossings,
            counts: order.into_counts(),
        })
    }

    /// The curve on the polygon that the page is joined to: the crossings with seams are left out. `None`
    /// exactly where the path crosses seams alone, so never on a page of one polygon. Linear in the path.
    pub fn through(&self, basis: &Basis) -> Result<Option<Curve>, NoMemory>
        requires { basis.now ≡ joined self.now.page }
        ensures seams { IfOk result (λ found. (found ≡ None)
            ↔ ((c : Crossing) → Mem c (crossings self.now.page self.now.path) → Mem c.side.label basis.now.seams)) }
        ensures none { IfOk result (λ found. (found ≡ None) ↔ (exits_through self.now.page self.now.path ≡ [])) }
        ensures one { length self.now.page ≡ 1 → IfOk result (λ found. IsSome found) }
        ensures exits { IfOk result (λ found. IfSome found (λ curve. curve ≡ exits_through self.now.page self.now.path)) }
        ensures curve { IfOk result (λ found. IfSome found (λ curve. IsCurve (joined_polygon basis.now) curve)) }
    {
        let alloc = *self.crossings.allocator();
        let polygon = basis.polygon();
        let exits = joined_exits(alloc, &self.crossings, &self.counts, basis)?;
        if exits.is_empty() {
            return Ok(None);
        }
        Ok(Some(Curve::of(alloc, polygon, exits)?))
    }
}

/// The greatest number of crossings of a curve.
const MOST_CROSSINGS: u32 = 32;
