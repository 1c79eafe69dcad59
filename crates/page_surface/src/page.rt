// A page, and how it is read from its polygons.
ghost use Rattle.std.specs.Prelude.{◌≡◌, ◌≢◌, ◌<◌, ◌≤◌, ◌^◌, [], map, position, length, slice_get, slice_index_or, string_bytes, Some, None, IfOk, IfErr, OnOk};
ghost use Rattle.std.specs.List.{list_any, position_or_len, sum_by};
ghost use Rattle.std.specs.Str.{bytes_eq};
ghost use Rattle.page_surface.specs.Labels.{all_sides, labels_of, side_labels_of};
ghost use Rattle.page_surface.specs.Joining.{side, has_side};
ghost use Rattle.page_surface.specs.Page.{IsPage, refusal_of};

use crate::PageRefusal;
use crate::labelled::Labelled;
use crate::rules::{joining_refusal, label_refusal, polygon_refusal};
use obd_base::LabelNo;
use std::alloc::Global;
use std::marker::Model;

/// A side of a polygon by its label, and by the label's occurrence there, 0 or 1.
#[derive(Clone, Copy, Debug, PartialEq, Eq)]
pub struct SideLabel {
    pub label: LabelNo,
    pub occurrence: u8,
}

/// The page of an open book: polygons whose sides are glued in pairs along labels. Contracts see it as the
/// list of its polygons, each the list of its labels. Its type keeps that the polygons are a page.
pub struct Page {
    labelled: Labelled,
    first_polygons: Vec<u32>,
    second_polygons: Vec<u32>,
}

// By hand, so that a caller's proof holds one call and not the drop of each field.
impl Drop for Page {
    fn drop(self) {
        let Page {
            labelled: _labelled,
            first_polygons: _first_polygons,
            second_polygons: _second_polygons,
        } = self;
    }
}

impl Model for Page {
    ghost use Rattle.std.specs.Prelude.{List, ℕ};
    ghost use Rattle.page_surface.specs.PageTables.{ArePageTables};

    ghost Value = { List (List (List ℕ)) };

    ghost view = { λ p. p.labelled };

    ghost invariant = { λ p. ArePageTables p.labelled p.first_polygons.items p.second_polygons.items };
}

impl Page {
    /// The page of some polygons, each given by its labels read counterclockwise. The rules are tried in
    /// the order of `PageRefusal`, and the first that fails is named.
    ///
    /// Expected time linear in the sides, and for what is joined to one another once more for each of at
    /// most 16 polygons.
    pub fn new(alloc: Global, polygons: &[Vec<String>]) -> Result<Page, PageRefusal>
        requires few_polygons { length polygons.now < 2 ^ 32 }
        requires few { length (all_sides (map (λ p. map string_bytes p.items) polygons.now)) < 2 ^ 32 }
        ensures page { IfOk result (λ page. page ≡ map (λ p. map string_bytes p.items) polygons.now) }
        ensures accepted { OnOk result (IsPage (map (λ p. map string_bytes p.items) polygons.now)) }
        ensures refused { IfErr result (λ refusal. refusal ≢ PageRefusal.NoMemory
            → refusal_of (map (λ p. map string_bytes p.items) polygons.now) ≡ Some refusal) }
    {
        if let Some(refusal) = polygon_refusal(polygons) {
            return Err(refusal);
        }
        let labelled = Labelled::of(alloc, polygons)?;
        if let Some(refusal) = label_refusal(alloc, &labelled)? {
            return Err(refusal);
        }
        if let Some(refusal) = joining_refusal(alloc, &labelled)? {
            return Err(refusal);
        }
        let first_polygons = labelled.polygons_of(alloc, 0)?;
        let second_polygons = labelled.polygons_of(alloc, 1)?;
        Ok(Page {
            labelled,
            first_polygons,
            second_polygons,
        })
    }

    /// The number of different labels. Constant time, as are the calls below but `label`; all take no memory.
    pub fn label_count(&self) -> u32
        ensures value { result ≡ length (labels_of self.now) }
        ensures valid { IsPage self.now }
    {
        self.labelled.label_count()
    }

    /// The number of the label with this name, and `None` exactly for an unknown name. Expected time linear
    /// in the name.
    pub fn label(&self, name: &str) -> Option<LabelNo>
        ensures { result ≡ position (bytes_eq name.now) (labels_of self.now) }
    {
        self.labelled.label(name)
    }

    /// The name of a label.
    pub fn name(&self, label: LabelNo) -> &str
        requires { label < length (labels_of self.now) }
        ensures { slice_get (labels_of self.now) label ≡ Some result.now }
    {
        self.labelled.name(label)
    }

    /// The number of the polygon on which an occurrence of a label lies.
    pub fn polygon_of(&self, label: LabelNo, occurrence: u8) -> u32
        requires label { label < length (labels_of self.now) }
        requires occurrence { occurrence ≤ 1 }
        ensures { result ≡ position_or_len (has_side (side label occurrence)) (side_labels_of [] self.now) }
    {
        if occurrence == 0 {
            self.first_polygons[label.number() as usize]
        } else {
            self.second_polygons[label.number() as usize]
        }
    }

    /// The number of polygons.
    pub fn polygon_count(&self) -> u32
        ensures value { result ≡ length self.now }
        ensures valid { IsPage self.now }
    {
        self.labelled.polygon_count()
    }

    /// The number of sides of a polygon.
    pub fn sides_of(&self, polygon: u32) -> u32
        requires { polygon < length self.now }
        ensures { result ≡ length (slice_index_or self.now polygon []) }
    {
        self.labelled.sides_of(polygon)
    }

    /// The label and the occurrence of a side of a polygon.
    pub fn label_at(&self, polygon: u32, side: u32) -> SideLabel
        requires polygon { polygon < length self.now }
        requires side { side < length (slice_index_or self.now polygon []) }
        ensures { slice_get (slice_index_or (side_labels_of [] self.now) polygon []) side ≡ Some result }
    {
        self.labelled.label_at(polygon, side)
    }
}
