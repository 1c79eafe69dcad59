// Polygons with their labels, numbered by first appearance.
ghost use Rattle.std.specs.Prelude.{◌≡◌, ◌<◌, ◌+◌, ◌^◌, [], map, position, length, slice_get, slice_index_or, string_bytes, None, All, IfOk};
ghost use Rattle.std.specs.List.{flat_map};
ghost use Rattle.std.specs.Str.{bytes_eq};
ghost use Rattle.indexmap.specs.IndexSet.{index_set_len};
ghost use Rattle.page_surface.specs.Labels.{all_sides, labels_of, occurrences_of, side_labels, side_labels_of, with_labels};
ghost use Rattle.page_surface.specs.Page.{is_empty, reached_count};
ghost use Rattle.page_surface.specs.PageTables.{lies_on};

use crate::SideLabel;
use crate::label_tables::{label_counts, polygons_of};
use crate::reached::count_reached;
use indexmap::IndexSet;
use obd_base::{Items, LabelNo, Name, NoMemory};
use std::alloc::Global;
use std::marker::Model;

// Some polygons with their labels numbered, and each side by label and occurrence. Contracts see the
// polygons, each as the list of its labels.
pub(crate) struct Labelled {
    polygons: Items<Items<Name>>,
    labels: IndexSet<String>,
    sides: Items<Items<SideLabel>>,
}

// By hand, so that a caller's proof holds one call and not the drop of each field.
impl Drop for Labelled {
    fn drop(self) {
        let Labelled {
            polygons: _polygons,
            labels: _labels,
            sides: _sides,
        } = self;
    }
}

impl Model for Labelled {
    ghost use Rattle.std.specs.Prelude.{List, ℕ, map, string_bytes};
    ghost use Rattle.page_surface.specs.PageTables.{AreLabelTables};

    ghost Value = { List (List (List ℕ)) };

    ghost view = { λ p. p.polygons };

    ghost invariant = { λ p. AreLabelTables p.polygons (map string_bytes p.labels.keys) p.sides };
}

impl Labelled {
    // Numbers the labels of some polygons. Expected time linear in the sides.
    pub(crate) fn of(alloc: Global, polygons: &[Vec<String>]) -> Result<Labelled, NoMemory>
        requires few_polygons { length polygons.now < 2 ^ 32 }
        requires few { length (all_sides (map (λ p. map string_bytes p.items) polygons.now)) < 2 ^ 32 }
        ensures { IfOk result (λ labelled. labelled ≡ map (λ p. map string_bytes p.items) polygons.now) }
    {
        let mut labels = IndexSet::new(alloc);
        let mut sides = Items::new(alloc);
        let mut copied = Items::new(alloc);
        for polygon in polygons {
            sides.push(number_sides(alloc, &mut labels, polygon.as_slice())?)?;
            copied.push(copied_names(alloc, polygon.as_slice())?)?;
        }
        Ok(Labelled {
            polygons: copied,
            labels,
            sides,
        })
    }

    // The number of different labels.
    pub(crate) fn label_count(&self) -> u32
        ensures { result ≡ length (labels_of self.now) }
    {
        self.labels.len() as u32
    }

    // The number of the label with this name.
    pub(crate) fn label(&self, name: &str) -> Option<LabelNo>
        ensures { result ≡ position (bytes_eq name.now) (labels_of self.now) }
    {
        let number = self.labels.get_index_of(name)?;
        Some(LabelNo::new(number as u32))
    }

    // The name of a label.
    pub(crate) fn name(&self, label: LabelNo) -> &str
        requires { label < length (labels_of self.now) }
        ensures { slice_get (labels_of self.now) label ≡ Some result.now }
    {
        self.labels.as_slice()[label.number() as usize].as_str()
    }

    // The sides of the polygons by label and occurrence.
    fn sides(&self) -> &[Items<SideLabel>]
        ensures value { result.now ≡ side_labels_of [] self.now }
        ensures in_range { All (λ polygon. All (λ s. s.label < length (labels_of self.now)) polygon) result.now }
        ensures few_polygons { length result.now < 2 ^ 32 }
        ensures few { length (flat_map (λ polygon. polygon) result.now) < 2 ^ 32 }
    {
        self.sides.as_slice()
    }

    // How often each label occurs. Linear in the sides.
    pub(crate) fn label_counts(&self, alloc: Global) -> Result<Vec<u32>, NoMemory>
        ensures { IfOk result (λ counts. counts.items ≡ map (occurrences_of self.now) (labels_of self.now)) }
    {
        label_counts(alloc, self.label_count() as usize, self.sides())
    }

    // The polygon of the side of this occurrence, for each label. Linear in the sides.
    pub(crate) fn polygons_of(&self, alloc: Global, occurrence: u8) -> Result<Vec<u32>, NoMemory>
        ensures { IfOk result (λ table. table.items ≡ lies_on (side_labels_of [] self.now) (length (labels_of self.now)) occurrence) }
    {
        polygons_of(alloc, self.label_count() as usize, self.sides(), occurrence)
    }

    // The number of polygons.
    pub(crate) fn polygon_count(&self) -> u32
        ensures { result ≡ length self.now }
    {
        self.polygons.len() as u32
    }

    // How many polygons are reached from polygon 0 through labels. Linear in the sides, times the polygons.
    pub(crate) fn reached_count(&self, alloc: Global) -> Result<u32, NoMemory>
        requires some { 0 < length self.now }
        requires full { position is_empty self.now ≡ None }
        ensures { IfOk result (λ count. count ≡ reached_count self.now) }
    {
        count_reached(alloc, self.label_count() as usize, self.sides())
    }

    // The number of sides of a polygon.
    pub(crate) fn sides_of(&self, polygon: u32) -> u32
        requires { polygon < length self.now }
        ensures { result ≡ length (slice_index_or self.now polygon []) }
    {
        self.polygons.as_slice()[polygon as usize].len() as u32
    }

    // The label and the occurrence of a side of a polygon.
    pub(crate) fn label_at(&self, polygon: u32, side: u32) -> SideLabel
        requires polygon { polygon < length self.now }
        requires side { side < length (slice_index_or self.now polygon []) }
        ensures { slice_get (slice_index_or (side_labels_of [] self.now) polygon []) side ≡ Some result }
    {
        self.sides()[polygon as usize].as_slice()[side as usize]
    }
}

// Numbers the labels of a polygon's sides after those that appeared before.
fn number_sides(
    alloc: Global,
    labels: &mut IndexSet<String>,
    names: &[String],
) -> Result<Items<SideLabel>, NoMemory>
    requires { index_set_len labels.old + length names.now < 2 ^ 32 }
    ensures labels { IfOk result (λ _. map string_bytes labels.new.keys ≡ with_labels (map string_bytes labels.old.keys) (map string_bytes names.now)) }
    ensures sides { IfOk result (λ sides. sides ≡ side_labels (map string_bytes labels.old.keys) (map string_bytes names.now)) }
{
    let mut sides = Items::new(alloc);
    for name in names {
        let (number, is_new) = labels.insert_full(name.clone()?)?;
        sides.push(SideLabel {
            label: LabelNo::new(number as u32),
            occurrence: if is_new { 0 } else { 1 },
        })?;
    }
    Ok(sides)
}

// Names of their own with the texts of some strings.
fn copied_names(alloc: Global, names: &[String]) -> Result<Items<Name>, NoMemory>
    ensures { IfOk result (λ copied. copied ≡ map string_bytes names.now) }
{
    let mut copied = Items::new(alloc);
    for name in names {
        copied.push(Name::from_str(alloc, name.as_str())?)?;
    }
    Ok(copied)
}
