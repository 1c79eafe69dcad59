// What a slide leaves.
use curve_paths::Curve;
use obd_base::Items;
use page_surface::Polygon;

/// A polygon and curves on it by their numbers, as before a slide or after it: none where a curve crosses no side.
pub struct Slid {
    pub polygon: Polygon,
    pub curves: Items<Option<Curve>>,
}

// By hand, so that a caller's proof holds one call and not the drop of each field.
impl Drop for Slid {
    fn drop(self) {
        let Slid {
            polygon: _polygon,
            curves: _curves,
        } = self;
    }
}
