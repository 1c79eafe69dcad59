// A segment of a path with the sums that its numbers need in every row of a burst.

use obd_base::Exit;

// A segment of a path: by how much all segments of the path raise its number, and by how much those before it.
#[derive(Clone, Copy)]
pub(crate) struct Raised {
    pub(crate) segment: Exit,
    pub(crate) all: u32,
    pub(crate) before: u32,
}
