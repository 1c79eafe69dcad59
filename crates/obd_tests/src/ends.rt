// Ends in memory with one call that fails.
use obd_base::{MemSink, MemSource};
use std::alloc::Global;
use std::test::Fail;

// A source of some bytes, in pieces of at most `piece`.
pub(crate) fn source_of(
    alloc: Global,
    bytes: &[u8],
    piece: u8,
    failing: u32,
) -> Result<MemSource, Fail> {
    let failing = vec![in alloc; failing]?;
    let bytes = bytes.to_vec(alloc)?;
    Ok(MemSource::new(bytes, (piece as usize).max(1), failing))
}

// A sink with room for some bytes, which takes at most `piece` of them in a call.
pub(crate) fn sink_of(
    alloc: Global,
    room: usize,
    piece: u8,
    failing: u32,
) -> Result<MemSink, Fail> {
    let failing = vec![in alloc; failing]?;
    Ok(MemSink::new(alloc, room, (piece as usize).max(1), failing)?)
}
