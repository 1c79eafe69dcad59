// Readings of seven bytes, in pieces, with failures, at the limit, and through a reader.
use crate::ends::source_of;
use obd_base::{Endless, ReadRefusal, Source, StdSource, SureSource, read_all};
use std::alloc::Global;
use std::test::Fail;

const BYTES: &[u8] = b"abcdefg";

// Whether a reading gives the seven bytes, or is refused so.
fn ends_so<S: Source>(
    alloc: Global,
    source: &mut S,
    limit: u16,
    refusal: Option<ReadRefusal>,
) -> bool {
    match read_all(alloc, source, limit as usize) {
        Ok(bytes) => refusal.is_none() && bytes.as_slice() == BYTES,
        Err(met) => refusal == Some(met),
    }
}

#[test]
fn whole_input_is_read_in_pieces(rt: HostRuntime) -> Result<(), Fail> {
    let alloc = rt.alloc();
    for (piece, failing, limit, refusal) in [
        (3, 9, 7, None),
        (3, 4, 7, Some(ReadRefusal::ReadFault)),
        (1, 9, 7, None),
        (9, 1, 7, Some(ReadRefusal::ReadFault)),
        (3, 9, 6, Some(ReadRefusal::InputLong)),
        (3, 2, 6, Some(ReadRefusal::ReadFault)),
    ] {
        let mut source = source_of(alloc, BYTES, piece, failing)?;
        assert!(rt;
            ends_so(alloc, &mut source, limit, refusal),
            "{piece} {failing} {limit}"
        );
    }
    Ok(())
}

#[test]
fn a_standard_source_gives_the_bytes_of_its_reader(rt: HostRuntime) -> Result<(), Fail> {
    let mut source = StdSource::new(BYTES);
    assert!(rt; ends_so(rt.alloc(), &mut source, 9, None));
    Ok(())
}

#[test]
fn a_sure_source_gives_its_bytes(rt: HostRuntime) -> Result<(), Fail> {
    let mut source = SureSource::new(BYTES.to_vec(rt.alloc())?);
    assert!(rt; ends_so(rt.alloc(), &mut source, 7, None));
    Ok(())
}

#[test]
fn an_endless_source_is_too_long_for_any_limit(rt: HostRuntime) -> Result<(), Fail> {
    for limit in [0, 7, 1000] {
        assert!(rt;
            ends_so(
                rt.alloc(),
                &mut Endless::new(b'a'),
                limit,
                Some(ReadRefusal::InputLong)
            ),
            "{limit}"
        );
    }
    Ok(())
}
