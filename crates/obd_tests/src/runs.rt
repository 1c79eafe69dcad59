// Runs of the top call over ends that fail, have no room, or tell nothing, and at the document's limit.
use crate::ends::{sink_of, source_of};
use obd_base::{Endless, MemSink, NullSink, Sink, Source, SureSource};
use obd_cli::{DOCUMENT_LIMIT, Status, run};
use std::alloc::Global;
use std::test::Fail;

// In pieces of 16 bytes the document takes four reads, and its end a fifth.
const ANNULUS: &[u8] =
    b"{\"open_book\":1,\"polygons\":[[\"A\",\"A\"]],\"curves\":[],\"twists\":[]}";

const ANNULUS_TEXT: &str =
    "contact certificate 1\npolygons 1\npolygon A A\ncurves 0\nslides 0\ntwists 0\nseams 0\nbasis 0 0\nstrand 0 1.0\nfingers 0\nfinal 0 1.0\ngenerators 2\ncontact 1 1\npivots 0\nrank 0\nhomology 2\nnonzero 1\nend\n";

const USAGE: &str = "usage: obd decide | page | check | sample SEED TWISTS\n";

// How a run with one word ends.
fn status_of<S: Source, K: Sink>(
    alloc: Global,
    word: &str,
    source: &mut S,
    sink: &mut K,
) -> Result<Status, Fail> {
    let words = vec![in alloc; String::from_str(alloc, word)?]?;
    Ok(run(alloc, &words, source, sink))
}

// Whether a run with one word over a source ends so and writes this text.
fn writes<S: Source>(
    alloc: Global,
    word: &str,
    source: &mut S,
    status: Status,
    text: &str,
) -> Result<bool, Fail> {
    let mut sink = MemSink::new(alloc, 1000, 100, Vec::new(alloc))?;
    Ok(status_of(alloc, word, source, &mut sink)? == status && sink.taken() == text.as_bytes())
}

// Whether a run of `decide` on the annulus ends so and leaves so many bytes of the certificate in a sink.
fn fills(alloc: Global, sink: &mut MemSink, status: Status, count: usize) -> Result<bool, Fail> {
    let mut source = SureSource::new(ANNULUS.to_vec(alloc)?);
    Ok(
        status_of(alloc, "decide", &mut source, sink)? == status
            && sink.taken().len() == count
            && ANNULUS_TEXT.as_bytes().starts_with(sink.taken()),
    )
}

#[test]
fn words_that_are_no_command_give_the_usage_line_unread(rt: HostRuntime) -> Result<(), Fail> {
    for word in ["solve", "", "Decide", "decide "] {
        let mut source = source_of(rt.alloc(), ANNULUS, 16, 1)?;
        assert!(rt;
            writes(rt.alloc(), word, &mut source, Status::Usage, USAGE)?,
            "{word}"
        );
    }
    Ok(())
}

#[test]
fn a_source_that_fails_at_any_read_leaves_nothing_written(rt: HostRuntime) -> Result<(), Fail> {
    for (failing, status, text) in [
        (1, Status::ReadFault, ""),
        (2, Status::ReadFault, ""),
        (3, Status::ReadFault, ""),
        (4, Status::ReadFault, ""),
        (5, Status::ReadFault, ""),
        (6, Status::Done, ANNULUS_TEXT),
    ] {
        let mut source = source_of(rt.alloc(), ANNULUS, 16, failing)?;
        assert!(rt;
            writes(rt.alloc(), "decide", &mut source, status, text)?,
            "{failing}"
        );
    }
    Ok(())
}

#[test]
fn a_sink_that_fails_or_is_full_has_the_bytes_before(rt: HostRuntime) -> Result<(), Fail> {
    for (room, failing, status, count) in [
        (1000, 1, Status::WriteFault, 0),
        (1000, 2, Status::WriteFault, 100),
        (190, 9, Status::WriteFault, 190),
        (191, 9, Status::Done, 191),
    ] {
        let mut sink = sink_of(rt.alloc(), room, 100, failing)?;
        assert!(rt;
            fills(rt.alloc(), &mut sink, status, count)?,
            "{room} {failing}"
        );
    }
    Ok(())
}

#[test]
fn one_byte_above_the_limit_is_refused(rt: HostRuntime) -> Result<(), Fail> {
    for (size, text) in [
        (DOCUMENT_LIMIT, "refused 2 Json 1048576\n"),
        (DOCUMENT_LIMIT + 1, "refused 1 InputLong 1048576\n"),
    ] {
        let mut source = SureSource::new(vec![in rt.alloc(); 32; size]?);
        assert!(rt;
            writes(rt.alloc(), "decide", &mut source, Status::Refused, text)?,
            "{size}"
        );
    }
    Ok(())
}

#[test]
fn endless_spaces_are_too_long_for_each_command(rt: HostRuntime) -> Result<(), Fail> {
    for (word, text) in [
        ("decide", "refused 1 InputLong 1048576\n"),
        ("page", "refused 1 InputLong 1048576\n"),
        ("check", "refused 1 InputLong 8388608\n"),
    ] {
        let mut source = Endless::new(b' ');
        assert!(rt;
            writes(rt.alloc(), word, &mut source, Status::Refused, text)?,
            "{word}"
        );
    }
    Ok(())
}

#[test]
fn a_sink_that_tells_nothing_takes_the_text(rt: HostRuntime) -> Result<(), Fail> {
    let mut source = SureSource::new(ANNULUS.to_vec(rt.alloc())?);
    assert_eq!(rt;
        status_of(rt.alloc(), "decide", &mut source, &mut NullSink::new())?,
        Status::Done
    );
    Ok(())
}
