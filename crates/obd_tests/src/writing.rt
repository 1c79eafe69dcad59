// Writings of eight bytes, in pieces, with failures, without room, and through a writer.
use crate::ends::sink_of;
use obd_base::{MemSink, NullSink, StdSink, WriteFault, write_all_of};
use std::io::{self, Write};
use std::test::Fail;

const BYTES: &[u8] = b"abcdefgh";

// Whether a writing of the eight bytes ends so, with so many of them taken.
fn ends_so(sink: &mut MemSink, answer: Result<(), WriteFault>, count: usize) -> bool {
    write_all_of(sink, BYTES) == answer
        && sink.taken().len() == count
        && BYTES.starts_with(sink.taken())
}

#[test]
fn each_write_is_handed_what_is_left(rt: HostRuntime) -> Result<(), Fail> {
    for (room, piece, failing, answer, count) in [
        (100, 3, 9, Ok(()), 8),
        (100, 3, 3, Err(WriteFault), 6),
        (100, 3, 1, Err(WriteFault), 0),
        (5, 3, 9, Err(WriteFault), 5),
        (8, 9, 2, Ok(()), 8),
    ] {
        let mut sink = sink_of(rt.alloc(), room, piece, failing)?;
        assert!(rt;
            ends_so(&mut sink, answer, count),
            "{room} {piece} {failing}"
        );
    }
    Ok(())
}

// Takes at most three bytes at a write. They count when they are flushed, and are lost where the next write
// comes first.
#[derive(Drop)]
struct Forgetful {
    waiting: Vec<u8>,
    counted: Vec<u8>,
}

impl Write for Forgetful {
    fn write(&mut self, bytes: &[u8]) -> io::Result<usize> {
        let count = bytes.len().min(3);
        self.waiting.clear();
        self.waiting.extend_from_slice(&bytes[..count])?;
        Ok(count)
    }

    fn flush(&mut self) -> io::Result<()> {
        self.counted.extend_from_slice(&self.waiting)?;
        self.waiting.clear();
        Ok(())
    }
}

// What a writer has counted when a standard sink over it has taken the eight bytes.
fn is_all_counted(writer: &mut Forgetful) -> bool {
    let answer = write_all_of(&mut StdSink::new(&mut *writer), BYTES);
    answer == Ok(()) && writer.counted.as_slice() == BYTES
}

#[test]
fn a_standard_sink_flushes_its_writer_after_each_write(rt: HostRuntime) -> Result<(), Fail> {
    let mut writer = Forgetful {
        waiting: Vec::new(rt.alloc()),
        counted: Vec::new(rt.alloc()),
    };
    assert!(rt; is_all_counted(&mut writer));
    Ok(())
}

#[test]
fn a_sink_that_tells_nothing_takes_the_bytes(rt: HostRuntime) -> Result<(), Fail> {
    assert_eq!(rt; write_all_of(&mut NullSink::new(), BYTES), Ok(()));
    Ok(())
}

#[test]
fn a_standard_sink_hands_the_bytes_to_its_writer(rt: HostRuntime) -> Result<(), Fail> {
    let mut written = Vec::new(rt.alloc());
    let answer = write_all_of(&mut StdSink::new(&mut written), BYTES);
    assert!(rt; answer == Ok(()) && written.as_slice() == BYTES);
    Ok(())
}
