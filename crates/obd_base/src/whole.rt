// Reads a source to its end, and writes a whole text.
ghost use Rattle.std.specs.Prelude.{◌≡◌, ◌≢◌, ◌<◌, ◌≤◌, ◌+◌, vec_len, IfOk, OnOk, OnErr, IsErrOf};
ghost use Rattle.std.specs.Io.KnownBytes.{Appends};
ghost use Rattle.obd_base.specs.Causes.{Rose};
ghost use Rattle.obd_base.specs.Streams.{ReadWhole, ReadCount, ReadWithin, TookPrefix};

use crate::{Failed, Sink, Source, WriteFault};
use std::alloc::Global;

/// Why a source was not read to its end.
#[derive(Clone, Copy, Debug, PartialEq, Eq)]
pub enum ReadRefusal {
    /// The source failed.
    ReadFault,
    /// One byte more than the limit was read.
    InputLong,
    /// Memory was wanting.
    NoMemory,
}

// How many bytes one read asks for.
const BLOCK: usize = 4096;

/// All bytes up to the end of the source, at most `limit` of them.
///
/// `InputLong` comes where `limit + 1` bytes were read, and another refusal then only for want of memory.
/// `ReadFault` comes only where the source's count of faults rose in this call, and then at most `limit` bytes
/// were read. Every other answer leaves that count as it was. After a refusal some bytes have been read. Linear in the bytes, with one read for each piece that the source gives.
pub fn read_all<S: Source>(
    alloc: Global,
    source: &mut S,
    limit: usize,
) -> Result<Vec<u8>, ReadRefusal>
    requires { limit < usize.MAX }
    ensures whole { IfOk result (λ bytes. ReadWhole (S.left source.old) (S.left source.new) bytes.items) }
    ensures within { IfOk result (λ bytes. vec_len bytes ≤ limit) }

    ensures long { IsErrOf result ReadRefusal.InputLong → ReadCount (S.left source.old) (S.left source.new) (limit + 1) }
    ensures fault { IsErrOf result ReadRefusal.ReadFault → Rose (S.faults source.old) (S.faults source.new) }
    ensures fault_within { IsErrOf result ReadRefusal.ReadFault → ReadWithin (S.left source.old) (S.left source.new) limit }
    ensures no_fault { result ≢ Err ReadRefusal.ReadFault → S.faults source.new ≡ S.faults source.old }
{
    let mut bytes = Vec::new(alloc);
    let mut block = [0u8; BLOCK];
    while bytes.len() <= limit {
        let room = BLOCK.min(limit + 1 - bytes.len());
        match source.read(&mut block[..room]) {
            Err(Failed) => return Err(ReadRefusal::ReadFault),
            Ok(0) => return Ok(bytes),
            Ok(count) => {
                if bytes.extend_from_slice(&block[..count]).is_err() {
                    return Err(ReadRefusal::NoMemory);
                }
            }
        }
    }
    Err(ReadRefusal::InputLong)
}

/// Writes the whole text. Each write is handed all that is left.
///
/// `WriteFault` comes only where the sink's count of faults rose in this call, and a prefix of the text was
/// then written. Success leaves that count as it was. Takes no memory.
pub fn write_all_of<K: Sink>(sink: &mut K, text: &[u8]) -> Result<(), WriteFault>
    ensures whole { OnOk result (Appends (K.written sink.old) (K.written sink.new) text.now) }
    ensures no_fault { OnOk result (K.faults sink.new ≡ K.faults sink.old) }

    ensures prefix { OnErr result (TookPrefix (K.written sink.old) (K.written sink.new) text.now) }
    ensures fault { OnErr result (Rose (K.faults sink.old) (K.faults sink.new)) }
{
    let mut at = 0;
    while at < text.len() {
        match sink.write(&text[at..]) {
            Ok(count) => at += count,
            Err(Failed) => return Err(WriteFault),
        }
    }
    Ok(())
}
