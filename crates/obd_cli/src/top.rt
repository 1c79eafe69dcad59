// Words and bytes in, a status and a text out.
ghost use Rattle.std.specs.Prelude.{◌≡◌, ◌≢◌, ◌⊎◌, ◌<◌, ◌≤◌, ◌^◌, List, ℕ, length, true, false, map, string_bytes, None, Some, Ok, IfOk, OnOk, IfErr, MatchResult};
ghost use Rattle.std.specs.Io.KnownBytes.{Appends};
ghost use Rattle.obd_base.specs.Causes.{Rose};
ghost use Rattle.obd_base.specs.Streams.{TookPrefix};
ghost use Rattle.witness_check.specs.Checked.{checked};
ghost use Rattle.obd_doc.specs.Document.{IsBook, book_read, curve_names};
ghost use Rattle.obd_doc.specs.declared.book.Book.{Book as Read};
ghost use Rattle.obd_cli.specs.Refused.{doc_line, slide_line};
ghost use Rattle.obd_cli.specs.Steps.{IsSurfaceOf};
ghost use Rattle.obd_cli.specs.Answers.{AnswersBook, AnswersCertificate, AnswersDocument, AnswersRead, AnswersSample, AnswersSurface, Owes, has_text, most_bytes, reads, too_long, usage};
ghost use Rattle.obd_cli.specs.CheckAnswer.{check_answer};
ghost use Rattle.obd_cli.specs.CommandLine.{command_of};
ghost use Rattle.obd_cli.specs.Decisions.{refused_with};
ghost use Rattle.obd_cli.specs.Run.{CutShort, Finished, GoesOverBudget, GoesOverLimit, HasSampleStatus, HasStatus, IsFault, IsWithin, Limited, Rejected, Told};
ghost use Rattle.obd_cli.specs.Sample.{sample_book};
ghost use Rattle.obd_cli.specs.declared.status.Command.{Command as Which};

use crate::check_command::judged;
use crate::command_line::command_of;
use crate::decide::decide_answer;
use crate::page::paged;
use crate::refused::{put_doc_refusal, put_refused, put_slide_refusal};
use crate::sample::{sample_answer, sample_book};
use crate::status::{Answer, Command, Status, Wanted};
use crate::surface::{Surface, SurfaceRefusal, surface_of};
use handle_slide::RefusedSlide;
use obd_base::{NoMemory, ReadRefusal, Sink, Source, Text, WriteFault, read_all, write_all_of};
use obd_doc::{Book, DocRefusal, read};
use std::alloc::Global;

/// The greatest number of bytes of a document.
pub const DOCUMENT_LIMIT: usize = 1_048_576;

/// The greatest number of bytes of a certificate that is checked.
pub const CERTIFICATE_LIMIT: usize = 8_388_608;

const USAGE: &str = "usage: obd decide | page | check | sample SEED TWISTS\n";

// The answer to words that are no command.
fn usage(alloc: Global) -> Result<Answer, NoMemory>
    ensures { IfOk result (λ answer. answer ≡ usage) }
{
    let mut text = Text::new(alloc);
    text.put(USAGE)?;
    Ok(Answer {
        status: Status::Usage,
        text,
    })
}

// The answer to more bytes than a limit.
fn too_long(alloc: Global, most: usize) -> Result<Answer, NoMemory>
    ensures { IfOk result (λ answer. answer ≡ too_long most) }
{
    let mut text = Text::new(alloc);
    put_refused(&mut text, 1, "InputLong", &[], &[most as u64])?;
    Ok(Answer {
        status: Status::Refused,
        text,
    })
}

// The answer to what is no document of a book.
fn refused(alloc: Global, refusal: &DocRefusal) -> Result<Answer, NoMemory>
    ensures { IfOk result (λ answer. answer ≡ refused_with (doc_line refusal.now)) }
{
    let mut text = Text::new(alloc);
    put_doc_refusal(&mut text, refusal)?;
    Ok(Answer {
        status: Status::Refused,
        text,
    })
}

// The answer to a book of which a slide is refused.
fn not_slid(alloc: Global, book: &Book, refused: &RefusedSlide) -> Result<Answer, NoMemory>
    ensures { IfOk result (λ answer. answer ≡ refused_with (slide_line (curve_names book.now) refused.now)) }
{
    let mut text = Text::new(alloc);
    put_slide_refusal(&mut text, book.curves.as_slice(), refused)?;
    Ok(Answer {
        status: Status::Refused,
        text,
    })
}

// The answer to a book on its surface.
fn answer_on(
    alloc: Global,
    wanted: Wanted,
    book: &Book,
    surface: &Surface,
) -> Result<Answer, NoMemory>
    requires valid { IsBook book.now }
    requires surface { IsSurfaceOf book.now surface.now }
    requires most_moves { book.now.limits.moves ≤ 20000 }
    requires most_generators { book.now.limits.generators ≤ 20000 }
    ensures answered { IfOk result (AnswersSurface wanted book.now (Ok surface.now.slid)) }
    ensures settled { IfOk result (λ answer. has_text answer.status ≡ true) }
{
    match wanted {
        Wanted::Certificate => decide_answer(alloc, book, surface),
        Wanted::Words => paged(alloc, book, surface),
        Wanted::Summary { seed, twists } => sample_answer(alloc, seed, twists, book, surface),
    }
}

// The answer to a book.
fn answer_to_book(alloc: Global, wanted: Wanted, book: &Book) -> Result<Answer, NoMemory>
    requires valid { IsBook book.now }
    requires most_moves { book.now.limits.moves ≤ 20000 }
    requires most_generators { book.now.limits.generators ≤ 20000 }
    ensures answered { IfOk result (AnswersBook wanted book.now) }
    ensures settled { IfOk result (λ answer. has_text answer.status ≡ true) }
{
    match surface_of(alloc, book) {
        Ok(surface) => answer_on(alloc, wanted, book, &surface),
        Err(SurfaceRefusal::Slide(refused)) => not_slid(alloc, book, &refused),
        Err(SurfaceRefusal::NoMemory) => Err(NoMemory),
    }
}

// The answer to a document.
fn answer_to(alloc: Global, wanted: Wanted, bytes: &[u8]) -> Result<Answer, NoMemory>
    requires { length bytes.now < 2 ^ 32 }
    ensures answered { IfOk result (AnswersDocument wanted bytes.now) }
    ensures settled { IfOk result (λ answer. has_text answer.status ≡ true) }
{
    match read(alloc, bytes) {
        Ok(book) => answer_to_book(alloc, wanted, &book),
        Err(DocRefusal::NoMemory) => Err(NoMemory),
        Err(refusal) => refused(alloc, &refusal),
    }
}

// The answer of `sample`.
fn answer_to_sample(alloc: Global, seed: u16, twists: u16) -> Result<Answer, NoMemory>
    ensures answered { IfOk result (AnswersSample seed twists) }
    ensures settled { IfOk result (λ answer. has_text answer.status ≡ true) }
{
    let book = sample_book(alloc, seed, twists)?;
    answer_to_book(alloc, Wanted::Summary { seed, twists }, &book)
}

// The answer to a document that is read, or the status that stands in its place.
fn document_answer<S: Source>(
    alloc: Global,
    wanted: Wanted,
    source: &mut S,
) -> Result<Answer, Status>
    ensures answered { IfOk result (AnswersRead (most_bytes Which.Decide) (AnswersDocument wanted) (S.left source.old) (S.left source.new)) }
    ensures settled { IfOk result (λ answer. has_text answer.status ≡ true) }
    ensures kept { OnOk result (S.faults source.new ≡ S.faults source.old) }
    ensures fault { IfErr result (λ status. (status ≡ Status.NoMemory × (S.faults source.new ≡ S.faults source.old))
        ⊎ (status ≡ Status.ReadFault × Rose (S.faults source.old) (S.faults source.new))) }
{
    let answer = match read_all(alloc, source, DOCUMENT_LIMIT) {
        Ok(bytes) => answer_to(alloc, wanted, &bytes),
        Err(ReadRefusal::InputLong) => too_long(alloc, DOCUMENT_LIMIT),
        Err(ReadRefusal::ReadFault) => return Err(Status::ReadFault),
        Err(ReadRefusal::NoMemory) => return Err(Status::NoMemory),
    };
    match answer {
        Ok(answer) => Ok(answer),
        Err(NoMemory) => Err(Status::NoMemory),
    }
}

// The answer to a certificate that is read, or the status that stands in its place.
fn certificate_answer<S: Source>(alloc: Global, source: &mut S) -> Result<Answer, Status>
    ensures answered { IfOk result (AnswersRead (most_bytes Which.Check) AnswersCertificate (S.left source.old) (S.left source.new)) }
    ensures settled { IfOk result (λ answer. has_text answer.status ≡ true) }
    ensures kept { OnOk result (S.faults source.new ≡ S.faults source.old) }
    ensures fault { IfErr result (λ status. (status ≡ Status.NoMemory × (S.faults source.new ≡ S.faults source.old))
        ⊎ (status ≡ Status.ReadFault × Rose (S.faults source.old) (S.faults source.new))) }
{
    let answer = match read_all(alloc, source, CERTIFICATE_LIMIT) {
        Ok(bytes) => judged(alloc, &bytes),
        Err(ReadRefusal::InputLong) => too_long(alloc, CERTIFICATE_LIMIT),
        Err(ReadRefusal::ReadFault) => return Err(Status::ReadFault),
        Err(ReadRefusal::NoMemory) => return Err(Status::NoMemory),
    };
    match answer {
        Ok(answer) => Ok(answer),
        Err(NoMemory) => Err(Status::NoMemory),
    }
}

// The answer that is owed, or the status that stands in its place.
fn owed<S: Source>(alloc: Global, words: &[String], source: &mut S) -> Result<Answer, Status>
    ensures owed { IfOk result (Owes (command_of (map string_bytes words.now)) (S.left source.old) (S.left source.new)) }
    ensures text { IfOk result (λ answer. has_text answer.status ≡ true) }
    ensures usage { command_of (map string_bytes words.now) ≡ None → MatchResult result (λ answer. answer.status ≡ Status.Usage) (λ status. status ≡ Status.NoMemory) }
    ensures unread { reads (command_of (map string_bytes words.now)) ≡ false → source.new ≡ source.old }
    ensures wanting { reads (command_of (map string_bytes words.now)) ≡ false → IfErr result (λ status. status ≡ Status.NoMemory) }
    ensures kept { OnOk result (S.faults source.new ≡ S.faults source.old) }
    ensures fault { IfErr result (λ status. (status ≡ Status.NoMemory × (S.faults source.new ≡ S.faults source.old))
        ⊎ (status ≡ Status.ReadFault × Rose (S.faults source.old) (S.faults source.new))) }
{
    let answer = match command_of(alloc, words) {
        Ok(Some(Command::Decide)) => return document_answer(alloc, Wanted::Certificate, source),
        Ok(Some(Command::Page)) => return document_answer(alloc, Wanted::Words, source),
        Ok(Some(Command::Check)) => return certificate_answer(alloc, source),
        Ok(Some(Command::Sample { seed, twists })) => answer_to_sample(alloc, seed, twists),
        Ok(None) => usage(alloc),
        Err(NoMemory) => Err(NoMemory),
    };
    match answer {
        Ok(answer) => Ok(answer),
        Err(NoMemory) => Err(Status::NoMemory),
    }
}

// Writes an answer, and tells its status.
fn told<K: Sink>(sink: &mut K, answer: &Answer) -> Status
    requires { has_text answer.now.status ≡ true }
    ensures whole { result ≢ Status.WriteFault → (result ≡ answer.now.status)
        × Appends (K.written sink.old) (K.written sink.new) answer.now.text
        × (K.faults sink.new ≡ K.faults sink.old) }
    ensures fault { result ≡ Status.WriteFault → TookPrefix (K.written sink.old) (K.written sink.new) answer.now.text
        × Rose (K.faults sink.old) (K.faults sink.new) }
    ensures other { has_text result ≡ true ⊎ (result ≡ Status.WriteFault) }
{
    match write_all_of(sink, answer.text.bytes()) {
        Ok(()) => answer.status,
        Err(WriteFault) => Status::WriteFault,
    }
}

// The run, with the clauses from which the others follow.
fn run_words<S: Source, K: Sink>(
    alloc: Global,
    words: &[String],
    source: &mut S,
    sink: &mut K,
) -> Status
    ensures told { has_text result ≡ true → Told (command_of (map string_bytes words.now))
        (S.left source.old) (S.left source.new) (K.written sink.old) (K.written sink.new) result }
    ensures no_command { command_of (map string_bytes words.now) ≡ None → (result ≡ Status.Usage) ⊎ (result ≡ Status.WriteFault) ⊎ (result ≡ Status.NoMemory) }
    ensures unread { reads (command_of (map string_bytes words.now)) ≡ false → source.new ≡ source.old }
    ensures no_read_fault { reads (command_of (map string_bytes words.now)) ≡ false → result ≢ Status.ReadFault }
    ensures read_fault { result ≡ Status.ReadFault → Rose (S.faults source.old) (S.faults source.new) }
    ensures write_fault { result ≡ Status.WriteFault → Rose (K.faults sink.old) (K.faults sink.new)
        × CutShort (command_of (map string_bytes words.now)) (S.left source.old) (S.left source.new) (K.written sink.old) (K.written sink.new) }
    ensures read_well { result ≢ Status.ReadFault → S.faults source.new ≡ S.faults source.old }
    ensures wrote_well { result ≢ Status.WriteFault → K.faults sink.new ≡ K.faults sink.old }
    ensures unwritten { (result ≡ Status.ReadFault) ⊎ (result ≡ Status.NoMemory) → sink.new ≡ sink.old }
    ensures all { has_text result ≡ true ⊎ IsFault result }
{
    match owed(alloc, words, source) {
        Ok(answer) => told(sink, &answer),
        Err(status) => status,
    }
}

/// One run of the program. The words after the program's own name decide the command. `decide` and `page` read a document
/// from the source: `decide` writes the certificate of its open book, where the strategy takes no more fingers and the last
/// drawing has no more generators than the book's limits, or a line that tells which of these fails; and `page` writes the
/// seams, the basis and the words of its strands. `check` reads a certificate, and writes whether it is valid and what it says,
/// or its first bad line with the reason. `sample` reads nothing, and sums up what is decided of the sample of a seed.
///
/// The whole text is built before the first write. Where a device fails, its fault takes the place of the
/// status whose text was owed; `NoMemory` may come at any step that takes memory, before the first write.
/// Linear in the bytes that are read, but for the order of the fields of a JSON object. With `page` the cost is that of
/// `monodromy::drawn` besides, and with `decide` or `sample` also that of `nice_plan::make_nice`, of `boundary_map::columns`
/// and of `eliminate`; with `check` it is that of `witness_check::check`.
pub fn run<S: Source, K: Sink>(
    alloc: Global,
    words: &[String],
    source: &mut S,
    sink: &mut K,
) -> Status
    // The headline: with `decide`, the certificate that was written belongs to the book of the bytes that were read;
    // with `page`, the words that were written are those of that book's strands; with `check`, the bytes that were read are
    // a valid certificate; and with `sample`, the summary that was written is that of a certificate of the sample's book.
    ensures done { result ≡ Status.Done → Finished (command_of (map string_bytes words.now))
        (S.left source.old) (S.left source.new) (K.written sink.old) (K.written sink.new) }

    // Bad comes with `check` alone, where the bytes that were read aren't a valid certificate.
    ensures bad { result ≡ Status.Bad → Rejected (command_of (map string_bytes words.now))
        (S.left source.old) (S.left source.new) (K.written sink.old) (K.written sink.new) }

    // GeneratorLimit comes with `decide` or `sample` alone, where the last drawing of the book of the bytes that were read, or of
    // the sample's book, has more generators than the book's limit.
    ensures limited { result ≡ Status.GeneratorLimit → Limited GoesOverLimit (command_of (map string_bytes words.now))
        (S.left source.old) (S.left source.new) (K.written sink.old) (K.written sink.new) }

    // MoveBudget comes with `decide` or `sample` alone, where the strategy takes more fingers than the book's limit.
    ensures budget { result ≡ Status.MoveBudget → Limited GoesOverBudget (command_of (map string_bytes words.now))
        (S.left source.old) (S.left source.new) (K.written sink.old) (K.written sink.new) }

    // Each status with a text: the text that is owed was written, whole.
    ensures told { has_text result ≡ true → Told (command_of (map string_bytes words.now))
        (S.left source.old) (S.left source.new) (K.written sink.old) (K.written sink.new) result }

    // Usage comes exactly for words that are no command, and then nothing was read.
    ensures usage { result ≡ Status.Usage → command_of (map string_bytes words.now) ≡ None }
    ensures no_command { command_of (map string_bytes words.now) ≡ None → (result ≡ Status.Usage) ⊎ (result ≡ Status.WriteFault) ⊎ (result ≡ Status.NoMemory) }
    ensures unread { command_of (map string_bytes words.now) ≡ None → source.new ≡ source.old }
    // `sample` reads nothing either.
    ensures sample_unread { (seed twists : ℕ) → command_of (map string_bytes words.now) ≡ Some (Which.Sample seed twists) → source.new ≡ source.old }

    // A fault comes only where the device's count of faults rose, and no other status where one did.
    ensures read_fault { result ≡ Status.ReadFault → Rose (S.faults source.old) (S.faults source.new) }
    ensures write_fault { result ≡ Status.WriteFault → Rose (K.faults sink.old) (K.faults sink.new)
        × CutShort (command_of (map string_bytes words.now)) (S.left source.old) (S.left source.new) (K.written sink.old) (K.written sink.new) }
    ensures read_well { result ≢ Status.ReadFault → S.faults source.new ≡ S.faults source.old }
    ensures wrote_well { result ≢ Status.WriteFault → K.faults sink.new ≡ K.faults sink.old }
    ensures unwritten { (result ≡ Status.ReadFault) ⊎ (result ≡ Status.NoMemory) → sink.new ≡ sink.old }

    // For bytes that the source tells, the status is that of the answer to them, but for a fault or want of memory:
    // with `decide` it goes by the book's words and their drawing: MoveBudget exactly where the strategy takes more fingers
    // than the limit, else GeneratorLimit exactly where the last drawing has more generators than the limit, and else Done.
    ensures complete { (bytes : List ℕ) (command : Which) → command_of (map string_bytes words.now) ≡ Some command
        → S.left source.old ≡ Some bytes → HasStatus command bytes result ⊎ IsFault result }
    // So `decide` certifies each accepted book whose slides are accepted and that keeps both limits, unless a device fails or
    // memory is wanting.
    ensures certified { (bytes : List ℕ) (book : Read) → command_of (map string_bytes words.now) ≡ Some Which.Decide
        → S.left source.old ≡ Some bytes → length bytes ≤ most_bytes Which.Decide → book_read bytes ≡ Some book → IsWithin book
        → (Rose (S.faults source.old) (S.faults source.new) → ⊥) → (Rose (K.faults sink.old) (K.faults sink.new) → ⊥)
        → (result ≡ Status.Done) ⊎ (result ≡ Status.NoMemory) }
    // With `check` the status is that of the answer to the bytes, unless a device fails or memory is wanting.
    ensures judged { (bytes : List ℕ) → command_of (map string_bytes words.now) ≡ Some Which.Check
        → S.left source.old ≡ Some bytes → length bytes ≤ most_bytes Which.Check
        → (Rose (S.faults source.old) (S.faults source.new) → ⊥) → (Rose (K.faults sink.old) (K.faults sink.new) → ⊥)
        → (result ≡ (check_answer (checked bytes)).status) ⊎ (result ≡ Status.NoMemory) }
    // With `sample` the status goes by the sample's book, whatever the source tells;
    ensures sampled { (seed twists : ℕ) → command_of (map string_bytes words.now) ≡ Some (Which.Sample seed twists)
        → HasSampleStatus seed twists result ⊎ (result ≡ Status.WriteFault) ⊎ (result ≡ Status.NoMemory) }
    // so each sample that keeps both limits is summed up, unless the sink fails or memory is wanting.
    ensures sample_complete { (seed twists : ℕ) → command_of (map string_bytes words.now) ≡ Some (Which.Sample seed twists)
        → IsWithin (sample_book seed twists) → (Rose (K.faults sink.old) (K.faults sink.new) → ⊥)
        → (result ≡ Status.Done) ⊎ (result ≡ Status.NoMemory) }
    ensures ended { has_text result ≡ true ⊎ IsFault result }
{
    run_words(alloc, words, source, sink)
}
