// The commands of a run, and how it ends.

use obd_base::Text;

/// The commands of a run, and how it ends. The numbers are the program's exit codes.
#[derive(Clone, Copy, Debug, PartialEq, Eq)]
pub enum Status {
    /// 0: what the command owes was written.
    Done,
    /// 1: the certificate that was read isn't valid.
    Bad,
    /// 2: the words are no command.
    Usage,
    /// 3: a rule of the document fails, or too many bytes were read.
    Refused,
    /// 4: the source failed.
    ReadFault,
    /// 5: the sink failed.
    WriteFault,
    /// 6: the diagram has more generators than the book's limit.
    GeneratorLimit,
    /// 7: the diagram needs more fingers than the book's limit.
    MoveBudget,
    /// 8: memory was wanting.
    NoMemory,
}

/// A command of the program.
#[derive(Clone, Copy, Debug, PartialEq, Eq)]
pub(crate) enum Command {
    /// Writes the certificate of the book that was read.
    Decide,
    /// Writes the seams, the basis and the words of the strands of the book that was read.
    Page,
    /// Tells whether the text that was read is a valid certificate, with its answer or its first bad line.
    Check,
    /// Reads nothing, and sums up what is decided of the sample of a seed with so many twists.
    Sample { seed: u16, twists: u16 },
}

/// What is told of a book.
#[derive(Clone, Copy, Debug, PartialEq, Eq)]
pub(crate) enum Wanted {
    /// Its certificate.
    Certificate,
    /// Its seams, its basis and the words of its strands.
    Words,
    /// The summary of its certificate, as that of the sample of a seed with so many twists.
    Summary { seed: u16, twists: u16 },
}

/// A status with the text that goes with it.
#[derive(Drop)]
pub struct Answer {
    pub(crate) status: Status,
    pub(crate) text: Text,
}
