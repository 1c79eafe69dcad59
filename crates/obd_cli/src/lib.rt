//! The program's one call, from its words and the bytes that it reads to the text that it writes.
//!
//! `decide` reads a document, an open book, and writes a certificate; `page` writes the joined page and the words
//! of the strands; `check` reads a certificate and tells whether it is valid; and `sample` decides a book of its own and sums
//! up its certificate. `run` promises that every line of the first two is the book's, by its definition; that only one rank, one
//! list of pivots and one verdict meet theirs is a law of `mod2_rank`. The forms of the document and the certificate
//! are this project's own.
#![tactic(auto)]

mod certify;
mod check_command;
mod command_line;
mod complex;
mod decide;
mod drawn;
mod moves;
mod page;
mod refused;
mod sample;
mod status;
mod surface;
mod top;

pub use status::Status;
pub use top::{CERTIFICATE_LIMIT, DOCUMENT_LIMIT, run};
