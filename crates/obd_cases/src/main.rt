//! Runs the program's top call over memory on every case that lies in the folders beside it, and writes a line for each.
//! A case NAME is three files: NAME holds the bytes that are read, NAME.args the words, one a line, and NAME.stdout the
//! text that must be written. A case that writes another text has another line, and the stored output then differs.
//! Where that text is a certificate it is checked too, and has a further line.
//! Of the files in `prefixes` every shorter beginning is tried, which is no JSON and must be refused as such.
//!
//! A further case is three more files and one more line of the stored output. It costs no proof.
#![tactic(auto)]

use obd_base::{MemSink, NoMemory, SureSource};
use obd_cli::{Status, run};
use std::alloc::{AllocError, Global};
use std::{fs, io};

/// The folders of cases.
const FOLDERS: [&str; 13] = [
    "check", "damaged", "decide", "document", "examples", "fields", "identity", "page", "rules",
    "surface", "usage", "words", "worked",
];

/// The greatest number of bytes that a run may write.
const ROOM: usize = 1_048_576;

// How a run ends, and whether it writes the text that is wanted.
#[derive(Drop)]
struct Outcome {
    status: Status,
    as_wanted: bool,
}

// The run with these words over these bytes.
fn outcome_of(
    alloc: Global,
    words: &[String],
    bytes: Vec<u8>,
    wanted: &[u8],
) -> Result<Outcome, NoMemory> {
    let mut source = SureSource::new(bytes);
    let mut sink = MemSink::new(alloc, ROOM, ROOM, Vec::new(alloc))?;
    let status = run(alloc, words, &mut source, &mut sink);
    Ok(Outcome {
        status,
        as_wanted: sink.taken() == wanted,
    })
}

// Writes the line of a case.
fn tell(rt: &HostRuntime, case: &str, outcome: Result<Outcome, NoMemory>) -> io::Result<()> {
    match outcome {
        Ok(outcome) if outcome.as_wanted => println!(rt; "{case}: {:?}", outcome.status),
        Ok(outcome) => println!(rt; "{case}: {:?}, BUT ANOTHER TEXT", outcome.status),
        Err(NoMemory) => println!(rt; "{case}: NO MEMORY"),
    }
}

// The words of a case, one a line.
fn words_of(alloc: Global, text: &str) -> Result<Vec<String>, AllocError> {
    let mut words = Vec::new(alloc);
    for line in text.lines() {
        words.push(String::from_str(alloc, line)?)?;
    }
    Ok(words)
}

// The answer in a certificate, which begins its last line but one. Another text has none.
fn answer_in(text: &str) -> Option<&str> {
    if !text.starts_with("contact certificate ") {
        return None;
    }
    let (before, _) = text.rsplit_once("\nend\n")?;
    let (_, verdict) = before.rsplit_once('\n')?;
    let (answer, _) = verdict.split_once(' ')?;
    Some(answer)
}

// Checks the text that a case wants, where it is a certificate.
fn check_wanted(rt: &HostRuntime, case: &str, text: &str) -> io::Result<()> {
    let Some(answer) = answer_in(text) else {
        return Ok(());
    };
    let alloc = rt.alloc();
    let check = words_of(alloc, "check")?;
    let wanted = format!(in alloc; "valid {answer}\n")?;
    let outcome = outcome_of(
        alloc,
        &check,
        text.as_bytes().to_vec(alloc)?,
        wanted.as_bytes(),
    );
    tell(rt, format!(in alloc; "{case}, checked")?.as_str(), outcome)
}

// Runs one case, and checks the certificate that it wants.
fn run_case(rt: &HostRuntime, case: &str) -> io::Result<()> {
    let alloc = rt.alloc();
    let bytes = fs::read(rt, case)?;
    let args = fs::read_to_string(rt, format!(in alloc; "{case}.args")?)?;
    let wanted = fs::read_to_string(rt, format!(in alloc; "{case}.stdout")?)?;
    let words = words_of(alloc, args.as_str())?;
    tell(
        rt,
        case,
        outcome_of(alloc, &words, bytes, wanted.as_bytes()),
    )?;
    check_wanted(rt, case, wanted.as_str())
}

// The names of a folder's cases, in order.
fn cases_in(rt: &HostRuntime, folder: &str) -> io::Result<Vec<String>> {
    let alloc = rt.alloc();
    let mut cases = Vec::new(alloc);
    for entry in fs::read_dir(rt, folder)? {
        if let Some(case) = entry?.file_name().strip_suffix(".stdout") {
            cases.push(String::from_str(alloc, case)?)?;
        }
    }
    cases.sort()?;
    Ok(cases)
}

// Runs the cases of a folder.
fn run_folder(rt: &HostRuntime, folder: &str) -> io::Result<()> {
    for case in &cases_in(rt, folder)? {
        run_case(rt, format!(in rt.alloc(); "{folder}/{case}")?.as_str())?;
    }
    Ok(())
}

// Runs `decide` on each shorter beginning of a document. It has so many bytes as the refusal tells.
fn run_prefixes(rt: &HostRuntime, document: &str) -> io::Result<()> {
    let alloc = rt.alloc();
    let bytes = fs::read(rt, document)?;
    let decide = words_of(alloc, "decide")?;
    for size in 0..bytes.len() {
        let wanted = format!(in alloc; "refused 2 Json {size}\n")?;
        let outcome = outcome_of(
            alloc,
            &decide,
            bytes[..size].to_vec(alloc)?,
            wanted.as_bytes(),
        );
        tell(
            rt,
            format!(in alloc; "{document}, {size} bytes")?.as_str(),
            outcome,
        )?;
    }
    Ok(())
}

fn main(rt: HostRuntime) -> io::Result<()> {
    for folder in FOLDERS {
        run_folder(&rt, folder)?;
    }
    run_prefixes(&rt, "prefixes/annulus")
}
