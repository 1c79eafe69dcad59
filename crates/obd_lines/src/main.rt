//! Tells of each row of the files beside it whether it holds. A row is one line, `GIVEN => WANTED`; the parts of GIVEN
//! stand apart by ` : `, and what each file gives is said at the function that answers it. A row that doesn't hold has
//! another line, and the stored output then differs.
//!
//! A further row is one line of a file and one of the stored output. It costs no proof.
#![tactic(auto)]

mod carried;
mod columns;
mod curves;
mod differentials;
mod drawings;
mod exits;
mod fingers;
mod generators;
mod kept;
mod monodromies;
mod pages;
mod paths;
mod regions;
mod same_tables;
mod slides;
mod stop;
mod words;

use columns::columns_told;
use curves::{curve_told, image_told};
use differentials::differential_told;
use drawings::{drawing_told, identity_told, tight_told};
use fingers::fingers_told;
use generators::generators_told;
use kept::kept_told;
use monodromies::monodromy_told;
use pages::page_told;
use regions::regions_told;
use slides::slides_told;
use std::alloc::Global;
use std::{fs, io};
use stop::Stop;
use words::word_told;

/// The files of rows.
const FILES: [&str; 15] = [
    "pages",
    "curves",
    "slides",
    "words",
    "images",
    "drawings",
    "identities",
    "tight",
    "fingers",
    "kept",
    "monodromies",
    "regions",
    "generators",
    "differentials",
    "columns",
];

// What is told of what a row of a file gives.
fn answer(alloc: Global, file: &str, given: &str) -> Result<String, Stop> {
    match file {
        "pages" => page_told(alloc, given),
        "curves" => curve_told(alloc, given),
        "slides" => slides_told(alloc, given),
        "words" => word_told(alloc, given),
        "images" => image_told(alloc, given),
        "drawings" => drawing_told(alloc, given),
        "identities" => identity_told(alloc, given),
        "tight" => tight_told(alloc, given),
        "fingers" => fingers_told(alloc, given),
        "kept" => kept_told(alloc, given),
        "monodromies" => monodromy_told(alloc, given),
        "regions" => regions_told(alloc, given),
        "generators" => generators_told(alloc, given),
        "differentials" => differential_told(alloc, given),
        "columns" => columns_told(alloc, given),
        _ => Err(Stop::NotRead),
    }
}

// Whether what is told is what a row wants. Blanks at the end don't count.
fn holds(alloc: Global, file: &str, row: &str) -> Result<bool, Stop> {
    let Some((given, wanted)) = row.split_once(" =>") else {
        return Err(Stop::NotRead);
    };
    let text = answer(alloc, file, given)?;
    Ok(text.as_str().trim_end() == wanted.trim())
}

// Writes a line for each row of a file.
fn tell_rows(rt: &HostRuntime, file: &str) -> io::Result<()> {
    let rows = fs::read_to_string(rt, file)?;
    for row in rows.as_str().lines() {
        match holds(rt.alloc(), file, row) {
            Ok(true) => println!(rt; "{file}: {row}")?,
            Ok(false) => println!(rt; "{file}: NOT SO: {row}")?,
            Err(stop) => println!(rt; "{file}: {stop:?}: {row}")?,
        }
    }
    Ok(())
}

fn main(rt: HostRuntime) -> io::Result<()> {
    for file in FILES {
        tell_rows(&rt, file)?;
    }
    Ok(())
}
