// What is told of the differential of drawings.
ghost use Rattle.std.specs.Prelude.{◌≡◌, ◌≤◌, length};
ghost use Rattle.drawing.specs.Points.{generators as all_generators};
ghost use Rattle.region_table.specs.Nice.{IsNice};
ghost use Rattle.region_table.specs.Table.{IsTableOf};

use crate::drawings::read;
use crate::pages::polygon_of;
use crate::stop::Stop;
use boundary_map::{columns, columns_plain};
use drawing::Drawing;
use generator_list::{Generators, ListRefusal, list};
use hkm_diagram::Diagram;
use obd_base::Column;
use region_table::Regions;
use std::alloc::{AllocError, Global};

/// The columns of a nice drawing with at most 16 pieces that aren't base, `PAGE : EXITS`, by walks: `;` stands between
/// columns, and each is its rows. Where trying every set of pieces gives others, `not as by all sets` comes last.
pub(crate) fn differential_told(alloc: Global, given: &str) -> Result<String, Stop> {
    let Some((page, exits)) = given.split_once(" : ") else {
        return Err(Stop::NotRead);
    };
    let polygon = polygon_of(alloc, page)?;
    match read(alloc, &polygon, exits)? {
        Ok(drawing) => differential_of(alloc, drawing),
        Err(_) => Err(Stop::NotRead),
    }
}

fn differential_of(alloc: Global, drawing: Drawing) -> Result<String, Stop> {
    let diagram = Diagram::of(drawing);
    let regions = Regions::of(alloc, diagram.drawing())?;
    if regions.inner().len() > 16 || !regions.is_nice() {
        return Err(Stop::NotRead);
    }
    match list(alloc, diagram.drawing(), 20_000) {
        Ok(generators) => both_ways(alloc, &diagram, &regions, &generators),
        Err(ListRefusal::GeneratorLimit { .. }) => Err(Stop::NotRead),
        Err(ListRefusal::NoMemory) => Err(Stop::NoMemory),
    }
}

// The columns by walks, where they are those by all sets.
fn both_ways(
    alloc: Global,
    diagram: &Diagram,
    regions: &Regions,
    generators: &Generators,
) -> Result<String, Stop>
    requires table { IsTableOf diagram.now regions.now }
    requires nice { IsNice diagram.now }
    requires generators { generators.now ≡ all_generators diagram.now }
    requires few { length regions.now.inner ≤ 16 }
{
    let walked = columns(alloc, diagram, regions, generators)?;
    let plain = columns_plain(alloc, diagram, regions, generators)?;
    let mut text = columns_text(alloc, walked.as_slice())?;
    let by_all_sets = columns_text(alloc, plain.as_slice())?;
    if text.as_str() != by_all_sets.as_str() {
        text.push_str(", not as by all sets")?;
    }
    Ok(text)
}

// Columns, with `;` between them.
fn columns_text(alloc: Global, columns: &[Column]) -> Result<String, AllocError> {
    let mut text = String::from_str(alloc, "columns")?;
    for number in 0..columns.len() {
        if number > 0 {
            text.push_str(" ;")?;
        }
        put_rows(&mut text, columns[number].rows.as_slice())?;
    }
    Ok(text)
}

// Puts the rows of a column, each behind a space.
fn put_rows(text: &mut String, rows: &[u32]) -> Result<(), AllocError> {
    for row in rows {
        write!(text, " {row}")?;
    }
    Ok(())
}
