// What is told of the generators of drawings.
use crate::drawings::read;
use crate::pages::polygon_of;
use crate::stop::Stop;
use drawing::Drawing;
use generator_list::{Generators, ListRefusal, list};
use obd_base::GenNo;
use std::alloc::Global;

/// The generators of a drawing, `PAGE : EXITS : LIMIT : POINTS`: each by its points, the number of the contact
/// generator, and the number of the list of points, if it is one; or `over` with the limit and one. A generator that isn't
/// found again by its points is `lost`.
pub(crate) fn generators_told(alloc: Global, given: &str) -> Result<String, Stop> {
    let Some((page, rest)) = given.split_once(" : ") else {
        return Err(Stop::NotRead);
    };
    let Some((exits, rest)) = rest.split_once(" : ") else {
        return Err(Stop::NotRead);
    };
    let Some((limit, points)) = rest.split_once(" :") else {
        return Err(Stop::NotRead);
    };
    let Ok(limit) = limit.parse::<u32>() else {
        return Err(Stop::NotRead);
    };
    let polygon = polygon_of(alloc, page)?;
    match read(alloc, &polygon, exits)? {
        Ok(drawing) => generators_of(alloc, &drawing, limit, points),
        Err(_) => Err(Stop::NotRead),
    }
}

fn generators_of(
    alloc: Global,
    drawing: &Drawing,
    limit: u32,
    points: &str,
) -> Result<String, Stop> {
    if limit > 20_000 {
        return Err(Stop::NotRead);
    }
    match list(alloc, drawing, limit) {
        Ok(generators) => listed(alloc, &generators, points),
        Err(ListRefusal::GeneratorLimit { over }) => Ok(format!(in alloc; "over {over}")?),
        Err(ListRefusal::NoMemory) => Err(Stop::NoMemory),
    }
}

fn listed(alloc: Global, generators: &Generators, points: &str) -> Result<String, Stop> {
    let mut text = String::new(alloc);
    for number in 0..generators.count() {
        put_generator(&mut text, generators, number)?;
    }
    write!(text, "contact {}", generators.contact().number())?;
    put_found(alloc, &mut text, generators, points)?;
    Ok(text)
}

// Puts the points of a generator.
fn put_generator(text: &mut String, generators: &Generators, number: u32) -> Result<(), Stop> {
    if number >= generators.count() {
        return Err(Stop::NotRead);
    }
    let points = generators.points(GenNo::new(number));
    for point in points {
        write!(text, "{point} ")?;
    }
    match generators.find(points) {
        Some(found) if found.number() == number => text.push_str("| ")?,
        _ => text.push_str("lost | ")?,
    }
    Ok(())
}

// Puts the number of a list of points.
fn put_found(
    alloc: Global,
    text: &mut String,
    generators: &Generators,
    points: &str,
) -> Result<(), Stop> {
    let points = points_of(alloc, points)?;
    match generators.find(&points) {
        Some(found) => write!(text, ", found {}", found.number())?,
        None => text.push_str(", not found")?,
    }
    Ok(())
}

fn points_of(alloc: Global, text: &str) -> Result<Vec<u32>, Stop> {
    let mut points = Vec::new(alloc);
    for word in text.split_whitespace() {
        let Ok(point) = word.parse::<u32>() else {
            return Err(Stop::NotRead);
        };
        points.push(point)?;
    }
    Ok(points)
}
