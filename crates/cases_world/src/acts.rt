//! What is done to the world between commands.

use crate::parts::part_of;
use crate::trouble::{Planned, Spot};
use crate::world::World;
use cases_text::{Book, Case, Fault, digits_of, filled, split_words};
use numbered_words::Words;
use std::alloc::{AllocError, Global};

/// Does what a line says that begins with `@`.
pub fn act(world: &mut World, book: &Book, case: &Case, line: &str) -> Result<(), Fault> {
    let alloc = world.alloc;
    let mut words = Vec::new(alloc);
    let split = split_words(alloc, line)?;
    for word in &split {
        let text = filled(alloc, &world.names, &word.text)?;
        words.push(text)?;
    }
    match words.as_slice() {
        [verb, rest @ ..] => act_on(world, book, case, verb, rest),
        [] => Err(Fault::Text("nothing is to be done")),
    }
}

/// Does what a verb and the words behind it say.
fn act_on(
    world: &mut World,
    book: &Book,
    case: &Case,
    verb: &str,
    words: &[String],
) -> Result<(), Fault> {
    match verb {
        "seed" => plan_seed(world, words),
        "copy" | "move" | "remove" | "put" => act_on_parts(world, book, case, verb, words),
        "change" | "cut" => act_on_bytes(world, book, case, verb, words),
        "disk" | "stop" => plan_disks(world, verb, words),
        "input" | "output" | "link" => plan_stream(world, verb, words),
        "same" => compare(world, book, case, words),
        _ => Err(Fault::Text("no such verb")),
    }
}

/// Does something to parts of directories.
fn act_on_parts(
    world: &mut World,
    book: &Book,
    case: &Case,
    verb: &str,
    words: &[String],
) -> Result<(), Fault> {
    let alloc = world.alloc;
    match (verb, words) {
        ("copy", [from, to]) => {
            let (from, to) = (spot_of(alloc, from)?, spot_of(alloc, to)?);
            world.stage.parts.copy(&from, &to)
        }
        ("move", [from, to]) => {
            let (from, to) = (spot_of(alloc, from)?, spot_of(alloc, to)?);
            world.stage.parts.copy(&from, &to)?;
            world.stage.parts.remove(&from);
            Ok(())
        }
        ("remove", [what]) => {
            let spot = spot_of(alloc, what)?;
            world.stage.parts.remove(&spot);
            Ok(())
        }
        ("put", [what, name]) => {
            let bytes = world.file(book, case, name)?;
            let spot = spot_of(alloc, what)?;
            world.stage.parts.put(&spot, &bytes)
        }
        _ => Err(Fault::Text("too many or too few words")),
    }
}

/// Changes or cuts a part of a directory, or a file.
fn act_on_bytes(
    world: &mut World,
    book: &Book,
    case: &Case,
    verb: &str,
    words: &[String],
) -> Result<(), Fault> {
    let alloc = world.alloc;
    let (what, at, bytes) = match (verb, words) {
        ("change", [what, at, digits]) => { (what, place_of(at)?, Some(digits_of(alloc, digits)?)) }
        ("cut", [what, left]) => (what, place_of(left)?, None),
        _ => return Err(Fault::Text("too many or too few words")),
    };
    let spot = spot_of(alloc, what)?;
    if spot.part.is_some() {
        return match bytes {
            Some(bytes) => world.stage.parts.change(&spot, at, &bytes),
            None => world.stage.parts.cut(&spot, at),
        };
    }
    let old = world.file(book, case, what)?;
    let new = match bytes {
        Some(bytes) => changed(alloc, &old, at, &bytes)?,
        None => cut(alloc, &old, at)?,
    };
    world.keep(spot.dir, new)?;
    Ok(())
}

/// These bytes with others in the place of some, from a place on that is counted from the end where it is negative.
fn changed(alloc: Global, old: &[u8], at: i64, bytes: &[u8]) -> Result<Vec<u8>, Fault> {
    let mut new = cut(alloc, old, at)?;
    new.extend_from_slice(bytes)?;
    if let Some(rest) = old.get(new.len()..) {
        new.extend_from_slice(rest)?;
    }
    Ok(new)
}

/// So many of these bytes, or all but so many where that is negative.
fn cut(alloc: Global, old: &[u8], left: i64) -> Result<Vec<u8>, Fault> {
    let number = left.unsigned_abs() as usize;
    let end = if left < 0 {
        old.len().checked_sub(number)
    } else {
        Some(number)
    };
    match end {
        Some(end) if end <= old.len() => Ok(old[..end].to_vec(alloc)?),
        _ => Err(Fault::Text("the file does not reach so far")),
    }
}

/// Lets the random words be those of a number.
fn plan_seed(world: &mut World, words: &[String]) -> Result<(), Fault> {
    match words {
        [number] => {
            world.stage.random = Words::new(number_of(number)?);
            Ok(())
        }
        _ => Err(Fault::Text("too many or too few words")),
    }
}

/// Plans which calls on disks of the next command fail.
fn plan_disks(world: &mut World, verb: &str, words: &[String]) -> Result<(), Fault> {
    let alloc = world.alloc;
    let (spot, call, crash) = match (verb, words) {
        ("disk", [what, call]) => (spot_of(alloc, what)?, number_of(call)?, None),
        ("stop", [what, call, image]) => {
            let image = number_of(image)?;
            (spot_of(alloc, what)?, number_of(call)?, Some(image))
        }
        _ => return Err(Fault::Text("too many or too few words")),
    };
    world.stage.plan.disks = Some(Planned { spot, call, crash });
    Ok(())
}

/// Plans which call of a stream or a link of the next command fails.
fn plan_stream(world: &mut World, verb: &str, words: &[String]) -> Result<(), Fault> {
    let [call] = words else {
        return Err(Fault::Text("too many or too few words"));
    };
    let Ok(call) = call.parse::<u32>() else {
        return Err(Fault::Text("no number"));
    };
    match verb {
        "input" => world.stage.plan.input = call,
        "output" => world.stage.plan.output = call,
        _ => world.stage.plan.link = call,
    }
    Ok(())
}

/// Compares two files.
fn compare(world: &World, book: &Book, case: &Case, words: &[String]) -> Result<(), Fault> {
    let [one, other] = words else {
        return Err(Fault::Text("too many or too few words"));
    };
    let one = world.file(book, case, one)?;
    let other = world.file(book, case, other)?;
    if one.as_slice() == other.as_slice() {
        return Ok(());
    }
    Err(Fault::Text("the two files differ"))
}

/// The spot of a path: a part where its last name is that of one, and else a directory.
fn spot_of(alloc: Global, path: &str) -> Result<Spot, AllocError> {
    if let Some((dir, name)) = path.rsplit_once('/') {
        if let Some(part) = part_of(name) {
            let dir = String::from_str(alloc, dir)?;
            return Ok(Spot {
                dir,
                part: Some(part),
            });
        }
    }
    let dir = String::from_str(alloc, path)?;
    Ok(Spot { dir, part: None })
}

/// The number of a word.
fn number_of(word: &str) -> Result<u64, Fault> {
    match word.parse() {
        Ok(number) => Ok(number),
        Err(_) => Err(Fault::Text("no number")),
    }
}

/// The place of a word, which may be negative.
fn place_of(word: &str) -> Result<i64, Fault> {
    match word.parse() {
        Ok(number) => Ok(number),
        Err(_) => Err(Fault::Text("no number")),
    }
}
