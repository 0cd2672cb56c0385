//! Words of lines, and texts of answers.
use std::alloc::Global;
use std::test::Fail;
use store_folder::StoreStop;
use store_journal::{Current, Position, Slot};

/// The first word of a line, and the rest of it.
pub(crate) fn split_word(line: &str) -> (&str, &str) {
    line.split_once(' ').unwrap_or((line, ""))
}

/// The file of a letter.
pub(crate) fn slot_of(letter: &str) -> Result<Slot, Fail> {
    match letter {
        "A" => Ok(Slot::A),
        "B" => Ok(Slot::B),
        _ => Err(Fail::new("no file")),
    }
}

/// The number of digits.
pub(crate) fn number_of(digits: &str) -> Result<u64, Fail> {
    match digits.parse::<u64>() {
        Ok(number) => Ok(number),
        Err(_) => Err(Fail::new("no number")),
    }
}

/// The text that a program prints for a store that can't be used, and its second line.
pub(crate) fn stop_text(alloc: Global, path: &str, stop: &StoreStop) -> Result<String, Fail> {
    Ok(format!(in alloc; "store {} {path}{stop}", stop.number())?)
}

/// Texts with commas between them.
fn list_text(alloc: Global, texts: &[&[u8]]) -> Result<String, Fail> {
    let mut printed = String::new(alloc);
    for (i, text) in texts.iter().enumerate() {
        if i > 0 {
            printed.push(',')?;
        }
        if text.len() > 40 {
            printed.push_str(format!(in alloc; "({})", text.len())?.as_str())?;
        } else {
            printed.push_str(std::str::from_utf8(text).unwrap_or("?"))?;
        }
    }
    Ok(printed)
}

/// The content of CURRENT, and of the file that it names.
pub(crate) fn content_text(
    alloc: Global,
    current: &Current,
    parts: &[&[u8]],
    records: &[&[u8]],
    position: &Position,
) -> Result<String, Fail> {
    let slot = match current.slot {
        Slot::A => "A",
        Slot::B => "B",
    };
    let parts = list_text(alloc, parts)?;
    let records = list_text(alloc, records)?;
    Ok(format!(in alloc;
        "kept {} {slot} {} [{parts}] [{records}] {} {}",
        current.generation, current.machine, position.place.number, position.at
    )?)
}
