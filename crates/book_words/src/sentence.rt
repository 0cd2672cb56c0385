//! The sentence that explains a fault.
ghost use Rattle.std.specs.Prelude.{◌≡◌, codes, string_bytes, IfOk};

use crate::members::member;
use crate::names::{range, twice};
use crate::shape::shape;
use std::alloc::{AllocError, Global};
use toml::Table;
use who_book::BookFault;

/// Explains what is wrong with a text that has this fault, as in `users: carol and bob are both 1002`. The name of the
/// file isn't included. The result is one sentence, on the first place that is found. `Err`: the allocation of the
/// sentence fails.
pub fn explain(alloc: Global, text: &str, fault: BookFault) -> Result<String, AllocError>
    ensures { fault ≡ BookFault.Memory → IfOk result (λ words. string_bytes words ≡ codes "there is no memory for it") }
{
    if fault == BookFault::Memory {
        return String::from_str(alloc, "there is no memory for it");
    }
    match toml::table_from_str(alloc, text) {
        Ok(table) => of_table(alloc, &table, fault),
        Err(error) => syntax(alloc, text, &error),
    }
}

/// Explains what is wrong with a table that has this fault.
fn of_table(alloc: Global, table: &Table, fault: BookFault) -> Result<String, AllocError> {
    let found = match fault {
        BookFault::Shape => shape(alloc, table)?,
        BookFault::Range => range(alloc, table)?,
        BookFault::Twice => twice(alloc, table)?,
        BookFault::Member => member(alloc, table)?,
        BookFault::Text | BookFault::Memory => None,
    };
    match found {
        Some(words) => Ok(words),
        None => format!(in alloc; "{fault}"),
    }
}

/// Explains at which line a text stops being TOML, and why.
fn syntax(alloc: Global, text: &str, error: &toml::de::Error) -> Result<String, AllocError> {
    let why = error.message();
    match error.span() {
        Some(span) => format!(in alloc; "line {}: {why}", line_at(text, span.start)),
        None => format!(in alloc; "{why}"),
    }
}

/// The number of the line that has the byte at `start`, from 1.
fn line_at(text: &str, start: usize) -> usize {
    let mut line = 1usize;
    for byte in text.as_bytes().iter().take(start) {
        if *byte == b'\n' {
            line = line.saturating_add(1);
        }
    }
    line
}
