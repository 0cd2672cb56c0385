//! A server or a hub that answers lines.

use crate::calls::{Site, run_call};
use crate::connections::{Hall, ask_connection, is_of_one};
use crate::digits::bytes_in;
use crate::looks::look;
use crate::plain::reload;
use crate::servers::{book_of, reload as reload_server};
use crate::serving::serve_stream;
use crate::split_word;
use crate::streams::feed_stream;
use compound_run::{MAX_RESULTS, Server};
use nfs_hub::Hub;
use std::alloc::{AllocError, Allocator, Global};
use std::test::Fail;
use who_book::Book;
use xdr_wire::Writer;

/// A borrowed server or hub that answers lines.
#[derive(Drop)]
pub enum Kind<'a, A: Allocator + Copy> {
    Server(&'a mut Site<A>),
    Hub(&'a mut Hall<A>),
}

/// A server or a hub, the allocator of its memory, and the memory that is withheld from it.
#[derive(Drop)]
pub struct House<'a, A: Allocator + Copy> {
    pub kind: Kind<'a, A>,
    pub memory: A,
    pub withheld: &'a mut Vec<Vec<u8, A>>,
}

/// A writer with room for the results of a call.
pub fn results_writer<A: Allocator + Copy>(alloc: A) -> Result<Writer<A>, AllocError> {
    Writer::new(alloc, MAX_RESULTS)
}

/// The book whose text these hexadecimal digits are; without digits, one without names.
pub fn book_in(alloc: Global, digits: &str) -> Result<Book, Fail> {
    let text = String::from_utf8(bytes_in(alloc, digits)?)?;
    book_of(alloc, text.as_str())
}

/// The text for loading a book, by whether it is loaded.
fn loaded(alloc: Global, is_loaded: bool) -> Result<String, Fail> {
    if is_loaded {
        return Ok(String::from_str(alloc, "ok")?);
    }
    Err(Fail::new("no epoch"))
}

/// `load BOOK`: a server loads this book.
fn load_on_server<A: Allocator + Copy>(
    alloc: Global,
    server: &mut Server<A>,
    digits: &str,
) -> Result<String, Fail> {
    let book = book_in(alloc, digits)?;
    loaded(alloc, reload_server(server, book))
}

/// `load BOOK`, of a hub.
fn load_on_hub<A: Allocator + Copy>(
    alloc: Global,
    hub: &mut Hub<A>,
    digits: &str,
) -> Result<String, Fail> {
    let book = book_in(alloc, digits)?;
    loaded(alloc, reload(hub, book))
}

fn ask_server<A: Allocator + Copy>(
    alloc: Global,
    site: &mut Site<A>,
    line: &str,
) -> Result<String, Fail> {
    let (word, rest) = split_word(line);
    match word {
        "call" => run_call(alloc, site, false, rest),
        "session" => run_call(alloc, site, true, rest),
        "load" => load_on_server(alloc, &mut site.server, rest),
        _ => look(alloc, &site.server, word, rest),
    }
}

fn ask_hub<A: Allocator + Copy>(
    alloc: Global,
    hall: &mut Hall<A>,
    line: &str,
) -> Result<String, Fail> {
    let (word, rest) = split_word(line);
    if is_of_one(word) {
        return ask_connection(alloc, hall, word, rest);
    }
    match word {
        "feed" => feed_stream(alloc, &mut hall.hub, rest),
        "serve" => serve_stream(alloc, &mut hall.hub, rest),
        "load" => load_on_hub(alloc, &mut hall.hub, rest),
        _ => look(alloc, hall.hub.server(), word, rest),
    }
}

/// Takes memory in chunks of a size, until there is none left.
fn withhold<A: Allocator + Copy>(
    memory: A,
    withheld: &mut Vec<Vec<u8, A>>,
    size: usize,
) -> Result<(), Fail> {
    for _ in 0..16_384u32 {
        let Ok(chunk) = Vec::with_capacity(memory, size) else {
            return Ok(());
        };
        withheld.push(chunk)?;
    }
    Err(Fail::new("too much memory"))
}

/// `withhold SIZE`: all memory is taken, in chunks of this size and then of one byte. `give COUNT`: the last chunks are
/// freed, at most COUNT of them. The answer is the number of chunks that are withheld then.
fn ask_memory<A: Allocator + Copy>(
    alloc: Global,
    house: &mut House<'_, A>,
    word: &str,
    count: usize,
) -> Result<String, Fail> {
    if word == "withhold" {
        withhold(house.memory, house.withheld, count)?;
        withhold(house.memory, house.withheld, 1)?;
    } else {
        let left = house.withheld.len().saturating_sub(count);
        house.withheld.truncate(left);
    }
    Ok(format!(in alloc; "{}", house.withheld.len())?)
}

/// The answer to a line.
pub fn ask<A: Allocator + Copy>(
    alloc: Global,
    house: &mut House<'_, A>,
    line: &str,
) -> Result<String, Fail> {
    let (word, rest) = split_word(line);
    if matches!(word, "withhold" | "give") {
        return ask_memory(alloc, house, word, rest.parse()?);
    }
    match &mut house.kind {
        Kind::Server(site) => ask_server(alloc, site, line),
        Kind::Hub(hall) => ask_hub(alloc, hall, line),
    }
}
