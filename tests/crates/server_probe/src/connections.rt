//! The connections of a hub, which have their places in the order in which they were opened.

use crate::digits::bytes_in;
use crate::plain::{close, connect, consume, feed, is_broken, number_of, pending, take_out};
use crate::split_word;
use nfs_hub::{ConnId, Hub};
use std::alloc::{Allocator, Global};
use std::test::Fail;

/// A hub and all connections that it was ever given.
#[derive(Drop)]
pub struct Hall<A: Allocator + Copy> {
    pub hub: Hub<A>,
    conns: Vec<ConnId>,
}

impl<A: Allocator + Copy> Hall<A> {
    pub fn new(alloc: Global, hub: Hub<A>) -> Self {
        Hall {
            hub,
            conns: Vec::new(alloc),
        }
    }
}

/// `connect`: the number of the fault, or 0.
fn open<A: Allocator + Copy>(alloc: Global, hall: &mut Hall<A>) -> Result<String, Fail> {
    let opened = connect(&mut hall.hub);
    if let Ok(conn) = opened {
        hall.conns.push(conn)?;
    }
    Ok(format!(in alloc; "{}", number_of(opened))?)
}

/// `send PLACE SECOND BYTES`: the number of the fault, or 0.
fn send<A: Allocator + Copy>(
    alloc: Global,
    hub: &mut Hub<A>,
    conn: ConnId,
    rest: &str,
) -> Result<String, Fail> {
    let (second, digits) = split_word(rest);
    let bytes = bytes_in(alloc, digits)?;
    let fault = number_of(feed(hub, conn, &bytes, second.parse()?));
    Ok(format!(in alloc; "{fault}")?)
}

/// `take PLACE MOST`: the number of the fault, or 0, and at most MOST pending bytes, and at most 8,192.
fn take<A: Allocator + Copy>(
    alloc: Global,
    hub: &mut Hub<A>,
    conn: ConnId,
    rest: &str,
) -> Result<String, Fail> {
    let mut out = [0u8; 8192];
    let most = out.len().min(rest.parse()?);
    let taken = take_out(hub, conn, out.get_mut(..most).unwrap_or(&mut []));
    let bytes = out.get(..taken.unwrap_or(0)).unwrap_or(&[]);
    let digits = hex::encode(alloc, bytes)?;
    Ok(format!(in alloc; "{} {digits}", number_of(taken))?)
}

/// `drop PLACE MOST`: the number of the fault, or 0, and how many pending bytes were dropped, at most MOST.
fn drop_pending<A: Allocator + Copy>(
    alloc: Global,
    hub: &mut Hub<A>,
    conn: ConnId,
    rest: &str,
) -> Result<String, Fail> {
    let dropped = consume(hub, conn, rest.parse()?);
    let count = dropped.unwrap_or(0);
    Ok(format!(in alloc; "{} {count}", number_of(dropped))?)
}

/// `exchange PLACE SECOND BYTES`: feeds bytes, then takes all pending bytes, and then feeds nothing. The answer is the
/// numbers of both faults, and the pending bytes.
fn exchange<A: Allocator + Copy>(
    alloc: Global,
    hub: &mut Hub<A>,
    conn: ConnId,
    rest: &str,
) -> Result<String, Fail> {
    let (second, digits) = split_word(rest);
    let (second, bytes) = (second.parse()?, bytes_in(alloc, digits)?);
    let fault = number_of(feed(hub, conn, &bytes, second));
    let replies = hex::encode(alloc, pending(hub, conn))?;
    let _ = consume(hub, conn, usize::MAX);
    let again = number_of(feed(hub, conn, &[], second));
    Ok(format!(in alloc; "{fault} {again} {replies}")?)
}

/// `broken PLACE`: `yes`, `no`, or `removed` after it is closed.
fn broken<A: Allocator + Copy>(alloc: Global, hub: &Hub<A>, conn: ConnId) -> Result<String, Fail> {
    let word = match is_broken(hub, conn) {
        Some(true) => "yes",
        Some(false) => "no",
        None => "gone",
    };
    Ok(String::from_str(alloc, word)?)
}

fn ask_one<A: Allocator + Copy>(
    alloc: Global,
    hub: &mut Hub<A>,
    conn: ConnId,
    (word, rest): (&str, &str),
) -> Result<String, Fail> {
    match word {
        "send" => send(alloc, hub, conn, rest),
        "take" => take(alloc, hub, conn, rest),
        "drop" => drop_pending(alloc, hub, conn, rest),
        "exchange" => exchange(alloc, hub, conn, rest),
        "close" => Ok(format!(in alloc; "{}", number_of(close(hub, conn)))?),
        _ => broken(alloc, hub, conn),
    }
}

/// Whether a line is about a connection.
pub fn is_of_one(word: &str) -> bool {
    matches!(
        word,
        "connect" | "send" | "take" | "drop" | "exchange" | "close" | "broken"
    )
}

/// Does what a line about a connection requests. The answer is `none` for a place that never had a connection.
pub fn ask_connection<A: Allocator + Copy>(
    alloc: Global,
    hall: &mut Hall<A>,
    word: &str,
    words: &str,
) -> Result<String, Fail> {
    if word == "connect" {
        return open(alloc, hall);
    }
    let (place, rest) = split_word(words);
    let place: usize = place.parse()?;
    match hall.conns.get(place).copied() {
        Some(conn) => ask_one(alloc, &mut hall.hub, conn, (word, rest)),
        None => Ok(String::from_str(alloc, "none")?),
    }
}
