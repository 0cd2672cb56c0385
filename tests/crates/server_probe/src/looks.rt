//! The state of a server.

use crate::pictures::{list_text, trail_text, tree_text};
use compound_run::Server;
use std::alloc::{Allocator, Global};
use std::test::Fail;

/// Appends the first 64 bytes of an object.
fn put_bytes<A: Allocator + Copy>(
    text: &mut Vec<u8>,
    server: &Server<A>,
    number: u64,
) -> Result<(), Fail> {
    let mut bytes = [0u8; 64];
    let count = server.tree().read(number, 0, &mut bytes);
    text.extend_from_slice(bytes.get(..count).unwrap_or(&[]))?;
    Ok(())
}

/// `bytes NUMBER`: the first 64 bytes of an object.
fn bytes_of<A: Allocator + Copy>(
    alloc: Global,
    server: &Server<A>,
    number: u64,
) -> Result<Vec<u8>, Fail> {
    let mut bytes = Vec::new(alloc);
    put_bytes(&mut bytes, server, number)?;
    Ok(bytes)
}

/// Appends the ACL (access control list) and the bytes of an object.
fn put_object<A: Allocator + Copy>(
    alloc: Global,
    text: &mut Vec<u8>,
    server: &Server<A>,
    number: u64,
) -> Result<(), Fail> {
    let list = list_text(alloc, server.tree(), number)?;
    text.extend_from_slice(&list)?;
    put_bytes(text, server, number)
}

/// Appends how many lines were written to the trail, and how many files are open.
fn put_counts<A: Allocator + Copy>(
    alloc: Global,
    text: &mut Vec<u8>,
    server: &Server<A>,
) -> Result<(), Fail> {
    let (total, opens) = (server.guard().total(), server.opens().len());
    let counts = format!(in alloc; "{total} {opens}")?;
    text.extend_from_slice(counts.as_bytes())?;
    Ok(())
}

/// Appends the ACLs and the bytes of the objects below a limit, the trail and the counts.
fn put_rest<A: Allocator + Copy>(
    alloc: Global,
    text: &mut Vec<u8>,
    server: &Server<A>,
    limit: u64,
) -> Result<(), Fail> {
    for number in 1..limit {
        put_object(alloc, text, server, number)?;
    }
    let trail = trail_text(alloc, server.guard())?;
    text.extend_from_slice(&trail)?;
    put_counts(alloc, text, server)
}

/// `picture LIMIT`: the objects below a limit and their names with cookies below it, their ACLs and bytes, the trail,
/// and how many lines and open files there are.
fn picture_of<A: Allocator + Copy>(
    alloc: Global,
    server: &Server<A>,
    limit: u64,
) -> Result<Vec<u8>, Fail> {
    let mut text = tree_text(alloc, server.tree(), limit)?;
    put_rest(alloc, &mut text, server, limit)?;
    Ok(text)
}

/// `tree LIMIT`, `list NUMBER`, `trail`, `bytes NUMBER`, `picture LIMIT`.
fn picture<A: Allocator + Copy>(
    alloc: Global,
    server: &Server<A>,
    word: &str,
    rest: &str,
) -> Result<Vec<u8>, Fail> {
    match word {
        "tree" => Ok(tree_text(alloc, server.tree(), rest.parse()?)?),
        "list" => Ok(list_text(alloc, server.tree(), rest.parse()?)?),
        "trail" => Ok(trail_text(alloc, server.guard())?),
        "bytes" => bytes_of(alloc, server, rest.parse()?),
        "picture" => picture_of(alloc, server, rest.parse()?),
        _ => Err(Fail::new(format_args!("no such word: {word}"))),
    }
}

/// `counts`: the lines that were written to the trail, the ACEs that were examined, and the tick and the stamp that the
/// tree gives next.
fn counts<A: Allocator + Copy>(alloc: Global, server: &Server<A>) -> Result<String, Fail> {
    let (total, examined) = (server.guard().total(), server.guard().examined());
    let (tick, stamp) = (server.tree().next_tick(), server.tree().next_stamp());
    Ok(format!(in alloc; "{total} {examined} {tick} {stamp}")?)
}

fn put_number(alloc: Global, text: &mut String, number: u64) -> Result<(), Fail> {
    let words = format!(in alloc; " {number}")?;
    text.push_str(words.as_str())?;
    Ok(())
}

/// `opens`: how many files are open, and the number of each.
fn opens<A: Allocator + Copy>(alloc: Global, server: &Server<A>) -> Result<String, Fail> {
    let mut text = format!(in alloc; "{}", server.opens().len())?;
    for open in server.opens() {
        put_number(alloc, &mut text, open.number)?;
    }
    Ok(text)
}

/// Answers a line about a server's state. Pictures are hexadecimal digits.
pub fn look<A: Allocator + Copy>(
    alloc: Global,
    server: &Server<A>,
    word: &str,
    rest: &str,
) -> Result<String, Fail> {
    match word {
        "counts" => counts(alloc, server),
        "opens" => opens(alloc, server),
        _ => Ok(hex::encode(alloc, picture(alloc, server, word, rest)?)?),
    }
}
