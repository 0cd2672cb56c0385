//! A scene: a client over a stream in memory, and its commands one after the other.

use crate::methods::{answer, end, ls_zero, put_method, replace};
use crate::outcomes::{put_answer, put_done, put_given};
use crate::played::{Lent, Played, Player};
use nfs_client::{Client, Command, ToolFault};
use std::alloc::{AllocError, Global};
use std::test::Fail;

/// The first line of a text, and those after it.
fn split_line(text: &str) -> (&str, &str) {
    text.split_once('\n').unwrap_or((text, ""))
}

/// The first word of a line, and the rest of it.
fn split_word(line: &str) -> (&str, &str) {
    line.split_once(' ').unwrap_or((line, ""))
}

/// The bytes of hexadecimal digits; none for `any`.
fn bytes_of(alloc: Global, digits: &str) -> Result<Vec<u8>, Fail> {
    if digits == "any" {
        return Ok(Vec::new(alloc));
    }
    Ok(hex::decode(alloc, digits.as_bytes())?)
}

/// The words of a line; `""` is the empty word.
fn words_of(alloc: Global, line: &str) -> Result<Vec<&[u8]>, AllocError> {
    let mut words = Vec::new(alloc);
    for word in line.split(' ') {
        words.push(if word == "\"\"" { b"" } else { word.as_bytes() })?;
    }
    Ok(words)
}

/// Appends the outcome of a line: of the command of these words, of a listing with zero bytes, of a text that replaces
/// a file's bytes, or of the end of the session and the client.
fn put_outcome(
    out: &mut String,
    client: &mut Player<'_, '_>,
    word: &str,
    words: &[&[u8]],
) -> Result<(), Fail> {
    match (word, words, Command::read(words)) {
        ("run", _, Some(command)) => put_answer(out, answer(client, command)),
        ("do", _, Some(command)) => put_method(out, client, command),
        ("zero", [path], None) => put_given(out, ls_zero(client, path)),
        ("replace", [path, text], None) => put_done(out, replace(client, path, text)),
        ("leave", _, None) => put_done(out, end(client)),
        _ => Err(Fail::new(format_args!("no such line: {word}"))),
    }
}

/// Runs the command of a line.
fn run_line(out: &mut String, client: &mut Player<'_, '_>, line: &str) -> Result<(), Fail> {
    let (word, rest) = split_word(line);
    let words = words_of(*out.allocator(), rest)?;
    put_outcome(out, client, word, &words)
}

/// Runs the commands of lines.
fn run_lines(out: &mut String, client: &mut Player<'_, '_>, lines: &str) -> Result<(), Fail> {
    for line in lines.lines() {
        run_line(out, client, line)?;
    }
    Ok(())
}

/// A client with this client ID that continues a session, with sequence ID 1. The session ID has 16 bytes, of which the
/// last is given.
fn resumed<'a, 'b>(alloc: Global, lent: Lent<'a, 'b>, client: u64, session: u8) -> Player<'a, 'b> {
    let id = [0, 0, 0, 0, 0, 0, 0, 0, 0, 0, 0, 0, 0, 0, 0, session];
    Client::resume(alloc, lent, 1001, 100, client, id, 1)
}

/// `resume CLIENT SESSION`: runs commands of a client that continues a session.
fn play_resumed(
    out: &mut String,
    lent: Lent<'_, '_>,
    numbers: &str,
    lines: &str,
) -> Result<(), Fail> {
    let (client, session) = split_word(numbers);
    let mut client = resumed(*out.allocator(), lent, client.parse()?, session.parse()?);
    run_lines(out, &mut client, lines)
}

fn open<'a, 'b>(
    alloc: Global,
    lent: Lent<'a, 'b>,
    verifier: [u8; 8],
) -> Result<Player<'a, 'b>, ToolFault> {
    Client::open(alloc, lent, 1001, 100, b"nfsc", verifier)
}

/// `open VERIFIER`: appends the outcome of opening a session by this verifier. If it is open, runs commands.
fn play_opened(
    out: &mut String,
    lent: Lent<'_, '_>,
    verifier: &str,
    lines: &str,
) -> Result<(), Fail> {
    let verifier = u64::from_str_radix(verifier, 16)?.to_be_bytes();
    match open(*out.allocator(), lent, verifier) {
        Ok(mut client) => {
            put_done(out, Ok(()))?;
            run_lines(out, &mut client, lines)
        }
        Err(fault) => put_done(out, Err(fault)),
    }
}

/// Plays a scene over a stream: its first line states how the client begins.
fn play_over(
    out: &mut String,
    played: &mut Played<'_>,
    begin: &str,
    lines: &str,
) -> Result<(), Fail> {
    let lent = Lent { played };
    match split_word(begin) {
        ("open", verifier) => play_opened(out, lent, verifier, lines),
        (_, numbers) => play_resumed(out, lent, numbers, lines),
    }
}

/// Appends how many bytes of the calls weren't written, and how many of the replies weren't read.
fn put_left(out: &mut String, played: &Played<'_>) -> Result<(), Fail> {
    let (alloc, calls, replies) = (*out.allocator(), played.wants.len(), played.gives.len());
    let line = format!(in alloc; "left {calls} {replies}\n")?;
    out.push_str(line.as_str())?;
    Ok(())
}

fn play_stream(
    out: &mut String,
    played: &mut Played<'_>,
    begin: &str,
    lines: &str,
) -> Result<(), Fail> {
    play_over(out, played, begin, lines)?;
    put_left(out, played)
}

/// The outcome of a scene: a line for each command, and one of the bytes that are left.
pub fn scene_printed(alloc: Global, scene: &str) -> Result<String, Fail> {
    let (begin, rest) = split_line(scene);
    let (takes, rest) = split_line(rest);
    let (gives, lines) = split_line(rest);
    let (takes, gives) = (split_word(takes).1, split_word(gives).1);
    let wants = bytes_of(alloc, takes)?;
    let given = bytes_of(alloc, gives)?;
    let mut out = String::new(alloc);
    let mut played = Played {
        wants: &wants,
        gives: &given,
        takes_any: takes == "any",
    };
    play_stream(&mut out, &mut played, begin, lines)?;
    Ok(out)
}
