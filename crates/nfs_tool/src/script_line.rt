//! A line of a script.
ghost use Rattle.std.specs.Prelude.{◌≡◌, map, option_map, IfOk};
ghost use Rattle.std.specs.List.{list_all};
ghost use Rattle.std.specs.Str.{is_utf8};
ghost use Rattle.nfs_tool.specs.ScriptLines.{number_in, is_space, is_comment, is_skipped, words_in, order_in, text_in};
ghost use Rattle.nfs_tool.specs.ScriptLines.{reload_in, wish_in};
ghost use Rattle.nfs_tool.specs.ScriptViews.{order_line, wish_line};

use nfs_client::Command;
use std::alloc::{AllocError, Allocator};

const AS: &[u8] = b"as";

const RELOAD: &[u8] = b"reload";

/// A command and its caller.
#[derive(Clone, Copy)]
pub(crate) struct Order<'a> {
    pub(crate) uid: u32,
    pub(crate) gid: u32,
    pub(crate) command: Command<'a>,
}

/// The request of a line of a script.
#[derive(Clone, Copy)]
pub(crate) enum Wish<'a> {
    /// `as UID GID COMMAND ..`: a command is run.
    Run(Order<'a>),
    /// `reload FILE`: the text of this name becomes the book.
    Reload(&'a str),
}

/// The number of decimal digits; leading zeros are allowed. `None`: a byte is no digit, or the number has more than
/// 32 bits.
fn number_in(word: &[u8]) -> Option<u32>
    ensures { result ≡ number_in word.now }
{
    let mut value: u32 = 0;
    for digit in word {
        if !digit.is_ascii_digit() {
            return None;
        }
        value = value
            .checked_mul(10)?
            .checked_add(u32::from(*digit - b'0'))?;
    }
    Some(value)
}

/// Whether a line begins with `#`.
fn is_comment(line: &[u8]) -> bool
    ensures { result ≡ is_comment line.now }
{
    matches!(line, [b'#', ..])
}

/// Whether a line has nothing but spaces.
fn is_blank(line: &[u8]) -> bool
    ensures { result ≡ list_all is_space line.now }
{
    line.iter().all(|byte| *byte == b' ')
}

/// Whether a line has no request: it has nothing but spaces, or begins with `#`.
pub(crate) fn is_skipped(line: &[u8]) -> bool
    ensures { result ≡ is_skipped line.now }
{
    is_comment(line) || is_blank(line)
}

/// The words of a line, between its spaces. None of them is empty.
pub(crate) fn words_in<A: Allocator>(alloc: A, line: &[u8]) -> Result<Vec<&[u8], A>, AllocError>
    ensures { IfOk result (λ v. map (λ w. w.now) v.items ≡ words_in line.now) }
{
    line.split(|byte| *byte == b' ')
        .filter(|word| !word.is_empty())
        .collect(alloc)
}

/// Whether a text is UTF-8.
pub(crate) fn is_text(line: &[u8]) -> bool
    ensures { result ≡ is_utf8 line.now }
{
    str::from_utf8(line).is_ok()
}

/// Bytes as a text, if they are UTF-8.
fn text_in(bytes: &[u8]) -> Option<&str>
    ensures { option_map (λ t. t.now) result ≡ text_in bytes.now }
{
    str::from_utf8(bytes).ok()
}

/// The name after `reload`.
fn reload_in<'a>(words: &'a [&'a [u8]]) -> Option<&'a str>
    ensures { option_map (λ t. t.now) result ≡ reload_in (map (λ w. w.now) words.entry.now) }
{
    let [word, name] = words else {
        return None;
    };
    if *word != RELOAD {
        return None;
    }
    text_in(name)
}

impl<'a> Order<'a> {
    /// The command of words: `as`, a uid and a gid in decimal digits, and a command with its number of words.
    pub(crate) fn read(words: &'a [&'a [u8]]) -> Option<Self>
        ensures { option_map order_line result ≡ order_in (map (λ w. w.now) words.entry.now) }
    {
        let [word, uid, gid, rest @ ..] = words else {
            return None;
        };
        if *word != AS {
            return None;
        }
        let uid = number_in(uid)?;
        let gid = number_in(gid)?;
        let command = Command::read(rest)?;
        Some(Order { uid, gid, command })
    }
}

impl<'a> Wish<'a> {
    /// The request of words, if they have one.
    pub(crate) fn read(words: &'a [&'a [u8]]) -> Option<Self>
        ensures { option_map wish_line result ≡ wish_in (map (λ w. w.now) words.entry.now) }
    {
        match Order::read(words) {
            Some(order) => Some(Wish::Run(order)),
            None => reload_in(words).map(Wish::Reload),
        }
    }
}
