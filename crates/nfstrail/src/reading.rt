//! Reading a line of a trail's file. A text is read as a value only if it is the text of that value, to the byte.
ghost use Rattle.std.specs.Prelude.{◌≡◌, IfSome, Some, codes};
ghost use Rattle.std.specs.Bool.{OnTrue};
ghost use Rattle.nfstrail.specs.Reading.{IsTextOf, notice_text};
ghost use Rattle.nfstrail.specs.declared.notice.Notice.TheVariants.{Start, Lost, Kept};

use crate::fields::{LOST, line_in, lost_in};
use crate::moment::{MOMENT, read_moment};
use crate::notice::{Notice, Stamped};
use access_guard::{Line, write_line};
use itoa::Buffer;
use std::str;

/// Whether a text is that of `count` missing lines.
fn is_lost(count: u64, text: &[u8]) -> bool
    ensures { OnTrue result (notice_text (Lost count) ≡ text.now) }
{
    match text.strip_prefix(LOST.as_bytes()) {
        Some(digits) => digits == Buffer::new().format(count).as_bytes(),
        None => false,
    }
}

/// The number of missing lines that a text represents.
fn read_lost(text: &[u8]) -> Option<u64>
    ensures { IfSome result (λ count. notice_text (Lost count) ≡ text.now) }
{
    let count = lost_in(str::from_utf8(text).ok()?)?;
    if is_lost(count, text) {
        Some(count)
    } else {
        None
    }
}

/// The line of the trail that a text represents.
fn read_kept(text: &[u8]) -> Option<Line>
    ensures { IfSome result (λ line. notice_text (Kept line) ≡ text.now) }
{
    let line = line_in(str::from_utf8(text).ok()?)?;
    if write_line(&line).as_bytes() == text {
        Some(line)
    } else {
        None
    }
}

/// The notice of a text. `None`: it isn't the text of a notice of a trail's file.
pub(crate) fn read_notice(text: &[u8]) -> Option<Notice>
    ensures read { IfSome result (λ notice. notice_text notice ≡ text.now) }
    ensures start { text.now ≡ codes "START" → result ≡ Some Start }
{
    if text == b"START".as_slice() {
        return Some(Notice::Start);
    }
    match read_lost(text) {
        Some(count) => Some(Notice::Lost(count)),
        None => match read_kept(text) {
            Some(line) => Some(Notice::Kept(line)),
            None => None,
        },
    }
}

/// Reads a line of the file, without its newline. `None`: it is no line of a trail's file.
pub(crate) fn read_line(text: &[u8]) -> Option<Stamped>
    ensures { IfSome result (λ stamped. IsTextOf stamped text.now) }
{
    if text.len() >= MOMENT {
        let (prefix, rest) = text.split_at(MOMENT);
        if let Some(second) = read_moment(prefix) {
            let notice = read_notice(rest)?;
            return Some(Stamped {
                second: Some(second),
                notice,
            });
        }
    }
    let notice = read_notice(text)?;
    Some(Stamped {
        second: None,
        notice,
    })
}
