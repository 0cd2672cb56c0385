//! The text of a line.
ghost use Rattle.std.specs.Prelude.{◌≡◌, ◌+◌, ◌≤◌, [], ◌++◌, length, codes};
ghost use Rattle.access_guard.specs.Text.{line_text, mask_text, number_text};
ghost use Rattle.access_guard.specs.Text as specs;

use crate::decision::Cause;
use crate::line::{Line, LineKind};
use hex::encode_to_slice;
use itoa::Buffer;
use nfs_ops::operation_name;
use std::marker::Model;

/// The most bytes of the text of a line.
pub const MOST_TEXT: usize = 128;

/// The text of a line: at most [`MOST_TEXT`] bytes of ASCII, without a newline.
#[derive(Drop)]
pub struct LineText {
    bytes: [u8; MOST_TEXT],
    len: usize,
}

impl Model for LineText {
    ghost use Rattle.std.specs.Prelude.{List, ℕ, take, ◌≤◌};

    ghost Value = { List ℕ };

    ghost view = { λ t. take t.len t.bytes };

    ghost invariant = { λ t. t.len ≤ 128 };
}

impl LineText {
    fn new() -> Self
        ensures { result ≡ [] }
    {
        LineText {
            bytes: [0; MOST_TEXT],
            len: 0,
        }
    }

    /// The bytes of the text.
    pub fn as_bytes(&self) -> &[u8]
        ensures bytes { result.now ≡ self.now }
        ensures short { length result.now ≤ MOST_TEXT }
    {
        &self.bytes[..self.len]
    }

    fn push(&mut self, piece: &[u8])
        requires { length self.old + length piece.now ≤ MOST_TEXT }
        ensures { self.new ≡ self.old ++ piece.now }
    {
        let end = self.len + piece.len();
        self.bytes[self.len..end].copy_from_slice(piece);
        self.len = end;
    }

    /// Appends a name and a number.
    fn push_number(&mut self, name: &[u8], number: u64)
        requires { length self.old + length name.now + 20 ≤ MOST_TEXT }
        ensures text { self.new ≡ self.old ++ number_text name.now number }
        ensures few { length self.new ≤ length self.old + length name.now + 20 }
    {
        let mut buffer = Buffer::new();
        self.push(name);
        self.push(buffer.format(number).as_bytes());
    }

    /// Appends a name and a mask.
    fn push_mask(&mut self, name: &[u8], mask: u32)
        requires { length self.old + length name.now + 8 ≤ MOST_TEXT }
        ensures text { self.new ≡ self.old ++ (name.now ++ mask_text mask) }
        ensures few { length self.new ≤ length self.old + length name.now + 8 }
    {
        let mut digits = [0; 8];
        let _ = encode_to_slice(mask.to_be_bytes(), &mut digits);
        self.push(name);
        self.push(&digits);
    }

    fn push_operation(&mut self, op: u32)
        requires { length self.old + 24 ≤ MOST_TEXT }
        ensures text { self.new ≡ self.old ++ (codes " op=" ++ specs.operation_text op) }
        ensures few { length self.new ≤ length self.old + 24 }
    {
        self.push(b" op=");
        match operation_name(op) {
            Some(name) => self.push(name),
            None => self.push_number(b"", u64::from(op)),
        }
    }

    fn push_cause(&mut self, cause: Cause)
        requires { length self.old + 27 ≤ MOST_TEXT }
        ensures text { self.new ≡ self.old ++ specs.cause_text cause }
        ensures few { length self.new ≤ length self.old + 27 }
    {
        match cause {
            Cause::ByEntry(index) => self.push_number(b" entry=", index as u64),
            Cause::Missing(bit) => self.push_mask(b" missing=", bit),
        }
    }
}

/// The text of a line, as in `DENY uid=1001 op=READ obj=2 mask=00000001 entry=3`. It allocates no memory.
///
/// The mask and a missing bit have eight hexadecimal digits, in lower case. The operation has its name, and the number
/// of an operation that this server doesn't have is in decimal digits.
///
/// An AUDIT or ALARM line has ` granted` or ` refused` before its access control entry.
pub fn write_line(line: &Line) -> LineText
    ensures text { result ≡ line_text line.now }
    ensures short { length result ≤ MOST_TEXT }
{
    let mut text = LineText::new();
    text.push(kind_name(line.kind));
    text.push_number(b" uid=", u64::from(line.uid));
    text.push_operation(line.op);
    text.push_number(b" obj=", line.object);
    text.push_mask(b" mask=", line.mask);
    text.push(end_name(line.kind, line.granted));
    text.push_cause(line.cause);
    text
}

fn kind_name(kind: LineKind) -> &'static [u8]
    ensures name { result.now ≡ specs.kind_text kind }
    ensures short { length result.now ≤ 5 }
{
    match kind {
        LineKind::Audit => b"AUDIT",
        LineKind::Alarm => b"ALARM",
        LineKind::Deny => b"DENY",
    }
}

fn end_name(kind: LineKind, granted: bool) -> &'static [u8]
    ensures name { result.now ≡ specs.end_text kind granted }
    ensures short { length result.now ≤ 8 }
{
    match kind {
        LineKind::Audit | LineKind::Alarm if granted => b" granted",
        LineKind::Audit | LineKind::Alarm => b" refused",
        LineKind::Deny => b"",
    }
}
