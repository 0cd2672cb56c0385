//! The text of a fault.
ghost use Rattle.std.specs.Prelude.{◌≡◌, ◌+◌, ◌≤◌, [], ◌++◌, length, decimal};
ghost use Rattle.nfs_types.specs.Status.{name_of};
ghost use Rattle.nfs_client.specs.FaultTexts.{operation_text, fault_text, refused_text, failed_text};

use crate::fault::ToolFault;
use itoa::Buffer;
use nfs_ops::operation_name;
use nfs_types::Status;
use std::marker::Model;

/// The most bytes of the text of a fault.
const MOST_TEXT: usize = 64;

/// The text of a fault: at most 64 bytes of ASCII, without a newline.
#[derive(Drop)]
pub struct FaultText {
    bytes: [u8; MOST_TEXT],
    len: usize,
}

impl Model for FaultText {
    ghost use Rattle.std.specs.Prelude.{List, ℕ, take, ◌≤◌};

    ghost Value = { List ℕ };

    ghost view = { λ t. take t.len t.bytes };

    ghost invariant = { λ t. t.len ≤ 64 };
}

impl FaultText {
    fn new() -> Self
        ensures { result ≡ [] }
    {
        FaultText {
            bytes: [0; MOST_TEXT],
            len: 0,
        }
    }

    /// The bytes of the text.
    pub fn as_bytes(&self) -> &[u8]
        ensures { result.now ≡ self.now }
    {
        &self.bytes[..self.len]
    }

    fn push(&mut self, piece: &[u8])
        requires { length self.old + length piece.now ≤ MOST_TEXT }
        ensures { self.new ≡ self.old ++ piece.now }
    {
        let end = self.len + piece.len();
        self.bytes[self.len..end].copy_from_slice(piece);
        self.len = end;
    }

    fn push_number(&mut self, number: u32)
        requires { length self.old + 20 ≤ MOST_TEXT }
        ensures text { self.new ≡ self.old ++ decimal number }
        ensures few { length self.new ≤ length self.old + 20 }
    {
        let mut buffer = Buffer::new();
        self.push(buffer.format(number).as_bytes());
    }

    /// Appends the name of the operation of a number, or the number if this server has no operation of it.
    fn push_operation(&mut self, op: u32)
        requires { length self.old + 20 ≤ MOST_TEXT }
        ensures text { self.new ≡ self.old ++ operation_text op }
        ensures few { length self.new ≤ length self.old + 20 }
    {
        match operation_name(op) {
            Some(name) => self.push(name),
            None => self.push_number(op),
        }
    }
}

/// The name of a status, of at most 20 bytes.
fn status_name(status: Status) -> &'static [u8]
    ensures name { result.now ≡ name_of status }
    ensures short { length result.now ≤ 20 }
{
    status.name().as_bytes()
}

fn refused_text(op: u32, status: Status) -> FaultText
    ensures { result ≡ refused_text op status }
{
    let mut text = FaultText::new();
    text.push(b"refused ");
    text.push_operation(op);
    text.push(b" ");
    text.push(status_name(status));
    text
}

fn failed_text(number: u32) -> FaultText
    ensures { result ≡ failed_text number }
{
    let mut text = FaultText::new();
    text.push(b"failed ");
    text.push_number(number);
    text
}

impl ToolFault {
    /// The text that a program prints: `refused OP STATUS` by the names of both, as in `refused READ ACCESS`. For any
    /// other fault it is `failed N` with its number. It allocates no memory.
    pub fn text(self) -> FaultText
        ensures { result ≡ fault_text self }
    {
        match self {
            ToolFault::Refused(op, status) => refused_text(op, status),
            _ => failed_text(self.number()),
        }
    }
}
