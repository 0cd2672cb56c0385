//! Entries of access control lists (ACEs) as text.
ghost use Rattle.std.specs.Prelude.{◌≡◌, ◌<◌, ◌^◌, ◌≤◌, ◌++◌, ◌∷◌, [], List, ℕ, Some, None, option_map, IfSome, OnOk};
ghost use Rattle.nfs_client.specs.Digits.{hex_digit, digit_in, hex_byte, byte_in, hex_word};
ghost use Rattle.nfs_client.specs.Entries.{EntryLine, letter, kind_in, kind_at, byte_at, word_at, after_colon};
ghost use Rattle.nfs_client.specs.Entries.{entry_in, entry_head, entry_text};

use acl_list::EntryKind;
use std::alloc::{AllocError, Allocator};

/// An ACE (access control entry) as text, `TYPE:FLAGS:MASK:WHO`.
#[derive(Clone, Copy)]
pub struct EntryText<'a> {
    /// The type of the ACE.
    pub kind: EntryKind,
    /// The flags of the ACE.
    pub flags: u8,
    /// The mask of the ACE.
    pub mask: u32,
    /// The principal of the ACE, as text.
    pub who: &'a [u8],
}

/// The value of a hexadecimal digit, in either case.
fn digit(byte: u8) -> Option<u8>
    ensures value { result ≡ digit_in byte }
    ensures small { IfSome result (λ d. d < 16) }
{
    match byte {
        b'0'..=b'9' => Some(byte - b'0'),
        b'a'..=b'f' => Some(byte - b'a' + 10),
        b'A'..=b'F' => Some(byte - b'A' + 10),
        _ => None,
    }
}

/// The value of two hexadecimal digits.
fn byte(high: u8, low: u8) -> Option<u8>
    ensures { result ≡ byte_in high low }
{
    let high = digit(high)?;
    let low = digit(low)?;
    Some(16 * high + low)
}

/// Two hexadecimal digits at the start, and the rest after them.
fn byte_at(text: &[u8]) -> Option<(u8, &[u8])>
    ensures { option_map (λ x. (x.0, x.1.now)) result ≡ byte_at text.now }
{
    match text {
        [high, low, rest @ ..] => Some((byte(*high, *low)?, rest)),
        _ => None,
    }
}

/// Eight hexadecimal digits at the start, and the rest after them.
fn word_at(text: &[u8]) -> Option<(u32, &[u8])>
    ensures { option_map (λ x. (x.0, x.1.now)) result ≡ word_at text.now }
{
    let (a, rest) = byte_at(text)?;
    let (b, rest) = byte_at(rest)?;
    let (c, rest) = byte_at(rest)?;
    let (d, rest) = byte_at(rest)?;
    Some((u32::from_be_bytes([a, b, c, d]), rest))
}

/// The rest after a colon at the start.
fn after_colon(text: &[u8]) -> Option<&[u8]>
    ensures { option_map (λ rest. rest.now) result ≡ after_colon text.now }
{
    match text {
        [b':', rest @ ..] => Some(rest),
        _ => None,
    }
}

/// The type of an ACE by its letter.
fn kind(letter: u8) -> Option<EntryKind>
    ensures { result ≡ kind_in letter }
{
    match letter {
        b'A' => Some(EntryKind::Allow),
        b'D' => Some(EntryKind::Deny),
        b'U' => Some(EntryKind::Audit),
        b'L' => Some(EntryKind::Alarm),
        _ => None,
    }
}

/// The letter of an ACE's type.
fn letter(kind: EntryKind) -> u8
    ensures { result ≡ letter kind }
{
    match kind {
        EntryKind::Allow => b'A',
        EntryKind::Deny => b'D',
        EntryKind::Audit => b'U',
        EntryKind::Alarm => b'L',
    }
}

/// The type of an ACE by the letter at the start, and the rest after it.
fn kind_at(text: &[u8]) -> Option<(EntryKind, &[u8])>
    ensures { option_map (λ x. (x.0, x.1.now)) result ≡ kind_at text.now }
{
    match text {
        [letter, rest @ ..] => Some((kind(*letter)?, rest)),
        _ => None,
    }
}

/// The digit of a value below 16.
fn hex_digit(value: u8) -> u8
    requires { value < 16 }
    ensures { result ≡ hex_digit value }
{
    if value < 10 {
        b'0' + value
    } else {
        b'a' + (value - 10)
    }
}

/// Two hexadecimal digits.
fn hex_byte(value: u8) -> [u8; 2]
    ensures { result ≡ hex_byte value }
{
    [hex_digit(value / 16), hex_digit(value % 16)]
}

/// Eight hexadecimal digits.
pub(crate) fn hex_word(value: u32) -> [u8; 8]
    ensures { result ≡ hex_word value }
{
    let [a, b, c, d] = value.to_be_bytes();
    let [a, b, c, d] = [hex_byte(a), hex_byte(b), hex_byte(c), hex_byte(d)];
    [a[0], a[1], b[0], b[1], c[0], c[1], d[0], d[1]]
}

impl<'a> EntryText<'a> {
    ghost use Rattle.nfs_client.specs.EntryViews.{entry_line};

    /// The ACE of a text: a letter (A, D, U or L), two and eight hexadecimal digits in either case, and a principal.
    /// A colon precedes each but the first. The principal is all of the text after the third colon.
    pub fn read(text: &'a [u8]) -> Option<Self>
        ensures { option_map entry_line result ≡ entry_in text.entry.now }
    {
        let (kind, rest) = kind_at(text)?;
        let (flags, rest) = byte_at(after_colon(rest)?)?;
        let (mask, rest) = word_at(after_colon(rest)?)?;
        let who = after_colon(rest)?;
        Some(EntryText {
            kind,
            flags,
            mask,
            who,
        })
    }

    /// The text before the principal.
    fn head(&self) -> [u8; 14]
        ensures { result ≡ entry_head (entry_line self.now) }
    {
        let [f, g] = hex_byte(self.flags);
        let [a, b, c, d, h, i, j, k] = hex_word(self.mask);
        let kind = letter(self.kind);
        [kind, b':', f, g, b':', a, b, c, d, h, i, j, k, b':']
    }

    /// Appends the ACE as text, its digits in lower case.
    pub fn put<A: Allocator>(&self, out: &mut Vec<u8, A>) -> Result<(), AllocError>
        ensures { OnOk result (out.new.items ≡ out.old.items ++ entry_text (entry_line self.now)) }
    {
        out.extend_from_slice(&self.head())?;
        out.extend_from_slice(self.who)
    }
}

/// An ACE as text is read as the same ACE.
pub fn an_entry_as_text_is_read()
    ensures { (e : EntryLine) → e.flags < 256 → e.mask < 2 ^ 32 → entry_in (entry_text e) ≡ Some e }
{}
