//! The letters of flags and of permissions (nfs4_acl(5) of nfs4-acl-tools).
ghost use Rattle.std.specs.Prelude.{◌≡◌, ◌+◌, ◌≤◌, ◌<◌, ◌++◌, length, codes, IfSome, option_map};
ghost use Rattle.hex.specs.Hex.{hex_digit_value};
ghost use Rattle.acl_words.specs.Letters as specs;
ghost use Rattle.acl_words.specs.declared.letters.TheConstants.{FLAGS, PERMISSIONS};

use crate::fields::split_at;
use crate::text::Text;
use acl_list::{Kind, flag, mask};

/// A letter and its bits.
type Letter = (u8, u32);

/// The letters of the flags, in the order in which they are written.
pub(crate) const FLAGS: [Letter; 8] = [
    (b'f', flag::FILE_INHERIT),
    (b'd', flag::DIRECTORY_INHERIT),
    (b'n', flag::NO_PROPAGATE),
    (b'i', flag::INHERIT_ONLY),
    (b'S', flag::SUCCESSFUL),
    (b'F', flag::FAILED),
    (b'g', flag::IDENTIFIER_GROUP),
    (b'h', flag::INHERITED),
];

/// The letters of the permissions, in the order in which they are written.
pub(crate) const PERMISSIONS: [Letter; 14] = [
    (b'r', mask::READ_DATA),
    (b'w', mask::WRITE_DATA),
    (b'a', mask::APPEND_DATA),
    (b'D', mask::DELETE_CHILD),
    (b'd', mask::DELETE),
    (b'x', mask::EXECUTE),
    (b't', mask::READ_ATTRIBUTES),
    (b'T', mask::WRITE_ATTRIBUTES),
    (b'n', mask::READ_NAMED_ATTRS),
    (b'N', mask::WRITE_NAMED_ATTRS),
    (b'c', mask::READ_ACL),
    (b'C', mask::WRITE_ACL),
    (b'o', mask::WRITE_OWNER),
    (b'y', mask::SYNCHRONIZE),
];

/// The bits of an R: rntcy.
const GENERIC_READ: u32 = 0x0012_0089;

/// The bits of a W: watTNcCy.
const GENERIC_WRITE: u32 = 0x0016_0196;

/// The bits of an X: xtcy.
const GENERIC_EXECUTE: u32 = 0x0012_00a0;

/// The aliases, which are read and not written.
const ALIASES: [Letter; 3] = [
    (b'R', GENERIC_READ),
    (b'W', GENERIC_WRITE),
    (b'X', GENERIC_EXECUTE),
];

/// The aliases for a directory: a W includes D.
const DIRECTORY_ALIASES: [Letter; 3] = [
    (b'R', GENERIC_READ),
    (b'W', GENERIC_WRITE | mask::DELETE_CHILD),
    (b'X', GENERIC_EXECUTE),
];

fn aliases_for(object: Kind) -> &'static [Letter]
    ensures { result.now ≡ specs.aliases_for object }
{
    match object {
        Kind::Directory => &DIRECTORY_ALIASES,
        Kind::File | Kind::Link => &ALIASES,
    }
}

/// The bits of a letter.
fn bits_of(letters: &[Letter], byte: u8) -> Option<u32>
    ensures { result ≡ specs.bits_of letters.now byte }
{
    letters.iter().find(|row| row.0 == byte).map(|row| row.1)
}

/// The bits of a text of letters and aliases.
fn read_letters(letters: &[Letter], aliases: &[Letter], text: &[u8]) -> Option<u32>
    ensures { result ≡ specs.letters_after letters.now aliases.now 0 text.now }
{
    let mut bits = 0;
    for byte in text {
        bits |= bits_in(letters, aliases, *byte)?;
    }
    Some(bits)
}

/// The bits of a letter or of an alias.
fn bits_in(letters: &[Letter], aliases: &[Letter], byte: u8) -> Option<u32>
    ensures { result ≡ specs.bits_in letters.now aliases.now byte }
{
    match bits_of(letters, byte) {
        Some(bits) => Some(bits),
        None => bits_of(aliases, byte),
    }
}

/// The value of a hexadecimal digit, in either case.
fn digit(byte: u8) -> Option<u32>
    ensures value { result ≡ hex_digit_value byte }
    ensures small { IfSome result (λ digit. digit < 16) }
{
    match byte {
        b'A'..=b'F' => Some(u32::from(byte - b'A') + 10),
        b'a'..=b'f' => Some(u32::from(byte - b'a') + 10),
        b'0'..=b'9' => Some(u32::from(byte - b'0')),
        _ => None,
    }
}

/// A number with one more hexadecimal digit. `None`: the byte is no digit, or the number exceeds 32 bits.
fn number_with(number: u32, byte: u8) -> Option<u32>
    ensures { result ≡ specs.number_with number byte }
{
    let digit = digit(byte)?;
    if number < 0x1000_0000 {
        Some(16 * number + digit)
    } else {
        None
    }
}

/// `bits` with those of the numbers of a text, which are separated by a `+`.
fn read_numbers(mut bits: u32, text: &[u8]) -> Option<u32>
    ensures { result ≡ specs.numbers_after bits 0 text.now }
{
    let mut number = 0;
    for byte in text {
        if *byte == b'+' {
            if number == 0 {
                return None;
            }
            bits |= number;
            number = 0;
        } else {
            number = number_with(number, *byte)?;
        }
    }
    if number == 0 {
        None
    } else {
        Some(bits | number)
    }
}

/// The flags of a text.
pub(crate) fn read_flags(text: &[u8]) -> Option<u8>
    ensures { result ≡ specs.flags_in text.now }
{
    let flags = read_letters(&FLAGS, &[], text)?;
    Some(flags as u8)
}

/// The mask of a text, for an object of this type.
pub(crate) fn read_permissions(object: Kind, text: &[u8]) -> Option<u32>
    ensures { result ≡ specs.permissions_in object text.now }
{
    read_both(object, text, split_at(text, b'+'))
}

/// The mask of a text whose letters end at its first `+`, if it has one.
fn read_both(object: Kind, text: &[u8], parts: Option<(&[u8], &[u8])>) -> Option<u32>
    ensures { result ≡ specs.both_in object text.now (option_map (λ p. (p.0.now, p.1.now)) parts.entry) }
{
    match parts {
        None => read_rights(object, text),
        Some((prefix, rest)) => {
            let bits = read_rights(object, prefix)?;
            read_numbers(bits, rest)
        }
    }
}

/// The bits of a text of letters and aliases of permissions.

fn read_rights(object: Kind, text: &[u8]) -> Option<u32>
    ensures { result ≡ specs.rights_in object text.now }
{
    read_letters(&PERMISSIONS, aliases_for(object), text)
}

/// Appends the letters of the bits that are set.
fn push_letters(text: &mut Text, letters: &[Letter], bits: u32)
    requires { length text.old + length letters.now ≤ 256 }
    ensures text { text.new ≡ text.old ++ specs.letters_text letters.now bits }
    ensures few { length text.new ≤ length text.old + length letters.now }
{
    for row in letters {
        if bits & row.1 != 0 {
            text.push(&[row.0]);
        }
    }
}

/// Appends a piece if the bit is set.
fn push_if(text: &mut Text, bits: u32, bit: u32, piece: &[u8])
    requires { length text.old + length piece.now ≤ 256 }
    ensures text { text.new ≡ text.old ++ specs.text_if bits bit piece.now }
    ensures few { length text.new ≤ length text.old + length piece.now }
{
    if bits & bit != 0 {
        text.push(piece);
    }
}

/// Appends the letters of flags, at most 8.
pub(crate) fn push_flags(text: &mut Text, flags: u32)
    requires { length text.old ≤ 248 }
    ensures text { text.new ≡ text.old ++ specs.letters_text specs.flag_letters flags }
    ensures few { length text.new ≤ length text.old + 8 }
{
    push_letters(text, &FLAGS, flags);
}

/// Appends the letters of a mask, and `+200` and `+400`: at most 22 bytes.
pub(crate) fn push_permissions(text: &mut Text, mask: u32)
    requires { length text.old ≤ 234 }
    ensures text { text.new ≡ text.old ++ specs.permissions_text mask }
    ensures few { length text.new ≤ length text.old + 22 }
{
    push_letters(text, &PERMISSIONS, mask);
    push_if(text, mask, mask::WRITE_RETENTION, b"+200");
    push_if(text, mask, mask::WRITE_RETENTION_HOLD, b"+400");
}
