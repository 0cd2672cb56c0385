//! The text of an access control entry (ACE), with its principal as text.
ghost use Rattle.std.specs.Prelude.{◌≡◌, ◌≤◌, ◌+◌, [], ◌∷◌, ◌++◌, length, take, OnOk, OnErr, MatchResult, Ok, Err};
ghost use Rattle.std.specs.Int.{w32, to_be_bytes};
ghost use Rattle.hex.specs.Hex.{decode_sized, encode_lower};
ghost use Rattle.acl_words.specs.Fields.{split_at_last};
ghost use Rattle.acl_words.specs.WordViews.{entry_words};
ghost use Rattle.acl_words.specs.Words as specs;

use crate::field::Field;
use crate::fields::{split_at, split_at_last};
use crate::letters::{push_flags, push_permissions, read_flags, read_permissions};
use crate::text::Text;
use acl_list::{EntryKind, Kind, mask};
use hex::{decode_to_slice, encode_to_slice};
use std::alloc::{AllocError, Allocator};

/// An ACE of an access control list with its principal as text.
///
/// The text of an ACE is `TYPE:FLAGS:PRINCIPAL:PERMISSIONS` in the letters of nfs4_setfacl and nfs4_getfacl, as in
/// `A:fdi:alice@lab.example:rxtncy`. In the hexadecimal form it is `TYPE:FLAGS:MASK:PRINCIPAL`, as in
/// `A:0b:001200a9:alice@lab.example`.
#[derive(Clone, Copy, Debug)]
pub struct Words<'a> {
    /// The type of the ACE.
    pub kind: EntryKind,
    /// The flags of the ACE: bits of [`acl_list::flag`].
    pub flags: u8,
    /// The mask of the ACE: bits of [`acl_list::mask`].
    pub mask: u32,
    /// The principal of the ACE.
    pub who: &'a [u8],
}

/// The type of a letter.
fn kind_at(byte: u8) -> Option<EntryKind>
    ensures { result ≡ specs.kind_at byte }
{
    match byte {
        b'A' => Some(EntryKind::Allow),
        b'D' => Some(EntryKind::Deny),
        b'U' => Some(EntryKind::Audit),
        b'L' => Some(EntryKind::Alarm),
        _ => None,
    }
}

/// The type of a text of one letter.
fn kind_in(text: &[u8]) -> Option<EntryKind>
    ensures { result ≡ specs.kind_in text.now }
{
    match text {
        [byte] => kind_at(*byte),
        _ => None,
    }
}

/// The letter of a type.
fn letter_of(kind: EntryKind) -> u8
    ensures { result ≡ specs.letter_of kind }
{
    match kind {
        EntryKind::Allow => b'A',
        EntryKind::Deny => b'D',
        EntryKind::Audit => b'U',
        EntryKind::Alarm => b'L',
    }
}

/// The byte that two hexadecimal digits encode.
fn byte_in(text: &[u8]) -> Option<u8>
    ensures { result ≡ specs.byte_in (decode_sized text.now 1) }
{
    let mut bytes = [0; 1];
    match decode_to_slice(text, &mut bytes) {
        Ok(()) => Some(bytes[0]),
        Err(_) => None,
    }
}

/// The number that eight hexadecimal digits encode.
fn word_in(text: &[u8]) -> Option<u32>
    ensures { result ≡ specs.word_in (decode_sized text.now 4) }
{
    let mut bytes = [0; 4];
    match decode_to_slice(text, &mut bytes) {
        Ok(()) => Some(u32::from_be_bytes(bytes)),
        Err(_) => None,
    }
}

/// The flags and the mask, if the flags are two hexadecimal digits and the mask eight.
#[tactic(auto, unfolding(crate::specs::Words::numbers_in))]
fn numbers_in(flags: &[u8], mask: &[u8]) -> Option<(u8, u32)>
    ensures { result ≡ specs.numbers_in flags.now mask.now }
{
    let flags = byte_in(flags)?;
    let mask = word_in(mask)?;
    Some((flags, mask))
}

/// The ACE with flags, principal and permissions in letters.
fn lettered<'a>(
    object: Kind,
    kind: EntryKind,
    flags: &[u8],
    rest: &'a [u8],
) -> Result<Words<'a>, Field>
    ensures { MatchResult result
        (λ w. specs.lettered object kind flags.now (split_at_last 58 rest.now) ≡ Ok (entry_words w))
        (λ fault. specs.lettered object kind flags.now (split_at_last 58 rest.now) ≡ Err fault) }
{
    let Some((who, permissions)) = split_at_last(rest, b':') else {
        return Err(Field::Form);
    };
    let Some(flags) = read_flags(flags) else {
        return Err(Field::Flags);
    };
    let Some(mask) = read_permissions(object, permissions) else {
        return Err(Field::Permissions);
    };
    Ok(Words {
        kind,
        flags,
        mask,
        who,
    })
}

impl<'a> Words<'a> {
    /// Reads an ACE, for an object of this type: on a directory, the alias `W` includes `D`.
    ///
    /// An ACE is in the hexadecimal form if its second field is two hexadecimal digits and its third eight. Else it is
    /// in letters. In letters the principal ends at the last colon. In the hexadecimal form it is everything after the
    /// third. `Err` has the first field that can't be read; any principal is accepted.
    #[tactic(auto, unfolding(crate::specs::Words::entry_words_in))]
    pub fn read(object: Kind, text: &'a [u8]) -> Result<Self, Field>
        ensures { MatchResult result (λ w. specs.entry_words_in object text.now ≡ Ok (entry_words w))
            (λ fault. specs.entry_words_in object text.now ≡ Err fault) }
    {
        let Some((kind, rest)) = split_at(text, b':') else {
            return Err(Field::Form);
        };
        let Some((flags, rest)) = split_at(rest, b':') else {
            return Err(Field::Form);
        };
        let Some((mask, who)) = split_at(rest, b':') else {
            return Err(Field::Form);
        };
        let Some(kind) = kind_in(kind) else {
            return Err(Field::EntryType);
        };
        match numbers_in(flags, mask) {
            Some((flags, mask)) => Ok(Words {
                kind,
                flags,
                mask,
                who,
            }),
            None => lettered(object, kind, flags, rest),
        }
    }

    /// Whether letters express the ACE: each bit of the mask has a text, and the text isn't one of the hexadecimal
    /// form.
    #[tactic(auto, unfolding(crate::specs::Words::is_lettered))]
    fn is_lettered(&self) -> bool
        ensures { result ≡ specs.is_lettered (entry_words self.now) }
    {
        let mut flags = Text::new();
        push_flags(&mut flags, u32::from(self.flags));
        let numbers = numbers_in(flags.as_bytes(), third_field(self.who));
        self.mask & mask::DEFINED == self.mask && numbers.is_none()
    }

    /// Appends the part before the principal: at most 14 bytes.
    fn push_prefix(&self, text: &mut Text, letters: bool)
        requires room { length text.old ≤ 242 }
        requires letters { letters ≡ specs.is_lettered (entry_words self.now) }
        ensures text { text.new ≡ text.old ++ specs.prefix_text (entry_words self.now) }
        ensures few { length text.new ≤ length text.old + 14 }
    {
        if letters {
            self.push_letters_prefix(text);
        } else {
            self.push_numbers_prefix(text);
        }
    }

    fn push_letters_prefix(&self, text: &mut Text)
        requires { length text.old ≤ 242 }
        ensures text { text.new ≡ text.old ++ specs.letters_prefix (entry_words self.now) }
        ensures few { length text.new ≤ length text.old + 11 }
    {
        text.push(&[letter_of(self.kind), b':']);
        push_flags(text, u32::from(self.flags));
        text.push(b":");
    }

    fn push_numbers_prefix(&self, text: &mut Text)
        requires { length text.old ≤ 242 }
        ensures text { text.new ≡ text.old ++ specs.numbers_prefix (entry_words self.now) }
        ensures few { length text.new ≤ length text.old + 14 }
    {
        text.push(&[letter_of(self.kind), b':']);
        text.push(&flag_digits(self.flags));
        text.push(b":");
        text.push(&mask_digits(self.mask));
        text.push(b":");
    }

    /// Appends the part after the principal: at most 23 bytes.
    fn push_back(&self, text: &mut Text, letters: bool)
        requires room { length text.old ≤ 233 }
        requires letters { letters ≡ specs.is_lettered (entry_words self.now) }
        ensures text { text.new ≡ text.old ++ specs.back_text (entry_words self.now) }
        ensures few { length text.new ≤ length text.old + 23 }
    {
        if letters {
            text.push(b":");
            push_permissions(text, self.mask);
        }
    }

    /// The text of an ACE whose principal has at most 193 bytes. The function allocates nothing.
    pub(crate) fn to_text(&self) -> Text
        requires { length self.now.who.now ≤ 193 }
        ensures { result ≡ specs.entry_words_text (entry_words self.now) }
    {
        let letters = self.is_lettered();
        let mut text = Text::new();
        self.push_prefix(&mut text, letters);
        text.push(self.who);
        self.push_back(&mut text, letters);
        text
    }

    /// Appends the text of the ACE: in letters if they express it, else in the hexadecimal form. The text is read as
    /// this ACE: [`crate::words_are_read_again`]. `Err`: the allocation fails, and nothing is appended.
    pub fn put<A: Allocator>(&self, out: &mut Vec<u8, A>) -> Result<(), AllocError>
        ensures ok { OnOk result (out.new.items ≡ out.old.items ++ specs.entry_words_text (entry_words self.now)) }
        ensures err { OnErr result (out.new.items ≡ out.old.items) }
    {
        let before = out.len();
        let put = self.append(out);
        if put.is_err() {
            out.truncate(before);
        }
        put
    }

    /// Appends the text of the ACE, or a prefix of it if an allocation fails.
    fn append<A: Allocator>(&self, out: &mut Vec<u8, A>) -> Result<(), AllocError>
        ensures ok { OnOk result (out.new.items ≡ out.old.items ++ specs.entry_words_text (entry_words self.now)) }
        ensures kept { take (length out.old.items) out.new.items ≡ out.old.items }
    {
        let letters = self.is_lettered();
        let mut prefix = Text::new();
        self.push_prefix(&mut prefix, letters);
        let mut back = Text::new();
        self.push_back(&mut back, letters);
        out.extend_from_slice(prefix.as_bytes())?;
        out.extend_from_slice(self.who)?;
        out.extend_from_slice(back.as_bytes())?;
        Ok(())
    }
}

/// The third field in letters.
fn third_field(who: &[u8]) -> &[u8]
    ensures { result.now ≡ specs.third_field who.now }
{
    match split_at(who, b':') {
        Some((prefix, _)) => prefix,
        None => who,
    }
}

/// Two hexadecimal digits.
fn flag_digits(flags: u8) -> [u8; 2]
    ensures { result ≡ encode_lower (flags ∷ []) }
{
    let mut digits = [0; 2];
    let _ = encode_to_slice(&[flags][..], &mut digits);
    digits
}

/// Eight hexadecimal digits.
fn mask_digits(mask: u32) -> [u8; 8]
    ensures { result ≡ encode_lower (to_be_bytes w32 mask) }
{
    let mut digits = [0; 8];
    let _ = encode_to_slice(mask.to_be_bytes(), &mut digits);
    digits
}
