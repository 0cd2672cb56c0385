//! Access control lists (ACLs) as text: their access control entries (ACEs) separated by commas, or `-` for the empty
//! ACL. An ACE is `TYPE:FLAGS:MASK:WHO`, or is written in letters.

ghost use Rattle.std.specs.Prelude.{◌≤◌};

use acl_list::{AclList, Entry, EntryKind, Kind, Who, flag};
use acl_words::{Text, write_entry};
use std::alloc::{AllocError, Global};
use std::str;
use who_book::Book;

/// A number in digits of this base, with at most `most` digits.
pub(crate) fn number(text: &str, radix: u32, most: usize) -> Option<u32>
    requires least { 2 ≤ radix }
    requires most { radix ≤ 36 }
{
    if text.is_empty() || text.len() > most || !text.bytes().all(|b| b.is_ascii_alphanumeric()) {
        return None;
    }
    u32::from_str_radix(text, radix).ok()
}

fn read_kind(text: &str) -> Option<EntryKind> {
    match text {
        "A" => Some(EntryKind::Allow),
        "D" => Some(EntryKind::Deny),
        "U" => Some(EntryKind::Audit),
        "L" => Some(EntryKind::Alarm),
        _ => None,
    }
}

fn read_principal(text: &str, flags: u32) -> Option<Who> {
    match text {
        "OWNER@" => Some(Who::Owner),
        "GROUP@" => Some(Who::Group),
        "EVERYONE@" => Some(Who::Everyone),
        _ => {
            let id = number(text, 10, 10)?;
            if flags & flag::IDENTIFIER_GROUP == 0 {
                Some(Who::User(id))
            } else {
                Some(Who::GroupOf(id))
            }
        }
    }
}

fn read_entry(text: &str) -> Option<Entry> {
    let (kind, rest) = text.split_once(':')?;
    let (flags, rest) = rest.split_once(':')?;
    let (mask, who) = rest.split_once(':')?;
    if flags.len() != 2 || mask.len() != 8 {
        return None;
    }
    let flags = number(flags, 16, 2)?;
    Some(Entry {
        kind: read_kind(kind)?,
        flags,
        mask: number(mask, 16, 8)?,
        who: read_principal(who, flags)?,
    })
}

fn letter(kind: EntryKind) -> char {
    match kind {
        EntryKind::Allow => 'A',
        EntryKind::Deny => 'D',
        EntryKind::Audit => 'U',
        EntryKind::Alarm => 'L',
    }
}

fn write_principal(alloc: Global, who: Who) -> Result<String, AllocError> {
    match who {
        Who::Owner => String::from_str(alloc, "OWNER@"),
        Who::Group => String::from_str(alloc, "GROUP@"),
        Who::Everyone => String::from_str(alloc, "EVERYONE@"),
        Who::User(id) | Who::GroupOf(id) => format!(in alloc; "{id}"),
    }
}

/// The text of an ACE.
fn text_of(alloc: Global, entry: &Entry) -> Result<String, AllocError> {
    let kind = letter(entry.kind);
    let who = write_principal(alloc, entry.who)?;
    let flags = entry.flags;
    let mask = entry.mask;
    format!(in alloc; "{kind}:{flags:02x}:{mask:08x}:{who}")
}

/// The text of an ACE in letters, with the lowest eight bits of its flags.
fn words_of(book: &Book, entry: &Entry) -> Text {
    let flags = u32::from((entry.flags & 0xFF) as u8);
    write_entry(book, &Entry { flags, ..*entry })
}

/// Appends the text of an ACE, which is UTF-8.
fn put_words(out: &mut String, words: &Text) -> Result<(), AllocError> {
    match str::from_utf8(words.as_bytes()) {
        Ok(words) => out.push_str(words),
        Err(_) => Ok(()),
    }
}

/// How ACEs are written and read.
#[derive(Drop)]
pub(crate) enum Form {
    /// `TYPE:FLAGS:MASK:WHO`.
    Plain,
    /// In letters, with the names of a book; either form is read.
    Words(Book),
}

impl Form {
    /// The ACE that a text encodes on an object of this type, if it encodes one.
    fn entry(&self, object: Kind, text: &str) -> Option<Entry> {
        match self {
            Form::Plain => read_entry(text),
            Form::Words(book) => acl_words::read_entry(book, object, text.as_bytes()).ok(),
        }
    }

    /// The ACL that a text encodes on an object of this type, if it encodes one.
    pub(crate) fn read(
        &self,
        alloc: Global,
        object: Kind,
        text: &str,
    ) -> Result<Option<AclList>, AllocError> {
        let mut list = AclList::new(alloc);
        if text == "-" {
            return Ok(Some(list));
        }
        for part in text.split(',') {
            let Some(entry) = self.entry(object, part) else {
                return Ok(None);
            };
            list.push(entry)?;
        }
        Ok(Some(list))
    }

    /// Appends the text of an ACE.
    fn put(&self, alloc: Global, out: &mut String, entry: &Entry) -> Result<(), AllocError> {
        match self {
            Form::Plain => out.push_str(text_of(alloc, entry)?.as_str()),
            Form::Words(book) => put_words(out, &words_of(book, entry)),
        }
    }

    /// The text of an ACL.
    pub(crate) fn write(&self, alloc: Global, list: &AclList) -> Result<String, AllocError> {
        let mut text = String::new(alloc);
        for entry in list.as_slice() {
            if !text.is_empty() {
                text.push(',')?;
            }
            self.put(alloc, &mut text, entry)?;
        }
        if text.is_empty() {
            text.push('-')?;
        }
        Ok(text)
    }
}
