//! Access control lists (ACLs) in words.
use crate::around::Around;
use crate::fault::Fault;
use crate::judged::keeps_rights;
use crate::wish::place_in;
use acl_list::Kind;
use acl_words::Words;
use nfs_client::{Client, EntryText, ToolFault, Transport};
use std::alloc::Global;

/// The permission LOOKUP of ACCESS, which has a meaning for directories alone (RFC 8881, section
/// 18.1).
const LOOKUP: u32 = 2;

/// Access control entries (ACEs) as the client takes and returns them, each as text.
type Entries = Vec<Vec<u8>>;

/// The lines of a text.
pub(crate) fn lines_of(alloc: Global, text: &[u8]) -> Result<Entries, Fault> {
    let mut lines = Vec::new(alloc);
    for line in text.split(|byte| *byte == b'\n') {
        if !line.is_empty() {
            let mut own = Vec::new(alloc);
            own.extend_from_slice(line)?;
            lines.push(own)?;
        }
    }
    Ok(lines)
}

/// Puts the words of an ACE that is text.
fn put_words(out: &mut Vec<u8>, text: &[u8]) -> Result<(), Fault> {
    let Some(entry) = EntryText::read(text) else {
        return Err(Fault::Tool(ToolFault::Reply));
    };
    let words = Words {
        kind: entry.kind,
        flags: entry.flags,
        mask: entry.mask,
        who: entry.who,
    };
    words.put(out)?;
    out.push(b'\n')?;
    Ok(())
}

/// The text of an ACE in words.
fn text_of(alloc: Global, object: Kind, number: usize, words: &[u8]) -> Result<Vec<u8>, Fault> {
    let entry = match Words::read(object, words) {
        Ok(entry) => entry,
        Err(field) => return Err(Fault::Entry(number, field)),
    };
    let mut text = Vec::new(alloc);
    let entry = EntryText {
        kind: entry.kind,
        flags: entry.flags,
        mask: entry.mask,
        who: entry.who,
    };
    entry.put(&mut text)?;
    Ok(text)
}

/// The texts of ACEs in words, in order.
pub(crate) fn texts_of(alloc: Global, object: Kind, entries: &[&[u8]]) -> Result<Entries, Fault> {
    let mut texts = Vec::new(alloc);
    for (index, words) in entries.iter().enumerate() {
        let text = text_of(alloc, object, index.saturating_add(1), words)?;
        texts.push(text)?;
    }
    Ok(texts)
}

/// Whether the object is a directory.
pub(crate) fn is_directory<S: Transport>(
    client: &mut Client<S>,
    path: &[u8],
) -> Result<bool, Fault> {
    let rights = client.access(path)?;
    Ok(rights.supported & LOOKUP != 0)
}

/// Whether the object is a directory or another. It matters to the letter `W` alone.
fn kind_at<S: Transport>(client: &mut Client<S>, path: &[u8]) -> Result<Kind, Fault> {
    if is_directory(client, path)? {
        Ok(Kind::Directory)
    } else {
        Ok(Kind::File)
    }
}

/// Sets the ACL to ACEs as text.
pub(crate) fn set<S: Transport>(
    client: &mut Client<S>,
    alloc: Global,
    path: &[u8],
    entries: &[Vec<u8>],
) -> Result<(), Fault> {
    if entries.is_empty() {
        return Err(Fault::NoneLeft);
    }
    let lent: Vec<&[u8]> = entries.iter().map(|text| text.as_slice()).collect(alloc)?;
    client.setacl(path, lent.as_slice())?;
    Ok(())
}

/// The ACL of an object in words, one ACE a line.
pub(crate) fn get<S: Transport>(
    client: &mut Client<S>,
    alloc: Global,
    path: &[u8],
) -> Result<Vec<u8>, Fault> {
    let listed = client.getacl(path)?;
    let mut text = Vec::new(alloc);
    for line in &lines_of(alloc, listed.as_slice())? {
        put_words(&mut text, line.as_slice())?;
    }
    Ok(text)
}

/// A change of an ACL, in words.
#[derive(Clone, Copy)]
pub(crate) enum Change<'a> {
    /// Sets these ACEs.
    Set(&'a [&'a [u8]]),
    /// Inserts these ACEs before the one of this number, counted from 1; at the end for the number
    /// after the last.
    Add(usize, &'a [&'a [u8]]),
    /// Removes the ACEs of these numbers.
    Remove(&'a [&'a str]),
}

/// The ACEs of an ACL with more of them before the one of this number.
fn added(alloc: Global, old: &[Vec<u8>], place: usize, more: &[Vec<u8>]) -> Result<Entries, Fault> {
    let before = place.saturating_sub(1);
    if before > old.len() {
        return Err(Fault::NoSuch);
    }
    let mut all = Vec::new(alloc);
    for text in old[..before]
        .iter()
        .chain(more.iter())
        .chain(old[before..].iter())
    {
        all.push(text.clone()?)?;
    }
    Ok(all)
}

/// The numbers of words. `NoSuch`: one is no number, or the ACL has no ACE of this number.
fn places(alloc: Global, words: &[&str], most: usize) -> Result<Vec<usize>, Fault> {
    let mut places = Vec::new(alloc);
    for word in words {
        match place_in(word) {
            Some(place) if place <= most => places.push(place)?,
            _ => return Err(Fault::NoSuch),
        }
    }
    Ok(places)
}

/// The ACEs of an ACL without those of these numbers.
fn removed(alloc: Global, old: &[Vec<u8>], numbers: &[&str]) -> Result<Entries, Fault> {
    let past = places(alloc, numbers, old.len())?;
    let mut left = Vec::new(alloc);
    for (index, text) in old.iter().enumerate() {
        if !past.contains(&index.saturating_add(1)) {
            left.push(text.clone()?)?;
        }
    }
    Ok(left)
}

/// The ACL of an object, each ACE as text.
fn entries_of<S: Transport>(
    client: &mut Client<S>,
    alloc: Global,
    path: &[u8],
) -> Result<Entries, Fault> {
    let listed = client.getacl(path)?;
    lines_of(alloc, listed.as_slice())
}

/// The ACEs after a change.
fn changed<S: Transport>(
    client: &mut Client<S>,
    alloc: Global,
    path: &[u8],
    change: Change<'_>,
) -> Result<Entries, Fault> {
    match change {
        Change::Set(entries) => {
            let object = kind_at(client, path)?;
            texts_of(alloc, object, entries)
        }
        Change::Add(place, entries) => {
            let object = kind_at(client, path)?;
            let more = texts_of(alloc, object, entries)?;
            let old = entries_of(client, alloc, path)?;
            added(alloc, old.as_slice(), place, more.as_slice())
        }
        Change::Remove(numbers) => {
            let old = entries_of(client, alloc, path)?;
            removed(alloc, old.as_slice(), numbers)
        }
    }
}

/// Changes the ACL of an object. Unless it is forced, an ACL that leaves the caller without the
/// permission to read it and to change it again is refused.
pub(crate) fn apply<S: Transport>(
    client: &mut Client<S>,
    alloc: Global,
    around: &Around,
    path: &[u8],
    (change, is_forced): (Change<'_>, bool),
) -> Result<(), Fault> {
    let entries = changed(client, alloc, path, change)?;
    if !is_forced && !entries.is_empty() {
        keeps_rights(client, alloc, around, path, entries.as_slice())?;
    }
    set(client, alloc, path, entries.as_slice())
}
