//! `why` and `who`: whether users have permissions, and which entries of access control lists
//! (ACLs) decide that.
use crate::about::parent_of;
use crate::fault::Fault;
use crate::judged::Judged;
use crate::names::Names;
use crate::printable::Printable;
use crate::rights::{Named, Rights};
use crate::user::Asked;
use acl_list::{Entry, EntryKind, Kind, mask};
use acl_reasons::{
    Applicability, Reason, RemovalReason, Share, applicability_of, share_of, why, why_removal,
};
use acl_words::{Text, write_entry};
use nfs_client::{Client, Transport};
use std::alloc::Global;
use who_book::Book;

/// Puts a line.
fn put(out: &mut Vec<u8>, text: &str) -> Result<(), Fault> {
    out.extend_from_slice(text.as_bytes())?;
    out.push(b'\n')?;
    Ok(())
}

/// The requested permissions that an access control entry (ACE) allows or denies, and those that
/// were decided before it.
fn doing(alloc: Global, object: Kind, kind: EntryKind, share: Share) -> Result<String, Fault> {
    let verb = match kind {
        EntryKind::Deny => "denies",
        _ => "allows",
    };
    let now = Named {
        mask: share.decided,
        object,
    };
    let before = Named {
        mask: share.before,
        object,
    };
    if now.mask != 0 && before.mask != 0 {
        Ok(format!(in alloc; "{verb} {now}; {before} is decided before")?)
    } else if now.mask != 0 {
        Ok(format!(in alloc; "{verb} {now}")?)
    } else if before.mask != 0 {
        Ok(format!(in alloc; "comes after the one that decides {before}")?)
    } else {
        Ok(format!(in alloc; "says nothing of this")?)
    }
}

/// Whether an ACE applies to a caller and what it decides, or why it doesn't apply.
fn part_of(
    alloc: Global,
    judged: &Judged,
    asked: &Asked<'_>,
    rights: u32,
    (index, entry): (usize, &Entry),
) -> Result<String, Fault> {
    match applicability_of(entry, judged.owner, judged.group, &asked.caller) {
        Applicability::Watches => Ok(format!(in alloc; "watches, and decides nothing")?),
        Applicability::InheritOnly => Ok(format!(in alloc; "is for what is made below alone")?),
        Applicability::AnotherUser => Ok(format!(in alloc; "is another user's")?),
        Applicability::NoMember => Ok(format!(in alloc; "is a group's that the user isn't in")?),
        Applicability::Applies => {
            let (owner, group) = (judged.owner, judged.group);
            let share = share_of(&judged.list, owner, group, &asked.caller, rights, index);
            doing(alloc, judged.object, entry.kind, share)
        }
    }
}

/// The words of an ACE, whose flags are those of eight bits.
fn words_of(book: &Book, entry: &Entry) -> Text {
    let flags = u32::from((entry.flags & 0xFF) as u8);
    write_entry(book, &Entry { flags, ..*entry })
}

/// Puts a line for each ACE of an ACL: its number from 1 on, its words, and its effect for a
/// caller.
fn put_entries(
    out: &mut Vec<u8>,
    alloc: Global,
    book: &Book,
    judged: &Judged,
    asked: &Asked<'_>,
    rights: u32,
) -> Result<(), Fault> {
    for (index, entry) in judged.list.as_slice().iter().enumerate() {
        let number = index.saturating_add(1);
        let words = words_of(book, entry);
        let part = part_of(alloc, judged, asked, rights, (index, entry))?;
        let text = format!(in alloc; "{number}  {}  {part}", Printable(words.as_bytes()))?;
        put(out, text.as_str())?;
    }
    Ok(())
}

/// The sentence on a verdict.
fn sentence(
    alloc: Global,
    judged: &Judged,
    asked: &Asked<'_>,
    rights: u32,
    path: &[u8],
) -> Result<String, Fault> {
    let object = judged.object;
    let (name, path) = (Printable(asked.name.as_bytes()), Printable(path));
    let all = Named {
        mask: rights,
        object,
    };
    let text = match why(
        &judged.list,
        judged.owner,
        judged.group,
        &asked.caller,
        rights,
    ) {
        Reason::Granted => format!(in alloc; "{name} is granted {all} on {path}")?,
        Reason::Denied { entry, bit } => {
            let number = entry.saturating_add(1);
            let bit = Named { mask: bit, object };
            format!(in alloc; "{name} is refused {all} on {path}: entry {number} denies {bit}")?
        }
        Reason::Missing { bit } => {
            let bit = Named { mask: bit, object };
            format!(in alloc; "{name} is refused {all} on {path}: no entry allows {bit}")?
        }
    };
    Ok(text)
}

/// The ACLs that decide a removal: that of the object, and that of its directory.
#[derive(Drop)]
struct Pair<'a> {
    parent: Judged,
    above: &'a [u8],
    target: Judged,
    path: &'a [u8],
}

impl<'a> Pair<'a> {
    fn read<S: Transport>(
        client: &mut Client<S>,
        alloc: Global,
        book: &Book,
        path: &'a [u8],
    ) -> Result<Self, Fault> {
        let Some(above) = parent_of(path) else {
            return Err(Fault::Root);
        };
        let parent = Judged::read(client, alloc, book, above)?;
        let target = Judged::read(client, alloc, book, path)?;
        Ok(Pair {
            parent,
            above,
            target,
            path,
        })
    }

    fn reason(&self, asked: &Asked<'_>) -> RemovalReason {
        why_removal(
            &self.parent.governed(),
            &self.target.governed(),
            &asked.caller,
        )
    }

    /// Why a name may be removed, or why not.
    fn because(&self, alloc: Global, reason: RemovalReason) -> Result<String, Fault> {
        let (above, path) = (Printable(self.above), Printable(self.path));
        let text = match reason {
            RemovalReason::ByDelete(index) => {
                let number = index.saturating_add(1);
                format!(in alloc; "entry {number} of {path} allows delete")?
            }
            RemovalReason::ByDeleteChild(index) => {
                let number = index.saturating_add(1);
                format!(in alloc; "entry {number} of {above} allows delete-child")?
            }
            RemovalReason::ByAddFile => {
                format!(in alloc; "no entry speaks of it, and {above} grants add-file")?
            }
            RemovalReason::DeleteChildDenied(index) => {
                let number = index.saturating_add(1);
                format!(in alloc; "entry {number} of {above} denies delete-child")?
            }
            RemovalReason::DeleteDenied(index) => {
                let number = index.saturating_add(1);
                format!(in alloc; "entry {number} of {path} denies delete")?
            }
            RemovalReason::AddFileDenied(index) => {
                let number = index.saturating_add(1);
                format!(in alloc;
                    "no entry speaks of it, and entry {number} of {above} denies add-file"
                )?
            }
            RemovalReason::AddFileMissing => {
                format!(in alloc; "no entry speaks of it, and none of {above} allows add-file")?
            }
        };
        Ok(text)
    }

    /// The sentence on a removal, and both ACLs.
    fn put(
        &self,
        out: &mut Vec<u8>,
        alloc: Global,
        book: &Book,
        asked: &Asked<'_>,
    ) -> Result<(), Fault> {
        let (name, path, above) = (
            Printable(asked.name.as_bytes()),
            Printable(self.path),
            Printable(self.above),
        );
        let reason = self.reason(asked);
        let verdict = if is_granted(reason) { "may" } else { "may not" };
        let because = self.because(alloc, reason)?;
        let first = format!(in alloc; "{name} {verdict} remove {path}: {because}")?;
        put(out, first.as_str())?;
        let head = format!(in alloc; "{above}")?;
        put(out, head.as_str())?;
        let both = mask::DELETE_CHILD | mask::ADD_FILE;
        put_entries(out, alloc, book, &self.parent, asked, both)?;
        let head = format!(in alloc; "{path}")?;
        put(out, head.as_str())?;
        put_entries(out, alloc, book, &self.target, asked, mask::DELETE)
    }
}

/// Whether a removal is granted for this reason.
fn is_granted(reason: RemovalReason) -> bool {
    matches!(
        reason,
        RemovalReason::ByDelete(_) | RemovalReason::ByDeleteChild(_) | RemovalReason::ByAddFile
    )
}

/// The mask of permissions on an object.
fn mask_on(rights: Rights, judged: &Judged) -> Result<u32, Fault> {
    match rights.mask(judged.object) {
        Some(mask) => Ok(mask),
        None => Err(Fault::NoRight),
    }
}

/// Explains whether a user has permissions on an object and why, and the effect of each ACE of its
/// ACL.
pub(crate) fn explain<S: Transport>(
    client: &mut Client<S>,
    alloc: Global,
    book: &Book,
    asked: &Asked<'_>,
    rights: Rights,
    path: &[u8],
) -> Result<Vec<u8>, Fault> {
    let mut out = Vec::new(alloc);
    if let Rights::Removal = rights {
        let pair = Pair::read(client, alloc, book, path)?;
        pair.put(&mut out, alloc, book, asked)?;
        return Ok(out);
    }
    let judged = Judged::read(client, alloc, book, path)?;
    let mask = mask_on(rights, &judged)?;
    let first = sentence(alloc, &judged, asked, mask, path)?;
    put(&mut out, first.as_str())?;
    put_entries(&mut out, alloc, book, &judged, asked, mask)?;
    Ok(out)
}

/// Whether an ACL grants a user permissions.
fn is_allowed(judged: &Judged, asked: &Asked<'_>, rights: u32) -> bool {
    matches!(
        why(
            &judged.list,
            judged.owner,
            judged.group,
            &asked.caller,
            rights
        ),
        Reason::Granted
    )
}

/// The users of a book whom an ACL grants permissions, one a line.
fn holders(alloc: Global, names: &Names, judged: &Judged, rights: u32) -> Result<Vec<u8>, Fault> {
    let mut out = Vec::new(alloc);
    for name in &names.users {
        if let Some(asked) = Asked::of_book(&names.book, name.as_str()) {
            if is_allowed(judged, &asked, rights) {
                put(&mut out, name.as_str())?;
            }
        }
    }
    Ok(out)
}

/// The users of a book who may remove a name, one a line.
fn removers(alloc: Global, names: &Names, pair: &Pair<'_>) -> Result<Vec<u8>, Fault> {
    let mut out = Vec::new(alloc);
    for name in &names.users {
        if let Some(asked) = Asked::of_book(&names.book, name.as_str()) {
            if is_granted(pair.reason(&asked)) {
                put(&mut out, name.as_str())?;
            }
        }
    }
    Ok(out)
}

/// The users of a book who have permissions on an object, one a line.
pub(crate) fn list<S: Transport>(
    client: &mut Client<S>,
    alloc: Global,
    names: &Names,
    rights: Rights,
    path: &[u8],
) -> Result<Vec<u8>, Fault> {
    if let Rights::Removal = rights {
        let pair = Pair::read(client, alloc, &names.book, path)?;
        return removers(alloc, names, &pair);
    }
    let judged = Judged::read(client, alloc, &names.book, path)?;
    let mask = mask_on(rights, &judged)?;
    holders(alloc, names, &judged, mask)
}
