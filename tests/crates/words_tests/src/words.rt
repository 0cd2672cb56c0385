//! ACEs (access control entries) in words: the letters of nfs4_acl(5), the aliases of nfs4_setfacl(1), the bits of RFC
//! 8881, section 6.2.1.

use EntryKind::{Alarm, Allow, Audit, Deny};
use Field::{EntryType, Flags, Form, Permissions, Principal};
use Who::{Everyone, Group, GroupOf, Owner, User};
use acl_list::{AclList, Entry, EntryKind, Kind, Who};
use acl_words::{AclFault, Field, Words, read_acl, read_entry, write_entry};
use std::alloc::{AllocError, Global};
use std::process::Abort;
use who_book::{Book, BookFault};

/// The book of the tests.
fn book(alloc: Global) -> Result<Book, BookFault> {
    Book::read(
        alloc,
        "domain = 'lab.example'\nroot_owner = 0\nroot_group = 0\nroot_mode = 0o755\n[users]\nalice = 1001\nbob = 1002\n[groups]\nstaff = 100\n",
    )
}

/// A text and its ACE: type, flags, mask and principal.
type Row = (&'static str, (EntryKind, u32, u32, Who));

/// Texts as which their ACEs are written.
static WRITTEN: [Row; 24] = [
    ("A::OWNER@:rwatTnNcCy", (Allow, 0, 0x0016_019f, Owner)),
    (
        "A::alice@lab.example:rxtncy",
        (Allow, 0, 0x0012_00a9, User(1001)),
    ),
    (
        "A::bob@lab.example:rwadtTnNcCy",
        (Allow, 0, 0x0017_019f, User(1002)),
    ),
    ("A:g:GROUP@:rtncy", (Allow, 0x40, 0x0012_0089, Group)),
    ("D:g:GROUP@:waxTC", (Deny, 0x40, 0x0004_0126, Group)),
    ("A::EVERYONE@:rtncy", (Allow, 0, 0x0012_0089, Everyone)),
    ("D::EVERYONE@:waxTC", (Deny, 0, 0x0004_0126, Everyone)),
    (
        "A:fdi:alice@lab.example:rxtncy",
        (Allow, 0x0b, 0x0012_00a9, User(1001)),
    ),
    ("A:g:staff@lab.example:r", (Allow, 0x40, 1, GroupOf(100))),
    (
        "A:fdniSFgh:staff@lab.example:rwaDdxtTnNcCoy+200+400",
        (Allow, 0xff, 0x001f_07ff, GroupOf(100)),
    ),
    ("U:S:EVERYONE@:r", (Audit, 0x10, 1, Everyone)),
    ("L:F:EVERYONE@:d", (Alarm, 0x20, 0x0001_0000, Everyone)),
    ("A:n:OWNER@:D", (Allow, 0x04, 0x40, Owner)),
    ("A:h:OWNER@:o", (Allow, 0x80, 0x0008_0000, Owner)),
    ("A::1003:N", (Allow, 0, 0x10, User(1003))),
    ("A:g:7:n", (Allow, 0x40, 0x08, GroupOf(7))),
    (
        "A::4294967295:y",
        (Allow, 0, 0x0010_0000, User(4_294_967_295)),
    ),
    ("D::alice@lab.example:", (Deny, 0, 0, User(1001))),
    ("A::OWNER@:+200", (Allow, 0, 0x0200, Owner)),
    ("A::OWNER@:x+400", (Allow, 0, 0x0420, Owner)),
    ("A:fd:1003:r", (Allow, 0x03, 1, User(1003))),
    ("A:03:00000001:12345678", (Allow, 0x03, 1, User(12_345_678))),
    ("A:f:12345678:r", (Allow, 0x01, 1, User(12_345_678))),
    ("A:00:80000800:EVERYONE@", (Allow, 0, 0x8000_0800, Everyone)),
];

/// Texts that are read as ACEs on a file, and written in another form.
static READ: [Row; 14] = [
    ("A::alice:RX", (Allow, 0, 0x0012_00a9, User(1001))),
    ("A::bob:RW", (Allow, 0, 0x0016_019f, User(1002))),
    ("A::bob:Wdo", (Allow, 0, 0x001f_0196, User(1002))),
    ("A:g:staff:X", (Allow, 0x40, 0x0012_00a0, GroupOf(100))),
    ("A::1001:R", (Allow, 0, 0x0012_0089, User(1001))),
    ("A:dfd:OWNER@:yrr", (Allow, 0x03, 0x0010_0001, Owner)),
    ("A::OWNER@:r+600", (Allow, 0, 0x0601, Owner)),
    ("A::OWNER@:+1+0000002", (Allow, 0, 0x03, Owner)),
    ("A::OWNER@:+FFFFFFFF", (Allow, 0, 0xffff_ffff, Owner)),
    (
        "A:0b:001200a9:alice@lab.example",
        (Allow, 0x0b, 0x0012_00a9, User(1001)),
    ),
    (
        "U:FD:DEADBEEF:1002",
        (Audit, 0xfd, 0xdead_beef, GroupOf(1002)),
    ),
    ("A:00:00000001:alice", (Allow, 0, 1, User(1001))),
    ("D:dF:12345678:OWNER@", (Deny, 0xdf, 0x1234_5678, Owner)),
    ("A:g:EVERYONE@:R", (Allow, 0x40, 0x0012_0089, Everyone)),
];

/// Texts that aren't read, with the field.
static REFUSED: [(&str, Field); 30] = [
    ("", Form),
    ("A", Form),
    ("A::alice", Form),
    ("A:alice:r", Form),
    (":::", EntryType),
    ("a::alice:r", EntryType),
    ("X::alice:r", EntryType),
    ("AA::alice:r", EntryType),
    (" A::alice:r", EntryType),
    ("X:q:carol:z", EntryType),
    ("X:00:00000001:carol", EntryType),
    ("A:q:alice:r", Flags),
    ("A:G:alice:r", Flags),
    ("A: :alice:r", Flags),
    ("A:+80:alice:r", Flags),
    ("A:q:carol:z", Flags),
    ("A::alice:rz", Permissions),
    ("A::alice:r x", Permissions),
    ("A::alice:h", Permissions),
    ("A::alice:r+", Permissions),
    ("A::alice:+0", Permissions),
    ("A::alice:++1", Permissions),
    ("A::alice:+100000000", Permissions),
    ("A::alice:+2g", Permissions),
    ("A::carol:z", Permissions),
    ("A::carol:r", Principal),
    ("A:g:alice:r", Principal),
    ("A::staff:r", Principal),
    ("A::alice@other.example:r", Principal),
    ("A:00:00000001:", Principal),
];

fn entry_of(row: &Row) -> Entry {
    let (kind, flags, mask, who) = row.1;
    Entry {
        kind,
        flags,
        mask,
        who,
    }
}

/// Whether the text is read as the ACE on objects of this type.
fn is_read(book: &Book, object: Kind, row: &Row) -> bool {
    read_entry(book, object, row.0.as_bytes()) == Ok(entry_of(row))
}

/// Whether the ACE is written as the text.
fn is_written(book: &Book, row: &Row) -> bool {
    let entry = entry_of(row);
    entry.flags < 256 && write_entry(book, &entry).as_bytes() == row.0.as_bytes()
}

fn written() -> &'static [Row] {
    &WRITTEN
}

fn read() -> &'static [Row] {
    &READ
}

fn refused() -> &'static [(&'static str, Field)] {
    &REFUSED
}

#[test]
fn entries_are_written_and_read_again(rt: HostRuntime) -> Result<(), BookFault> {
    let book = book(rt.alloc())?;
    for row in written() {
        let holds = is_written(&book, row)
            && is_read(&book, Kind::File, row)
            && is_read(&book, Kind::Directory, row);
        assert!(rt; holds, "{}", row.0);
    }
    Ok(())
}

#[test]
fn other_texts_are_read(rt: HostRuntime) -> Result<(), BookFault> {
    let book = book(rt.alloc())?;
    for row in read() {
        let holds = is_read(&book, Kind::File, row) && !is_written(&book, row);
        assert!(rt; holds, "{}", row.0);
    }
    Ok(())
}

/// On a directory a `W` has `D` too.
#[test]
fn directories_have_delete_child_in_w(rt: HostRuntime) -> Result<(), BookFault> {
    let book = book(rt.alloc())?;
    let row = ("A::bob:W", (Allow, 0, 0x0016_01d6, User(1002)));
    assert!(rt; is_read(&book, Kind::Directory, &row));
    assert!(rt; !is_read(&book, Kind::Link, &row));
    Ok(())
}

#[test]
fn other_texts_are_refused(rt: HostRuntime) -> Result<(), BookFault> {
    let book = book(rt.alloc())?;
    for (text, field) in refused() {
        let holds = read_entry(&book, Kind::File, text.as_bytes()) == Err(*field);
        assert!(rt; holds, "{}", text);
    }
    Ok(())
}

/// The number and the field of an ACL's fault.
fn fault_of(alloc: Global, book: &Book, texts: &[&[u8]]) -> Option<(usize, Field)> {
    match read_acl(alloc, book, Kind::File, texts) {
        Err(AclFault::Entry { index, field }) => Some((index, field)),
        _ => None,
    }
}

/// The ACL of texts.
fn list_of(alloc: Global, book: &Book, texts: &[&[u8]]) -> Option<AclList> {
    read_acl(alloc, book, Kind::File, texts).ok()
}

/// Whether an ACL has two ACEs.
fn has_two(list: &Option<AclList>) -> bool {
    match list {
        Some(list) => list.len() == 2,
        None => false,
    }
}

#[test]
fn lists_are_read(rt: HostRuntime) -> Result<(), BookFault> {
    let alloc = rt.alloc();
    let book = book(alloc)?;
    let list = list_of(alloc, &book, &[b"D::alice:r", b"A::EVERYONE@:R"]);
    assert!(rt; has_two(&list));
    let fault = fault_of(alloc, &book, &[b"D::alice:r", b"A::carol:r", b"A"]);
    assert!(rt; fault == Some((1, Principal)));
    Ok(())
}

/// The words of an ACE with this principal.
fn words_of(alloc: Global, who: &[u8]) -> Result<Vec<u8>, AllocError> {
    let mut out = Vec::new(alloc);
    out.push(b'>')?;
    let words = Words {
        kind: Deny,
        flags: 0x02,
        mask: 0x21,
        who,
    };
    words.put(&mut out)?;
    Ok(out)
}

/// A principal is the text between the second and the last colon.
#[test]
fn principals_may_have_colons(rt: HostRuntime) -> Result<(), AllocError> {
    let out = words_of(rt.alloc(), b"a:b@c:d")?;
    assert!(rt; out.as_slice() == b">D:d:a:b@c:d:rx".as_slice());
    Ok(())
}
