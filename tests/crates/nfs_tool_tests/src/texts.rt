//! Paths, ACEs (access control entries), modes, lines and words as text.
use acl_list::EntryKind;
use nfs_tool::{AclPart, Command, EntryText, Listed, Path, ToolFault, mode_text, read_mode};
use nfs_types::Status;
use std::alloc::{AllocError, Global};

/// Whether a path has these names, or its fault.
fn has_names(alloc: Global, text: &[u8], names: &[&[u8]]) -> Result<bool, ToolFault> {
    match Path::read(alloc, text) {
        Ok(path) => Ok(path.names() == names),
        Err(fault) => Err(fault),
    }
}

/// Texts, the names of their paths, and whether they are paths.
static PATHS: [(&[u8], &[&[u8]], Result<bool, ToolFault>); 7] = [
    (b"/a/bc", &[b"a", b"bc"], Ok(true)),
    (b"/", &[], Ok(true)),
    (b"", &[], Err(ToolFault::Path)),
    (b"a", &[], Err(ToolFault::Path)),
    (b"//", &[], Err(ToolFault::Path)),
    (b"/a/", &[], Err(ToolFault::Path)),
    (b"/a//b", &[], Err(ToolFault::Path)),
];

#[test]
fn paths_are_read(rt: HostRuntime) {
    for (text, names, outcome) in &PATHS {
        assert!(rt; has_names(rt.alloc(), text, names) == *outcome, "{text:?}");
    }
}

/// Whether an ACE is written as this text.
fn entry_is(alloc: Global, entry: EntryText<'_>, wanted: &[u8]) -> Result<bool, AllocError> {
    let mut text = Vec::new(alloc);
    entry.put(&mut text)?;
    Ok(text.as_slice() == wanted)
}

/// Whether a text is read as an ACE with this type, flags, mask and principal.
fn is_entry(text: &[u8], kind: EntryKind, flags: u8, mask: u32, who: &[u8]) -> bool {
    let Some(entry) = EntryText::read(text) else {
        return false;
    };
    (entry.kind, entry.flags, entry.mask) == (kind, flags, mask) && entry.who == who
}

/// Whether the ACE of a text is written as another text.
fn is_written(alloc: Global, text: &[u8], wanted: &[u8]) -> Result<bool, AllocError> {
    match EntryText::read(text) {
        Some(entry) => entry_is(alloc, entry, wanted),
        None => Ok(false),
    }
}

#[test]
fn entries_are_read_and_written(rt: HostRuntime) {
    let text = b"L:0B:00040027:a:b";
    assert!(rt; is_entry(text, EntryKind::Alarm, 0x0b, 0x0004_0027, b"a:b"));
    assert!(rt; is_written(rt.alloc(), text, b"L:0b:00040027:a:b") == Ok(true));
}

/// Texts that are no ACE.
const NO_ENTRIES: &[&[u8]] = &[
    b"",
    b"X:00:00000001:1",
    b"A:0:00000001:1",
    b"A:00:0000001:1",
    b"A:00:00000001",
];

#[test]
fn other_texts_are_no_entries(rt: HostRuntime) {
    for text in NO_ENTRIES {
        assert!(rt; EntryText::read(text).is_none(), "{text:?}");
    }
}

/// Texts, and their modes.
static MODES: [(&[u8], Option<u32>); 5] = [
    (b"7", Some(7)),
    (b"0640", Some(0o640)),
    (b"", None),
    (b"8", None),
    (b"00640", None),
];

#[test]
fn modes_are_read_and_written(rt: HostRuntime) {
    for (text, mode) in &MODES {
        assert!(rt; read_mode(text) == *mode, "{text:?}");
    }
    assert!(rt; mode_text(0o4755) == *b"4755");
}

/// Faults and their texts.
const FAULTS: &[(ToolFault, &str)] = &[
    (ToolFault::Path, "failed 1"),
    (ToolFault::Reply, "failed 3"),
    (ToolFault::Read, "failed 4"),
    (ToolFault::Write, "failed 5"),
    (ToolFault::Memory, "failed 6"),
    (ToolFault::Entry, "failed 7"),
    (ToolFault::Failed, "failed 8"),
    (ToolFault::TooLarge, "failed 9"),
    (
        ToolFault::Refused(25, Status::Access),
        "refused READ ACCESS",
    ),
    (
        ToolFault::Refused(57, Status::RepTooBigToCache),
        "refused DESTROY_CLIENTID REP_TOO_BIG_TO_CACHE",
    ),
    (
        ToolFault::Refused(4_294_967_295, Status::NoEnt),
        "refused 4294967295 NOENT",
    ),
];

fn has_text(fault: ToolFault, text: &str) -> bool {
    fault.text().as_bytes() == text.as_bytes()
}

#[test]
fn faults_have_texts(rt: HostRuntime) {
    for (fault, text) in FAULTS {
        assert!(rt; has_text(*fault, text), "{text}");
    }
}

/// Whether the line of an entry of a directory is this.
fn line_is(alloc: Global, listed: Listed<'_>, wanted: &[u8]) -> Result<bool, AllocError> {
    let mut text = Vec::new(alloc);
    listed.put(&mut text)?;
    Ok(text.as_slice() == wanted)
}

/// Entries of a directory, and their lines.
static LINES: [(Listed<'static>, &[u8]); 2] = [
    (
        Listed {
            kind: Some(1),
            mode: Some(0o600),
            owner: Some(b"0"),
            group: Some(b"0"),
            size: Some(2),
            name: b"f",
        },
        b"- 0600 0 0 2 f",
    ),
    (
        Listed {
            kind: Some(5),
            mode: None,
            owner: None,
            group: None,
            size: None,
            name: b"l",
        },
        b"l ? ? ? ? l",
    ),
];

#[test]
fn lines_are_written(rt: HostRuntime) {
    for (listed, line) in &LINES {
        assert!(rt; line_is(rt.alloc(), *listed, line) == Ok(true), "{line:?}");
    }
}

#[test]
fn commands_are_read(rt: HostRuntime) {
    let words: [&[u8]; 3] = [b"put", b"/f", b"hi"];
    assert!(rt; matches!(Command::read(&words), Some(Command::Put(b"/f", b"hi"))));
}

/// Words that are no command.
static NO_COMMANDS: [&[&[u8]]; 4] = [
    &[b"setacl", b"/f"],
    &[b"ls", b"/f", b"/g"],
    &[b"setdacl", b"/f"],
    &[b"getsacl", b"/f", b"/g"],
];

#[test]
fn other_words_are_no_commands(rt: HostRuntime) {
    for words in &NO_COMMANDS {
        assert!(rt; Command::read(words).is_none(), "{words:?}");
    }
}

/// An ACL (access control list) or a part of it, a path, and the ACEs to be set, or none.
type Part<'a> = (AclPart, &'a [u8], &'a [&'a [u8]]);

fn part_of<'a>(words: &'a [&'a [u8]]) -> Option<Part<'a>> {
    match Command::read(words)? {
        Command::GetAcl(part, path) => Some((part, path, &[])),
        Command::SetAcl(part, path, entries) => Some((part, path, entries)),
        _ => None,
    }
}

/// Words, and the ACL or the part of it that they name.
static PARTS: [(&[&[u8]], Part<'static>); 5] = [
    (&[b"getdacl", b"/f"], (AclPart::Dacl, b"/f", &[])),
    (&[b"getsacl", b"/f"], (AclPart::Sacl, b"/f", &[])),
    (
        &[b"setacl", b"/f", b"x", b"y"],
        (AclPart::Acl, b"/f", &[b"x", b"y"]),
    ),
    (&[b"setdacl", b"/f", b"x"], (AclPart::Dacl, b"/f", &[b"x"])),
    (&[b"setsacl", b"/f", b"x"], (AclPart::Sacl, b"/f", &[b"x"])),
];

#[test]
fn commands_of_a_part_are_read(rt: HostRuntime) {
    for (words, part) in &PARTS {
        assert!(rt; part_of(words) == Some(*part), "{words:?}");
    }
}

/// Faults and their numbers.
static NUMBERS: [(ToolFault, u32); 9] = [
    (ToolFault::Path, 1),
    (ToolFault::Refused(3, Status::Access), 2),
    (ToolFault::Reply, 3),
    (ToolFault::Read, 4),
    (ToolFault::Write, 5),
    (ToolFault::Memory, 6),
    (ToolFault::Entry, 7),
    (ToolFault::Failed, 8),
    (ToolFault::TooLarge, 9),
];

#[test]
fn faults_have_numbers(rt: HostRuntime) {
    for (fault, number) in &NUMBERS {
        assert!(rt; fault.number() == *number, "{number}");
    }
}
