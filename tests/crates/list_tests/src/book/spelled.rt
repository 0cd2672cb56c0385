//! The contents of books, and the text of users, groups and principals by them.
use crate::book::given::{joined, push_times};
use acl_list::Who;
use std::alloc::{AllocError, Global};
use std::process::Abort;
use who_book::{Book, BookFault, IDENTIFIER_GROUP, NameKind};

/// The book of the tests.
fn words() -> &'static str {
    "domain = 'example.org'\nroot_owner = 1001\nroot_group = 100\nroot_mode = 0o1750\n[users]\nalice = 1001\nbob = 1002\n[groups]\nstaff = 100\nbob = 7\n"
}

fn book(alloc: Global) -> Result<Book, BookFault> {
    Book::read(alloc, words())
}

/// A book's owner, group and mode.
fn numbers_of(book: &Book) -> (u32, u32, u32) {
    (book.root_owner(), book.root_group(), book.root_mode())
}

fn has_domain(book: &Book, domain: &str) -> bool {
    book.domain() == domain
}

fn see_settings(rt: &impl Abort, book: &Book, domain: &str, numbers: (u32, u32, u32)) {
    assert!(rt; has_domain(book, domain));
    assert!(rt; numbers_of(book) == numbers);
}

#[test]
fn settings(rt: HostRuntime) -> Result<(), BookFault> {
    let book = book(rt.alloc())?;
    see_settings(&rt, &book, "example.org", (1001, 100, 0o1750));
    Ok(())
}

/// The book that is used if there is none.
#[test]
fn settings_where_there_is_no_book(rt: HostRuntime) {
    let local = Book::default(rt.alloc());
    see_settings(&rt, &local, "localdomain", (0, 0, 0o755));
    assert!(rt; !has_name(&local, NameKind::User, 0));
}

/// The number of a name.
fn number_of(book: &Book, kind: NameKind, name: &str) -> Option<u32> {
    book.number_of(kind, name.as_bytes())
}

/// Whether a number has a name.
fn has_name(book: &Book, kind: NameKind, number: u32) -> bool {
    book.name_of(kind, number).is_some()
}

/// Whether a number has this name.
fn is_name(book: &Book, kind: NameKind, number: u32, name: &str) -> bool {
    book.name_of(kind, number) == Some(name)
}

/// Names with their numbers.
static NUMBERS: [(NameKind, &str, Option<u32>); 8] = [
    (NameKind::User, "alice", Some(1001)),
    (NameKind::User, "bob", Some(1002)),
    (NameKind::Group, "bob", Some(7)),
    (NameKind::Group, "staff", Some(100)),
    (NameKind::Group, "alice", None),
    (NameKind::User, "staff", None),
    (NameKind::User, "Alice", None),
    (NameKind::User, "", None),
];

fn numbers() -> &'static [(NameKind, &'static str, Option<u32>)] {
    &NUMBERS
}

/// Looks up a name, and then the name of its number.
fn is_numbered(book: &Book, kind: NameKind, name: &str, number: Option<u32>) -> bool {
    let is_found = number_of(book, kind, name) == number;
    match number {
        Some(number) => is_found & is_name(book, kind, number, name),
        None => is_found,
    }
}

fn look_up_each(rt: &impl Abort, book: &Book) {
    for (kind, name, number) in numbers() {
        assert!(rt; is_numbered(book, *kind, name, *number), "{name}");
    }
    assert!(rt; !has_name(book, NameKind::User, 100));
    assert!(rt; !has_name(book, NameKind::Group, 1001));
}

#[test]
fn look_ups(rt: HostRuntime) -> Result<(), BookFault> {
    let book = book(rt.alloc())?;
    look_up_each(&rt, &book);
    Ok(())
}

/// Texts with the user and the group that they name.
static READ: [(&str, Option<u32>, Option<u32>); 24] = [
    ("alice@example.org", Some(1001), None),
    ("bob@example.org", Some(1002), Some(7)),
    ("staff@example.org", None, Some(100)),
    ("1001", Some(1001), Some(1001)),
    ("0", Some(0), Some(0)),
    ("4294967295", Some(4_294_967_295), Some(4_294_967_295)),
    ("4294967296", None, None),
    ("42949672950", None, None),
    ("01001", None, None),
    ("00", None, None),
    ("", None, None),
    ("+1", None, None),
    ("-1", None, None),
    (" 1", None, None),
    ("1 ", None, None),
    ("1001@example.org", None, None),
    ("alice", None, None),
    ("alice@", None, None),
    ("@example.org", None, None),
    ("alice@example.com", None, None),
    ("alice@Example.org", None, None),
    ("alice@example.org@example.org", None, None),
    ("Alice@example.org", None, None),
    ("OWNER@", None, None),
];

fn read_table() -> &'static [(&'static str, Option<u32>, Option<u32>)] {
    &READ
}

/// The user or group of a text.
fn principal(book: &Book, kind: NameKind, text: &str) -> Option<u32> {
    book.principal(kind, text.as_bytes())
}

fn read_each(rt: &impl Abort, book: &Book) {
    for (text, user, group) in read_table() {
        assert!(rt;
            principal(book, NameKind::User, text) == *user,
            "user {text}"
        );
        assert!(rt;
            principal(book, NameKind::Group, text) == *group,
            "group {text}"
        );
    }
}

#[test]
fn principals_are_read(rt: HostRuntime) -> Result<(), BookFault> {
    let book = book(rt.alloc())?;
    read_each(&rt, &book);
    Ok(())
}

/// Numbers with their texts.
static WRITTEN: [(NameKind, u32, &str); 6] = [
    (NameKind::User, 1001, "alice@example.org"),
    (NameKind::Group, 1001, "1001"),
    (NameKind::Group, 100, "staff@example.org"),
    (NameKind::User, 100, "100"),
    (NameKind::User, 0, "0"),
    (NameKind::User, 4_294_967_295, "4294967295"),
];

fn written_table() -> &'static [(NameKind, u32, &'static str)] {
    &WRITTEN
}

/// Whether a number has this text.
fn is_spelled(book: &Book, kind: NameKind, number: u32, text: &str) -> bool {
    let spelling = book.spell_principal(kind, number);
    (spelling.as_bytes() == text.as_bytes()) & (spelling.len() == text.len()) & !spelling.is_empty()
}

fn write_each(rt: &impl Abort, book: &Book) {
    for (kind, number, text) in written_table() {
        assert!(rt; is_spelled(book, *kind, *number, text), "{text}");
    }
}

#[test]
fn principals_are_written(rt: HostRuntime) -> Result<(), BookFault> {
    let book = book(rt.alloc())?;
    write_each(&rt, &book);
    Ok(())
}

/// Texts with the principal without and with IDENTIFIER_GROUP.
static PRINCIPALS: [(&str, Option<Who>, Option<Who>); 10] = [
    ("OWNER@", Some(Who::Owner), Some(Who::Owner)),
    ("GROUP@", Some(Who::Group), Some(Who::Group)),
    ("EVERYONE@", Some(Who::Everyone), Some(Who::Everyone)),
    ("owner@", None, None),
    ("OWNER", None, None),
    ("OWNER@example.org", None, None),
    ("INTERACTIVE@", None, None),
    ("alice@example.org", Some(Who::User(1001)), None),
    (
        "bob@example.org",
        Some(Who::User(1002)),
        Some(Who::GroupOf(7)),
    ),
    ("7", Some(Who::User(7)), Some(Who::GroupOf(7))),
];

fn principals_table() -> &'static [(&'static str, Option<Who>, Option<Who>)] {
    &PRINCIPALS
}

/// Principals with their texts.
static SPELLED: [(Who, &str); 7] = [
    (Who::Owner, "OWNER@"),
    (Who::Group, "GROUP@"),
    (Who::Everyone, "EVERYONE@"),
    (Who::User(1001), "alice@example.org"),
    (Who::User(7), "7"),
    (Who::GroupOf(7), "bob@example.org"),
    (Who::GroupOf(1001), "1001"),
];

fn spelled_table() -> &'static [(Who, &'static str)] {
    &SPELLED
}

/// The principal of a text under some flags.
fn who(book: &Book, flags: u32, text: &str) -> Option<Who> {
    book.who(flags, text.as_bytes())
}

fn read_principals(rt: &impl Abort, book: &Book) {
    for (text, plain, group) in principals_table() {
        assert!(rt; who(book, 0, text) == *plain, "{text}");
        assert!(rt; who(book, 0xbf, text) == *plain, "{text} under other flags");
        assert!(rt; who(book, IDENTIFIER_GROUP, text) == *group, "group {text}");
    }
}

fn is_principal_spelled(book: &Book, who: Who, text: &str) -> bool {
    book.spell_ace_principal(who).as_bytes() == text.as_bytes()
}

fn write_principals(rt: &impl Abort, book: &Book) {
    for (who, text) in spelled_table() {
        assert!(rt; is_principal_spelled(book, *who, text), "{text}");
    }
}

#[test]
fn principals(rt: HostRuntime) -> Result<(), BookFault> {
    let book = book(rt.alloc())?;
    read_principals(&rt, &book);
    write_principals(&rt, &book);
    Ok(())
}

fn push_longest(text: &mut String) -> Result<(), AllocError> {
    push_times(text, "d", 128)?;
    text.push_str("'\n[groups]\n[users]\n")?;
    push_times(text, "n", 64)?;
    text.push_str(" = 5\n")
}

/// A book whose domain has 128 bytes, with a user whose name has 64.
fn longest_words(alloc: Global) -> Result<String, AllocError> {
    let mut text = joined(
        alloc,
        &["root_owner=0\nroot_group=0\nroot_mode=0\ndomain='"],
    )?;
    push_longest(&mut text)?;
    Ok(text)
}

fn spelled_length(book: &Book, number: u32) -> usize {
    book.spell_principal(NameKind::User, number).len()
}

fn spelled_length_in(alloc: Global, text: &str, number: u32) -> Option<usize> {
    match Book::read(alloc, text) {
        Ok(book) => Some(spelled_length(&book, number)),
        Err(_) => None,
    }
}

/// The longest text: a name of 64 bytes and a domain of 128.
#[test]
fn longest(rt: HostRuntime) -> Result<(), AllocError> {
    let text = longest_words(rt.alloc())?;
    let length = spelled_length_in(rt.alloc(), text.as_str(), 5);
    Ok(assert!(rt; length == Some(193)))
}
