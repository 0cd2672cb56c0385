//! The tables of books with their results by the rules and the standard of TOML, worked out by hand.
use crate::book::given::{answer, answer_of, joined, push_times};
use std::alloc::{AllocError, Global};

/// Four settings that are in range.
fn settings() -> &'static str {
    "domain = 'd'\nroot_owner = 0\nroot_group = 0\nroot_mode = 0\n"
}

/// Rows with the result of the text.
static ROWS: [(&str, u8); 26] = [
    ("", 0),
    ("alice = 1001\n", 0),
    ("alice = 5\nbob = 5\n", 4),
    ("alice = 5\nbob = 6\ncarol = 5\n", 4),
    ("alice = 5\nalice = 6\n", 1),
    ("alice = 4294967295\nbob = 0\n", 0),
    ("alice = 4294967296\n", 3),
    ("alice = -1\n", 3),
    ("alice = 5\nbob = 5\ncarol = -1\n", 3),
    ("alice = 5\nbob = 5\ncarol = 'c'\n", 2),
    ("alice = -1\nbob = 'b'\n", 2),
    ("'' = 1\n", 3),
    ("'a@b' = 1\n", 3),
    ("123 = 1\n", 3),
    ("'0' = 1\n", 3),
    ("1a = 1\n", 0),
    ("OWNER = 1\n", 0),
    ("'٣' = 1\n", 0),
    ("'a b' = 1\n", 0),
    ("alice = 1.0\n", 2),
    ("alice = nan\n", 2),
    ("alice = true\n", 2),
    ("alice = [1]\n", 2),
    ("alice = {}\n", 2),
    ("alice.number = 1\n", 2),
    ("alice = 1979-05-27\n", 2),
];

fn rows_table() -> &'static [(&'static str, u8)] {
    &ROWS
}

/// Rows of a table of names, as users and as groups.
#[test]
fn rows(rt: HostRuntime) {
    for (rows, want) in rows_table() {
        let users = answer(rt.alloc(), &[settings(), "[users]\n", *rows, "[groups]\n"]);
        assert!(rt; users == Ok(*want), "users {rows}");
        let groups = answer(rt.alloc(), &[settings(), "[groups]\n", *rows, "[users]\n"]);
        assert!(rt; groups == Ok(*want), "groups {rows}");
    }
}

/// Tables with the result of the text.
static TABLES: [(&str, u8); 15] = [
    ("[users]\n[groups]\n", 0),
    ("[groups]\n[users]\n", 0),
    ("users = {}\ngroups = {}\n", 0),
    ("users = {alice = 1}\ngroups = {staff = 1}\n", 0),
    ("users.alice = 1\ngroups.staff = 1\n", 0),
    ("[users]\nalice = 1\n[groups]\nalice = 1\n", 0),
    ("[users]\n", 2),
    ("[groups]\n", 2),
    ("users = 5\n[groups]\n", 2),
    ("users = []\n[groups]\n", 2),
    ("[[users]]\n[groups]\n", 2),
    ("[users]\n[users.alice]\n[groups]\n", 2),
    ("[users]\n[users]\n[groups]\n", 1),
    ("[users]\n[groups]\n[extra]\n", 2),
    ("[users\n[groups]\n", 1),
];

fn tables_table() -> &'static [(&'static str, u8)] {
    &TABLES
}

/// Texts without a table.
static NO_TABLES: [(&str, u8); 5] = [
    ("", 2),
    ("\n# nothing\n", 2),
    ("book", 1),
    ("=", 1),
    ("\u{0}", 1),
];

fn no_tables() -> &'static [(&'static str, u8)] {
    &NO_TABLES
}

/// How the tables are written in the document.
#[test]
fn tables(rt: HostRuntime) {
    for (tables, want) in tables_table() {
        let got = answer(rt.alloc(), &[settings(), *tables]);
        assert!(rt; got == Ok(*want), "{tables}");
    }
    for (text, want) in no_tables() {
        assert!(rt; answer_of(rt.alloc(), text) == *want, "{text}");
    }
}

/// A text of `times` pieces.
fn retried(alloc: Global, piece: &str, times: u32) -> Result<String, AllocError> {
    let mut text = String::new(alloc);
    push_times(&mut text, piece, times)?;
    Ok(text)
}

/// The result of a text whose domain is `times` pieces.
fn long_domain(alloc: Global, piece: &str, times: u32) -> Result<u8, AllocError> {
    let domain = retried(alloc, piece, times)?;
    answer(
        alloc,
        &[
            "domain='",
            domain.as_str(),
            "'\nroot_owner=0\nroot_group=0\nroot_mode=0\n[users]\n[groups]\n",
        ],
    )
}

/// The result of a text with a user whose name is `times` pieces.
fn long_name(alloc: Global, piece: &str, times: u32) -> Result<u8, AllocError> {
    let name = retried(alloc, piece, times)?;
    answer(
        alloc,
        &[settings(), "[users]\n'", name.as_str(), "' = 1\n[groups]\n"],
    )
}

/// Pieces, the number of them in a domain, and in a name, and the result of the text.
static LENGTHS: [(&str, u32, u32, u8); 4] = [
    ("x", 128, 64, 0),
    ("x", 129, 65, 3),
    ("ü", 64, 32, 0),
    ("ü", 65, 33, 3),
];

fn lengths_table() -> &'static [(&'static str, u32, u32, u8)] {
    &LENGTHS
}

/// The longest domain has 128 bytes of UTF-8, the longest name 64.
#[test]
fn lengths(rt: HostRuntime) {
    for (piece, in_domain, in_name, want) in lengths_table() {
        let domain = long_domain(rt.alloc(), piece, *in_domain);
        assert!(rt; domain == Ok(*want), "domain of {in_domain} {piece}");
        let name = long_name(rt.alloc(), piece, *in_name);
        assert!(rt; name == Ok(*want), "name of {in_name} {piece}");
    }
}

/// A row of the table of users.
fn push_row(alloc: Global, text: &mut String, number: u32) -> Result<(), AllocError> {
    let row = format!(in alloc; "n{number} = {number}\n")?;
    text.push_str(row.as_str())
}

fn push_rows(alloc: Global, text: &mut String, names: u32) -> Result<(), AllocError> {
    for number in 0..names {
        push_row(alloc, text, number)?;
    }
    text.push_str("[groups]\n")
}

/// The result of a text with `names` users.
fn many_names(alloc: Global, names: u32) -> Result<u8, AllocError> {
    let mut text = joined(alloc, &[settings(), "[users]\n"])?;
    push_rows(alloc, &mut text, names)?;
    Ok(answer_of(alloc, text.as_str()))
}

/// A table has at most 1,024 names.
#[test]
fn counts(rt: HostRuntime) {
    for (names, want) in [(1023u32, 0u8), (1024, 0), (1025, 3)] {
        assert!(rt; many_names(rt.alloc(), names) == Ok(want), "{names} names");
    }
}
