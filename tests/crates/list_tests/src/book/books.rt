//! The settings of books with their results by the rules and the standard of TOML, worked out by hand.
use crate::book::given::answer;
use std::alloc::{AllocError, Global};
use who_book::BookFault;

static FAULTS: [(BookFault, u8); 5] = [
    (BookFault::Text, 1),
    (BookFault::Shape, 2),
    (BookFault::Range, 3),
    (BookFault::Twice, 4),
    (BookFault::Memory, 5),
];

fn faults() -> &'static [(BookFault, u8)] {
    &FAULTS
}

#[test]
fn faults_are_numbered(rt: HostRuntime) {
    for (fault, number) in faults() {
        assert!(rt; *fault as u8 == *number, "{number}");
    }
}

/// Settings with the result of the text.
static KEYS: [(&str, u8); 15] = [
    ("domain='d'\nroot_owner=0\nroot_group=0\nroot_mode=0\n", 0),
    ("root_owner=0\nroot_group=0\nroot_mode=0\n", 2),
    ("domain='d'\nroot_group=0\nroot_mode=0\n", 2),
    ("domain='d'\nroot_owner=0\nroot_mode=0\n", 2),
    ("domain='d'\nroot_owner=0\nroot_group=0\n", 2),
    (
        "domain='d'\nroot_owner=0\nroot_group=0\nroot_mode=0\nextra=0\n",
        2,
    ),
    (
        "domain='d'\nroot_owner=0\nroot_group=0\nroot_mode=0\nmembers={}\n",
        0,
    ),
    ("Domain='d'\nroot_owner=0\nroot_group=0\nroot_mode=0\n", 2),
    ("domain='d'\nroot.owner=0\nroot_group=0\nroot_mode=0\n", 2),
    (
        "\"domain\"='d'\n'root_owner'=0\nroot_group=0\nroot_mode=0\n",
        0,
    ),
    (
        "domain='d'\nroot_owner=0\nroot_owner=0\nroot_group=0\nroot_mode=0\n",
        1,
    ),
    (
        "# whose\r\ndomain='d' # here\r\nroot_owner=0\r\nroot_group=0\r\nroot_mode=0\r\n",
        0,
    ),
    ("domain='d' root_owner=0\nroot_group=0\nroot_mode=0\n", 1),
    ("domain=\nroot_owner=0\nroot_group=0\nroot_mode=0\n", 1),
    (
        "\u{feff}domain='d'\nroot_owner=0\nroot_group=0\nroot_mode=0\n",
        0,
    ),
];

fn keys_table() -> &'static [(&'static str, u8)] {
    &KEYS
}

/// Keys that are missing, unknown, written in another form or given twice.
#[test]
fn keys(rt: HostRuntime) {
    for (settings, want) in keys_table() {
        let got = answer(rt.alloc(), &[*settings, "[users]\n[groups]\n"]);
        assert!(rt; got == Ok(*want), "{settings}");
    }
}

/// Values of a number with the result of the text.
static OWNERS: [(&str, u8); 20] = [
    ("0", 0),
    ("4294967295", 0),
    ("4294967296", 3),
    ("9223372036854775807", 3),
    ("-1", 3),
    ("-0", 0),
    ("+7", 0),
    ("1_000", 0),
    ("0xffffffff", 0),
    ("0x100000000", 3),
    ("007", 1),
    ("1.0", 2),
    ("inf", 2),
    ("true", 2),
    ("'0'", 2),
    ("[0]", 2),
    ("{}", 2),
    ("1979-05-27", 2),
    ("07:32:00", 2),
    ("1979-05-27T07:32:00Z", 2),
];

fn numbers_table() -> &'static [(&'static str, u8)] {
    &OWNERS
}

/// The result of a text with a value of one key, and 0 for the other.
fn number<'a>(
    alloc: Global,
    key: &'a str,
    value: &'a str,
    other: &'a str,
) -> Result<u8, AllocError> {
    answer(
        alloc,
        &[
            "domain='d'\n",
            key,
            "=",
            value,
            "\n",
            other,
            "=0\nroot_mode=0\n[users]\n[groups]\n",
        ],
    )
}

/// Values of `root_owner`, and of `root_group`.
#[test]
fn owners(rt: HostRuntime) {
    for (value, want) in numbers_table() {
        let owner = number(rt.alloc(), "root_owner", value, "root_group");
        assert!(rt; owner == Ok(*want), "root_owner {value}");
        let group = number(rt.alloc(), "root_group", value, "root_owner");
        assert!(rt; group == Ok(*want), "root_group {value}");
    }
}

/// A mode and a domain with the result of the text.
static MODES: [(&str, u8); 13] = [
    ("root_mode=4095\ndomain='d'\n", 0),
    ("root_mode=4096\ndomain='d'\n", 3),
    ("root_mode=0o7777\ndomain='d'\n", 0),
    ("root_mode=0o10000\ndomain='d'\n", 3),
    ("root_mode=-1\ndomain='d'\n", 3),
    ("root_mode=0.5\ndomain='d'\n", 2),
    ("root_mode=0\ndomain=''\n", 3),
    ("root_mode=0\ndomain='a@b'\n", 3),
    ("root_mode=0\ndomain='@'\n", 3),
    ("root_mode=0\ndomain='1'\n", 0),
    ("root_mode=0\ndomain=1\n", 2),
    ("root_mode=0\ndomain=['d']\n", 2),
    ("root_mode=4096\ndomain=1\n", 2),
];

fn modes_table() -> &'static [(&'static str, u8)] {
    &MODES
}

/// The result of a text with a mode and a domain.
fn mode_and_domain(alloc: Global, value: &str) -> Result<u8, AllocError> {
    answer(
        alloc,
        &["root_owner=0\nroot_group=0\n", value, "[users]\n[groups]\n"],
    )
}

/// Values of `root_mode`, and of `domain`.
#[test]
fn modes_and_domains(rt: HostRuntime) {
    for (value, want) in modes_table() {
        let got = mode_and_domain(rt.alloc(), value);
        assert!(rt; got == Ok(*want), "{value}");
    }
}
