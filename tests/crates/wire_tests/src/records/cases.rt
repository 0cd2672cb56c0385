//! Streams of records, with the answers to them.

/// A stream, the answers to it, and whether it breaks.
pub struct Case {
    pub name: &'static str,
    pub stream: &'static [u32],
    pub reply: &'static [u32],
    pub broken: bool,
}

macro_rules! case {
    ($name:expr, $stream:expr => $reply:expr, $broken:expr) => {
        Case {
            name: $name,
            stream: &$stream,
            reply: &$reply,
            broken: $broken,
        }
    };
}

static CASES: [Case; 21] = [
    case!("NULL", [0x8000_0028, 1, 0, 2, 0x0001_86a3, 4, 0, 0, 0, 0, 0] => [0x8000_0018, 1, 1, 0, 0, 0, 0], false),
    case!(
        "version 3",
        [0x8000_0028, 1, 0, 2, 0x0001_86a3, 3, 0, 0, 0, 0, 0]
            => [0x8000_0020, 1, 1, 0, 0, 0, 2, 4, 4],
        false
    ),
    case!("rpcvers 3", [0x8000_0028, 1, 0, 3, 0x0001_86a3, 4, 0, 0, 0, 0, 0] => [0x8000_0018, 1, 1, 1, 0, 2, 2], false),
    case!("rpcvers 3 in 12 bytes", [0x8000_000c, 1, 0, 3] => [0x8000_0018, 1, 1, 1, 0, 2, 2], false),
    case!(
        "another program",
        [0x8000_0028, 7, 0, 2, 0x0001_86a4, 9, 9, 0, 0, 0, 0]
            => [0x8000_0018, 7, 1, 0, 0, 0, 1],
        false
    ),
    case!(
        "procedure 2",
        [0x8000_0028, 7, 0, 2, 0x0001_86a3, 4, 2, 0, 0, 0, 0]
            => [0x8000_0018, 7, 1, 0, 0, 0, 3],
        false
    ),
    case!(
        "COMPOUND under AUTH_NONE",
        [0x8000_0028, 7, 0, 2, 0x0001_86a3, 4, 1, 0, 0, 0, 0]
            => [0x8000_0014, 7, 1, 1, 1, 5],
        false
    ),
    case!(
        "4 more bytes in the credential",
        [0x8000_0044, 2, 0, 2, 0x0001_86a3, 4, 1, 1, 0x18, 0, 0, 0x3ea, 0x64, 0, 0, 0, 0, 0]
            => [0x8000_0014, 2, 1, 1, 1, 1],
        false
    ),
    case!(
        "two empty fragments, then NULL",
        [0, 0, 0x8000_0028, 1, 0, 2, 0x0001_86a3, 4, 0, 0, 0, 0, 0]
            => [0x8000_0018, 1, 1, 0, 0, 0, 0],
        false
    ),
    case!(
        "NULL in five fragments",
        [8, 1, 0, 0, 4, 2, 20, 0x0001_86a3, 4, 0, 0, 0, 0x8000_0008, 0, 0]
            => [0x8000_0018, 1, 1, 0, 0, 0, 0],
        false
    ),
    case!(
        "NULL that ends with an empty fragment",
        [40, 1, 0, 2, 0x0001_86a3, 4, 0, 0, 0, 0, 0, 0x8000_0000]
            => [0x8000_0018, 1, 1, 0, 0, 0, 0],
        false
    ),
    case!(
        "two calls",
        [0x8000_0028, 1, 0, 2, 0x0001_86a3, 4, 0, 0, 0, 0, 0, 0x8000_0028, 9, 0, 2, 0x0001_86a3, 4, 0, 0, 0, 0, 0]
            => [0x8000_0018, 1, 1, 0, 0, 0, 0, 0x8000_0018, 9, 1, 0, 0, 0, 0],
        false
    ),
    case!(
        "a call, and a header above the limit",
        [0x8000_0028, 1, 0, 2, 0x0001_86a3, 4, 0, 0, 0, 0, 0, 0x8002_0001]
            => [0x8000_0018, 1, 1, 0, 0, 0, 0],
        true
    ),
    case!("a header at the limit", [0x8002_0000] => [], false),
    case!("a header above the limit", [0x8002_0001] => [], true),
    case!("an open header above the limit", [0x0002_0001] => [], true),
    case!("the empty record", [0x8000_0000] => [], true),
    case!("8 bytes", [0x8000_0008, 1, 0] => [], true),
    case!("a reply in place of a call", [0x8000_0018, 1, 1, 0, 0, 0, 0] => [], true),
    case!("a reply of another version", [0x8000_000c, 1, 1, 3] => [], true),
    case!("a header that ends too soon", [0x8000_0024, 1, 0, 2, 0x0001_86a4, 4, 0, 0, 0, 0] => [], true),
];

pub fn cases() -> &'static [Case] {
    &CASES
}
