//! Tests of the items that a writer puts, and of the room for them.
use crate::given;
use std::alloc::Global;
use xdr_wire::{Full, Opaque, Writer};

/// The file of RFC 4506, section 7, by hand: its name, EXEC with its interpretor, its owner and its data.
static FILE: &[u8] =
    b"\0\0\0\x09sillyprog\0\0\0\0\0\0\x02\0\0\0\x04lisp\0\0\0\x04john\0\0\0\x06(quit)\0\0";

fn file_bytes() -> &'static [u8] {
    FILE
}

type Text<'a> = Opaque<'a, 255>;

/// The texts of that file: its name, its interpretor, its owner and its data.
static TEXTS: [&[u8]; 4] = [b"sillyprog", b"lisp", b"john", b"(quit)"];

fn texts() -> &'static [&'static [u8]; 4] {
    &TEXTS
}

fn put(writer: &mut Writer<Global>, text: &[u8]) -> bool {
    if text.len() > 255 {
        return false;
    }
    writer.put_opaque(text).is_ok()
}

fn put_kind(writer: &mut Writer<Global>, kind: u32) -> bool {
    writer.put_u32(kind).is_ok()
}

fn put_fields(writer: &mut Writer<Global>) -> bool {
    let [name, interpretor, owner, data] = *texts();
    put(writer, name)
        && put_kind(writer, 2)
        && put(writer, interpretor)
        && put(writer, owner)
        && put(writer, data)
}

/// Whether that file's fields go into a buffer of this room, and whether its bytes are these then.
fn put_file(alloc: Global, room: usize, want: &[u8]) -> (bool, bool) {
    match Writer::new(alloc, room) {
        Ok(mut writer) => {
            let is_whole = put_fields(&mut writer);
            (is_whole, writer.bytes() == want)
        }
        Err(_) => (false, false),
    }
}

/// The example of RFC 4506, section 7, written item by item.
#[test]
fn file_is_written(rt: HostRuntime) {
    assert!(rt; put_file(rt.alloc(), 48, file_bytes()) == (true, true));
    assert!(rt; !put_file(rt.alloc(), 47, file_bytes()).0);
}

/// The texts and the type in the bytes of a file, and how many bytes are left.
fn file_in(bytes: &[u8]) -> Option<([&[u8]; 4], u32, usize)> {
    let (read, left) = given::read::<(Text, (u32, (Text, (Text, Text))))>(bytes);
    match read {
        Ok((name, (kind, (interpretor, (owner, data))))) => {
            let texts = [name.bytes, interpretor.bytes, owner.bytes, data.bytes];
            Some((texts, kind, left))
        }
        Err(_) => None,
    }
}

/// The example of RFC 4506, section 7, read item by item.
#[test]
fn file_is_read(rt: HostRuntime) {
    assert!(rt; file_in(file_bytes()) == Some((*texts(), 2, 0)));
}

fn put_numbers(writer: &mut Writer<Global>) -> bool {
    writer.put_u32(258).is_ok()
        && writer.put_u64(4294967296).is_ok()
        && writer.put_i64(-2).is_ok()
        && writer.put_bool(true).is_ok()
        && writer.put_bool(false).is_ok()
}

fn put_rows(writer: &mut Writer<Global>) -> bool {
    writer.put_fixed(b"abcde").is_ok()
        && writer.put_words(&[1, 2]).is_ok()
        && writer.put_opaque(b"a").is_ok()
}

/// Whether the items fill a buffer exactly, and are these bytes then.
fn put_items(alloc: Global, want: &[u8]) -> bool {
    match Writer::new(alloc, 52) {
        Ok(mut writer) => {
            let is_whole = put_numbers(&mut writer) && put_rows(&mut writer);
            is_whole & (writer.bytes() == want)
        }
        Err(_) => false,
    }
}

/// The bytes of these items by hand.
static ITEMS: &[u8] =
    b"\0\0\x01\x02\0\0\0\x01\0\0\0\0\xff\xff\xff\xff\xff\xff\xff\xfe\0\0\0\x01\0\0\0\0abcde\0\0\0\0\0\0\x01\0\0\0\x02\0\0\0\x01a\0\0\0";

fn items_bytes() -> &'static [u8] {
    ITEMS
}

/// Each item, in a buffer with exactly its room.
#[test]
fn items(rt: HostRuntime) {
    assert!(rt; put_items(rt.alloc(), items_bytes()));
}

/// Whether an item of each type that is longer than the room is refused, whether the writer is empty then, and its
/// room.
fn refuse_items(writer: &mut Writer<Global>) -> ([bool; 4], bool, usize) {
    let refused = [
        writer.put_u64(1).is_err(),
        writer.put_fixed(b"abcde").is_err(),
        writer.put_opaque(b"a").is_err(),
        writer.put_words(&[1, 2]).is_err(),
    ];
    (refused, writer.is_empty(), writer.room())
}

/// The outcome in a writer of seven bytes.
fn refused_by_seven(alloc: Global) -> Option<([bool; 4], bool, usize)> {
    match Writer::new(alloc, 7) {
        Ok(mut writer) => Some(refuse_items(&mut writer)),
        Err(_) => None,
    }
}

/// With a byte too few nothing is written.
#[test]
fn full(rt: HostRuntime) {
    assert!(rt; refused_by_seven(rt.alloc()) == Some(([true; 4], true, 7)));
}

/// Whether one byte is left of a number that goes into the writer and is cut there, and the room then.
fn cut(writer: &mut Writer<Global>) -> (bool, usize) {
    let is_put = writer.put_u32(3).is_ok();
    if writer.is_empty() {
        return (false, 0);
    }
    writer.truncate(1);
    (is_put & (writer.bytes() == b"\0".as_slice()), writer.room())
}

/// The outcome in a writer of seven bytes.
fn cut_in_seven(alloc: Global) -> Option<(bool, usize)> {
    match Writer::new(alloc, 7) {
        Ok(mut writer) => Some(cut(&mut writer)),
        Err(_) => None,
    }
}

/// Bytes that were written are cut off, and there is room for them again.
#[test]
fn truncated(rt: HostRuntime) {
    assert!(rt; cut_in_seven(rt.alloc()) == Some((true, 6)));
}

/// Whether the refusal is printed as this text.
fn is_full_printed(alloc: Global, text: &str) -> bool {
    match format!(in alloc; "{}", Full) {
        Ok(printed) => printed.as_str() == text,
        Err(_) => false,
    }
}

#[test]
fn text_of_the_refusal(rt: HostRuntime) {
    assert!(rt; is_full_printed(rt.alloc(), "there is less room than the item takes"));
}
