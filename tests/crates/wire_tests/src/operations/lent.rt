//! Results that borrow their bytes, by hand (RFC 8881, section 18, and RFC 5662).
use nfs_ops::{
    ExchangeIdResult, GetAttrResult, GetFhResult, OpResult, ReadDirResult, ReadLinkResult,
    ReadResult,
};
use nfs_types::{Attributes, Bitmap, Handle};
use xdr_wire::{Chain, Opaque, Reader, Wire};

/// An entry `f` of cookie 4 and type 1, whose bitmap has a zero word at its end, and the end.
const CHAIN: &[u8] =
    b"\0\0\0\x01\0\0\0\0\0\0\0\x04\0\0\0\x01f\0\0\0\0\0\0\x02\0\0\0\x02\0\0\0\0\0\0\0\x04\0\0\0\x01\0\0\0\0";

/// The number of results.
pub const COUNT: u32 = 6;

/// The bytes of the result of this index.
pub fn bytes_of(index: u32) -> &'static [u8] {
    match index {
        0 => b"\0\0\0\x09\0\0\0\0\0\0\0\x01\0\0\0\x10\0\0\0\x08\0\0\0\0\0\0\0\x02",
        1 => b"\0\0\0\x0a\0\0\0\0\0\0\0\x10\0\0\0\0\0\0\0\0\0\0\0\0\0\0\0\x02",
        2 => b"\0\0\0\x19\0\0\0\0\0\0\0\x01\0\0\0\x02hi\0\0",
        3 => b"\0\0\0\x1b\0\0\0\0\0\0\0\x03a/b\0",
        4 =>
            b"\0\0\0*\0\0\0\0\0\0\0\0\0\0\0\x01\0\0\0\x01\0\x01\0\0\0\0\0\0\0\0\0\0\0\0\0\0\0\0\0\x0bnfs41-lists\0\0\0\0\x0bnfs41-lists\0\0\0\0\0",
        _ =>
            b"\0\0\0\x1a\0\0\0\0\0\0\0\0\0\0\0\0\0\0\0\x01\0\0\0\0\0\0\0\x04\0\0\0\x01f\0\0\0\0\0\0\x01\0\0\0\x02\0\0\0\x04\0\0\0\x01\0\0\0\0\0\0\0\x01",
    }
}

fn with_values(values: &'static [u8]) -> Option<OpResult<'static>> {
    let attributes = Attributes {
        set: Bitmap::empty().with(4),
        values: Opaque::new(values)?,
    };
    Some(OpResult::GetAttr(GetAttrResult { attributes }))
}

fn with_data(data: &'static [u8]) -> Option<OpResult<'static>> {
    let data = Opaque::new(data)?;
    Some(OpResult::Read(ReadResult { eof: true, data }))
}

fn with_text(text: &'static [u8]) -> Option<OpResult<'static>> {
    let text = Opaque::new(text)?;
    Some(OpResult::ReadLink(ReadLinkResult { text }))
}

fn with_server(server: &'static [u8]) -> Option<OpResult<'static>> {
    Some(OpResult::ExchangeId(ExchangeIdResult {
        client: 1,
        sequence: 1,
        flags: 0x10000,
        server: Opaque::new(server)?,
        scope: Opaque::new(server)?,
    }))
}

fn with_entries(entries: &'static [u8]) -> Option<OpResult<'static>> {
    let entries = Chain::read(&mut Reader::new(entries)).ok()?;
    Some(OpResult::ReadDir(ReadDirResult { entries, eof: true }))
}

/// The result of this index.
pub fn result_of(index: u32) -> Option<OpResult<'static>> {
    match index {
        0 => with_values(b"\0\0\0\0\0\0\0\x02"),
        1 => Some(OpResult::GetFh(GetFhResult {
            handle: Handle::Object(2),
        })),
        2 => with_data(b"hi"),
        3 => with_text(b"a/b"),
        4 => with_server(b"nfs41-lists"),
        _ => with_entries(CHAIN),
    }
}
