//! The headers of calls, as a client writes them.

use crate::records::rooms::{Header, put_call, see_words};
use crate::records::words::{NULL_CALL, bytes_of_lookup};
use rpc_record::{CALL_HEADER_LIMIT, Caller, record_mark};
use std::alloc::{AllocError, Global};
use xdr_wire::Writer;

/// A caller's gid and further groups, and the words of its COMPOUND's header: transaction 3, uid 1001.
type Written = (u32, &'static [u32], &'static [u32]);

static WRITTEN: [Written; 4] = [
    (
        100,
        &[],
        &[3, 0, 2, 100_003, 4, 1, 1, 20, 0, 0, 1001, 100, 0, 0, 0],
    ),
    // each further group once, by rising number, without the gid
    (
        100,
        &[300, 7, 100, 300],
        &[
            3, 0, 2, 100_003, 4, 1, 1, 28, 0, 0, 1001, 100, 2, 7, 300, 0, 0,
        ],
    ),
    (
        7,
        &[0],
        &[3, 0, 2, 100_003, 4, 1, 1, 24, 0, 0, 1001, 7, 1, 0, 0, 0],
    ),
    (
        17,
        &[1, 16, 2, 15, 3, 14, 4, 13, 5, 12, 6, 11, 7, 10, 8, 9],
        &[
            3, 0, 2, 100_003, 4, 1, 1, 84, 0, 0, 1001, 17, 16, 1, 2, 3, 4, 5, 6, 7, 8, 9, 10, 11,
            12, 13, 14, 15, 16, 0, 0,
        ],
    ),
];

fn written() -> &'static [Written] {
    &WRITTEN
}

/// In each room the header of a call is written completely, or not at all.
#[test]
fn calls_in_each_room(rt: HostRuntime) {
    let limit = CALL_HEADER_LIMIT;
    assert!(rt; see_words(&rt, rt.alloc(), Header::CallByNobody, &NULL_CALL, limit).is_ok());
    for (gid, further, words) in written() {
        let header = Header::Call(*gid, *further);
        assert!(rt; see_words(&rt, rt.alloc(), header, words, limit).is_ok());
    }
    assert!(rt; CALL_HEADER_LIMIT == 124);
}

/// Appends the mark of a record of a header and arguments.
fn add_mark(record: &mut Vec<u8>, header: usize, arguments: usize) -> Result<(), AllocError> {
    let len = header.min(1000) + arguments.min(1000);
    record.extend_from_slice(&record_mark(len))
}

fn add_record(record: &mut Vec<u8>, header: &[u8], arguments: &[u8]) -> Result<(), AllocError> {
    add_mark(record, header.len(), arguments.len())?;
    record.extend_from_slice(header)?;
    record.extend_from_slice(arguments)
}

/// The header of a COMPOUND by uid 1002 in group 100.
fn write_header(writer: &mut Writer<Global>) -> bool {
    put_call(writer, 2, Caller::new(1002, 100, &[]))
}

/// Appends the record of that COMPOUND: its mark, its header and these arguments.
fn add_call(record: &mut Vec<u8>, alloc: Global, arguments: &[u8]) -> Result<bool, AllocError> {
    let mut writer = Writer::new(alloc, CALL_HEADER_LIMIT)?;
    let is_written = write_header(&mut writer);
    add_record(record, writer.bytes(), arguments)?;
    Ok(is_written)
}

/// Whether the record of these arguments is these bytes.
fn is_record(alloc: Global, arguments: &[u8], want: &[u8]) -> bool {
    let mut record = Vec::new(alloc);
    let is_added = add_call(&mut record, alloc, arguments) == Ok(true);
    is_added & (record.as_slice() == want)
}

/// The arguments of the call of LOOKUP are after 60 bytes of header and the four bytes of the mark.
fn is_whole_call(alloc: Global) -> Result<(bool, usize), AllocError> {
    let call = bytes_of_lookup(alloc)?;
    let (_, arguments) = call.split_at(call.len().min(64));
    Ok((is_record(alloc, arguments, &call), call.len()))
}

/// After its mark a call is header and arguments.
#[test]
fn a_whole_call(rt: HostRuntime) {
    assert!(rt; is_whole_call(rt.alloc()) == Ok((true, 104)));
}
