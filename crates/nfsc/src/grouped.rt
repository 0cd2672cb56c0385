//! The groups of a caller beside its first: they are put into each call as it is sent.
use rpc_record::{
    CALL_HEADER_LIMIT, Call, Caller, MOST_FURTHER, RECORD_LIMIT, read_call, record_mark, write_call,
};
use std::alloc::{AllocError, Global};
use std::io;
use std::io::{ErrorKind, Read, Write};
use xdr_wire::Writer;

/// The bytes of a record's mark (RFC 5531, section 11).
const MARK: usize = 4;

/// A stream on which calls have further groups. Each write begins with the mark of a record and has
/// the whole call, as a write of `Client` has.
#[derive(Drop)]
pub(crate) struct Grouped<'a, S> {
    alloc: Global,
    stream: S,
    groups: &'a [u32],
}

impl<'a, S> Grouped<'a, S> {
    /// The stream on which calls have these groups too, at most 16.
    pub(crate) fn new(alloc: Global, stream: S, groups: &'a [u32]) -> Self {
        Grouped {
            alloc,
            stream,
            groups,
        }
    }
}

/// The groups of a text, numbers with commas between them, and none without a text. `None`: the
/// text isn't of this form, or has more than 16 numbers.
pub(crate) fn groups_in(alloc: Global, text: Option<&str>) -> Result<Option<Vec<u32>>, AllocError> {
    let mut groups = Vec::new(alloc);
    let Some(text) = text else {
        return Ok(Some(groups));
    };
    for word in text.split(',') {
        match word.parse::<u32>() {
            Ok(group) => groups.push(group)?,
            Err(_) => return Ok(None),
        }
    }
    Ok((groups.len() <= MOST_FURTHER).then_some(groups))
}

/// The caller with further groups. `None`: they are more than a credential may have.
fn caller_in(caller: Caller, groups: &[u32]) -> Option<Caller> {
    if groups.len() > MOST_FURTHER {
        return None;
    }
    Some(Caller::new(caller.uid(), caller.gid(), groups))
}

/// The header of a call by this caller, whose groups contain its gid, as those of `Caller::new` do.
/// `None`: they don't, or the header has no room.
fn head(alloc: Global, xid: u32, caller: Caller) -> io::Result<Option<Writer>> {
    if !caller.is_member(caller.gid()) {
        return Ok(None);
    }
    let mut head = Writer::new(alloc, CALL_HEADER_LIMIT)?;
    match write_call(xid, Some(caller), &mut head) {
        Ok(()) => Ok(Some(head)),
        Err(_) => Ok(None),
    }
}

/// Two parts as one record. `None`: they are longer than a record may be.
fn one_record(alloc: Global, head: &[u8], arguments: &[u8]) -> io::Result<Option<Vec<u8>>> {
    let len = head.len().saturating_add(arguments.len());
    if len > RECORD_LIMIT {
        return Ok(None);
    }
    let mut record = Vec::new(alloc);
    record.extend_from_slice(&record_mark(len))?;
    record.extend_from_slice(head)?;
    record.extend_from_slice(arguments)?;
    Ok(Some(record))
}

/// The record of this call with further groups. `None`: it isn't a call of this form, or it is too
/// long then.
fn in_groups(alloc: Global, record: &[u8], groups: &[u32]) -> io::Result<Option<Vec<u8>>> {
    let Some(content) = record.get(MARK..) else {
        return Ok(None);
    };
    let Ok(
        Call {
            xid,
            arguments,
            caller: Some(caller),
        },
    ) = read_call(content)
    else {
        return Ok(None);
    };
    let Some(caller) = caller_in(caller, groups) else {
        return Ok(None);
    };
    match head(alloc, xid, caller)? {
        Some(head) => one_record(alloc, head.bytes(), arguments),
        None => Ok(None),
    }
}

impl<S: Read> Read for Grouped<'_, S> {
    fn read(&mut self, buf: &mut [u8]) -> io::Result<usize> {
        self.stream.read(buf)
    }
}

impl<S: Write> Write for Grouped<'_, S> {
    fn write(&mut self, buf: &[u8]) -> io::Result<usize> {
        match in_groups(self.alloc, buf, self.groups)? {
            Some(record) => {
                self.stream.write_all(record.as_slice())?;
                Ok(buf.len())
            }
            None => Err(io::Error::from(ErrorKind::InvalidData)),
        }
    }

    fn flush(&mut self) -> io::Result<()> {
        self.stream.flush()
    }
}
