//! A connection to a server that answers each call with the header of SUCCESS.

use crate::records::rooms::put_reply;
use rpc_record::{Framer, REPLY_HEADER_LIMIT, Reply, Step, read_call, record_mark};
use std::alloc::{AllocError, Global};
use xdr_wire::Writer;

/// The place in a stream, the record that it is in, and the replies so far.
#[derive(Drop)]
pub struct Connection {
    framer: Framer,
    record: Vec<u8>,
    pub out: Vec<u8>,
    pub records: usize,
    pub broken: bool,
}

impl Connection {
    pub fn new(alloc: Global) -> Self {
        Connection {
            framer: Framer::new(),
            record: Vec::new(alloc),
            out: Vec::new(alloc),
            records: 0,
            broken: false,
        }
    }

    /// Whether a record has begun that isn't complete.
    pub fn is_inside(&self) -> bool {
        self.framer.is_inside()
    }

    /// Takes the next piece of the stream, if the allocation succeeds.
    pub fn feed(&mut self, alloc: Global, piece: &[u8]) -> Result<(), AllocError> {
        let mut at = 0usize;
        for _ in 0..=piece.len() {
            match self.framer.feed(piece, at) {
                Step::Part(from, to) => {
                    self.record.extend_from_slice(&piece[from..to])?;
                    at = to;
                }
                Step::Record(from, to) => {
                    self.record.extend_from_slice(&piece[from..to])?;
                    at = to;
                    self.answer(alloc)?;
                    if self.broken {
                        return Ok(());
                    }
                }
                Step::NeedMore => return Ok(()),
                Step::Broken => {
                    self.broken = true;
                    return Ok(());
                }
            }
        }
        Ok(())
    }

    /// Answers the complete record, and begins the next one.
    fn answer(&mut self, alloc: Global) -> Result<(), AllocError> {
        self.records = self.records.saturating_add(1);
        let reply = reply_of(&self.record);
        self.record.clear();
        match reply {
            Some((xid, reply)) => add_reply(&mut self.out, alloc, xid, reply),
            None => {
                self.broken = true;
                Ok(())
            }
        }
    }
}

/// The transaction of a record, and the reply to it.
fn reply_of(record: &[u8]) -> Option<(u32, Reply)> {
    match read_call(record) {
        Ok(call) => Some((call.xid, Reply::Success)),
        Err(fault) => fault.reply(),
    }
}

/// Appends a record of these bytes.
fn add_record(out: &mut Vec<u8>, bytes: &[u8]) -> Result<(), AllocError> {
    if bytes.len() > REPLY_HEADER_LIMIT {
        return Ok(());
    }
    out.extend_from_slice(&record_mark(bytes.len()))?;
    out.extend_from_slice(bytes)
}

/// Appends the record of a reply.
fn add_reply(out: &mut Vec<u8>, alloc: Global, xid: u32, reply: Reply) -> Result<(), AllocError> {
    let mut writer = Writer::new(alloc, REPLY_HEADER_LIMIT)?;
    let _is_written = put_reply(&mut writer, xid, reply);
    add_record(out, writer.bytes())
}
