//! A change of the clients' state, in its encoded form.
use session_slots::{CallForm, RecordForm, SessionForm};
use std::alloc::Allocator;
use xdr_wire::{Full, Opaque, Reader, Spell, Wire, Writer, XdrFault};

/// Number, client ID, owner, object, access and seqid of an open file.
pub type WrittenOpen<'a> = (u64, (u64, (Opaque<'a, 1024>, (u64, (u32, u32)))));

/// A change of the clients' state, lent, and not yet judged.
#[derive(Drop)]
pub enum WrittenChange<'a> {
    /// The next client and the next session get these numbers.
    Numbers(u64, u64),
    /// This record of a client is added.
    Record(RecordForm<'a>),
    /// This session is added, whose slots cache no call.
    Session(SessionForm),
    /// A slot caches this call.
    Call(CallForm<'a>),
    /// This file is open, after the others.
    Open(WrittenOpen<'a>),
}

impl<'a> Spell for WrittenChange<'a> {
    ghost use Rattle.std.specs.Prelude.{None};
    ghost use Rattle.client_parts.specs.Forms.{change, written_value};

    ghost form = { change };

    ghost view = { written_value };

    ghost normal = { None };

    fn write<A: Allocator>(self, writer: &mut Writer<A>) -> Result<(), Full> {
        match self {
            WrittenChange::Numbers(client, session) => (0u32, (client, session)).write(writer),
            WrittenChange::Record(form) => (1u32, form).write(writer),
            WrittenChange::Session(form) => (2u32, form).write(writer),
            WrittenChange::Call(form) => (3u32, form).write(writer),
            WrittenChange::Open(open) => (5u32, open).write(writer),
        }
    }
}

impl<'a> Wire<'a> for WrittenChange<'a> {
    fn read(reader: &mut Reader<'a>) -> Result<Self, XdrFault> {
        let mut ahead = reader.fork();
        let change = match ahead.u32()? {
            0 => {
                let (client, session) = Wire::read(&mut ahead)?;
                WrittenChange::Numbers(client, session)
            }
            1 => WrittenChange::Record(Wire::read(&mut ahead)?),
            2 => WrittenChange::Session(Wire::read(&mut ahead)?),
            3 => WrittenChange::Call(Wire::read(&mut ahead)?),
            5 => WrittenChange::Open(Wire::read(&mut ahead)?),
            _ => return Err(XdrFault::BadChoice),
        };
        *reader = ahead;
        Ok(change)
    }
}
