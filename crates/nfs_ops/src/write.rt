//! WRITE (RFC 8881, section 18.32): its arguments and its result.
use crate::always::{Always, Zeros};
use crate::bytes::Bytes;
use nfs_types::StateId;
use std::alloc::Allocator;
use xdr_wire::{Full, Reader, Spell, Wire, Writer, XdrFault};

/// The number of WRITE.
pub const OP_WRITE: u32 = 38;

/// How stable bytes are to be written (RFC 8881, section 18.32, `stable_how4`).
#[derive(Clone, Copy)]
pub enum StableHow {
    /// UNSTABLE4 (0): in memory.
    Unstable,
    /// DATA_SYNC4 (1): the bytes on the disk.
    Data,
    /// FILE_SYNC4 (2): bytes and attributes on the disk.
    File,
}

impl Spell for StableHow {
    ghost use Rattle.std.specs.Prelude.{None};
    ghost use Rattle.nfs_ops.specs.Forms.{stable_how};
    ghost use Rattle.nfs_ops.specs.Views.{stable_how_value};

    ghost form = { stable_how };

    ghost view = { stable_how_value };

    ghost normal = { None };

    fn write<A: Allocator>(self, writer: &mut Writer<A>) -> Result<(), Full> {
        match self {
            StableHow::Unstable => (0u32, ()).write(writer),
            StableHow::Data => (1u32, ()).write(writer),
            StableHow::File => (2u32, ()).write(writer),
        }
    }
}

impl<'a> Wire<'a> for StableHow {
    fn read(reader: &mut Reader<'a>) -> Result<Self, XdrFault> {
        let mut ahead = reader.fork();
        let stable = match ahead.u32()? {
            0 => StableHow::Unstable,
            1 => StableHow::Data,
            2 => StableHow::File,
            _ => return Err(XdrFault::BadChoice),
        };
        *reader = ahead;
        Ok(stable)
    }
}

/// Writes bytes of a file. The arguments of WRITE (RFC 8881, section 18.32).
#[derive(Clone, Copy)]
pub struct WriteArgs<'a> {
    /// The stateid of an open, or a special one.
    pub stateid: StateId,
    /// The offset of the bytes.
    pub offset: u64,
    /// How stable they must be.
    pub stable: StableHow,
    /// The bytes.
    pub data: Bytes<'a>,
}

impl<'a> Spell for WriteArgs<'a> {
    ghost use Rattle.std.specs.Prelude.{None};
    ghost use Rattle.nfs_ops.specs.Forms.{write_args};
    ghost use Rattle.nfs_ops.specs.Views.{write_args_value};

    ghost form = { write_args };

    ghost view = { write_args_value };

    ghost normal = { None };

    fn write<A: Allocator>(self, writer: &mut Writer<A>) -> Result<(), Full> {
        let last = (self.stable, self.data);
        (self.stateid, (self.offset, last)).write(writer)
    }
}

impl<'a> Wire<'a> for WriteArgs<'a> {
    fn read(reader: &mut Reader<'a>) -> Result<Self, XdrFault> {
        let (stateid, (offset, (stable, data))) = Wire::read(reader)?;
        Ok(WriteArgs {
            stateid,
            offset,
            stable,
            data,
        })
    }
}

/// The bytes were written, and are stable. The result of WRITE (RFC 8881, section 18.32).
#[derive(Clone, Copy)]
pub struct WriteResult {
    /// The count of the bytes.
    pub count: u32,
}

impl Spell for WriteResult {
    ghost use Rattle.std.specs.Prelude.{None};
    ghost use Rattle.nfs_ops.specs.Forms.{write_result};
    ghost use Rattle.nfs_ops.specs.Views.{write_result_value};

    ghost form = { write_result };

    ghost view = { write_result_value };

    ghost normal = { None };

    fn write<A: Allocator>(self, writer: &mut Writer<A>) -> Result<(), Full> {
        (self.count, (Always::<2>, Zeros)).write(writer)
    }
}

impl<'a> Wire<'a> for WriteResult {
    fn read(reader: &mut Reader<'a>) -> Result<Self, XdrFault> {
        let (count, (Always::<2>, Zeros)) = Wire::read(reader)?;
        Ok(WriteResult { count })
    }
}
