//! READ (RFC 8881, section 18.22): its arguments and its result.
ghost use Rattle.std.specs.Prelude.{◌≤◌, ◌+◌, ◌++◌, length};
ghost use Rattle.std.specs.Int.{w32, to_be_bytes};
ghost use Rattle.xdr_wire.specs.Xdr.{number_of_bool};
ghost use Rattle.xdr_wire.specs.Buffer.{Appends};
ghost use Rattle.nfs_ops.specs.Forms.{read_size};
ghost use Rattle.nfs_ops.specs.Given.{read_outcome};
ghost use Rattle.nfs_ops.specs.Items.{ItemHasSpelling, ItemIsNormal, item_spelling};
ghost use Rattle.nfs_ops.specs.Results.{outcome_item};

use crate::bytes::Bytes;
use nfs_types::StateId;
use std::alloc::Allocator;
use xdr_wire::{Full, Reader, Source, Spell, Wire, Writer, XdrFault};

/// The number of READ.
pub const OP_READ: u32 = 25;

/// Requests bytes of a file. The arguments of READ (RFC 8881, section 18.22).
#[derive(Clone, Copy)]
pub struct ReadArgs {
    /// The stateid of an open, or a special one.
    pub stateid: StateId,
    /// The offset of the bytes.
    pub offset: u64,
    /// The largest number of bytes to return.
    pub count: u32,
}

impl Spell for ReadArgs {
    ghost use Rattle.std.specs.Prelude.{None};
    ghost use Rattle.nfs_ops.specs.Forms.{read_args};
    ghost use Rattle.nfs_ops.specs.Views.{read_args_value};

    ghost form = { read_args };

    ghost view = { read_args_value };

    ghost normal = { None };

    fn write<A: Allocator>(self, writer: &mut Writer<A>) -> Result<(), Full> {
        (self.stateid, (self.offset, self.count)).write(writer)
    }
}

impl<'a> Wire<'a> for ReadArgs {
    fn read(reader: &mut Reader<'a>) -> Result<Self, XdrFault> {
        let (stateid, (offset, count)) = Wire::read(reader)?;
        Ok(ReadArgs {
            stateid,
            offset,
            count,
        })
    }
}

/// The largest number of bytes that this server returns for a READ.
pub const MAX_READ: u32 = 32_768;

/// Bytes of the file. The result of READ (RFC 8881, section 18.22).
#[derive(Clone, Copy)]
pub struct ReadResult<'a> {
    /// Whether the file ends after the bytes.
    pub eof: bool,
    /// The bytes; this server returns at most 32,768.
    pub data: Bytes<'a>,
}

impl<'a> Spell for ReadResult<'a> {
    ghost use Rattle.std.specs.Prelude.{None};
    ghost use Rattle.nfs_ops.specs.Forms.{read_result};
    ghost use Rattle.nfs_ops.specs.Views.{read_result_value};

    ghost form = { read_result };

    ghost view = { read_result_value };

    ghost normal = { None };

    fn write<A: Allocator>(self, writer: &mut Writer<A>) -> Result<(), Full> {
        (self.eof, self.data).write(writer)
    }
}

impl<'a> Wire<'a> for ReadResult<'a> {
    fn read(reader: &mut Reader<'a>) -> Result<Self, XdrFault> {
        let (eof, data) = Wire::read(reader)?;
        Ok(ReadResult { eof, data })
    }
}

/// Writes number, status OK and eof. The room suffices for them.
fn put_head<A: Allocator>(eof: bool, writer: &mut Writer<A>)
    requires { 12 ≤ writer.old.room }
    ensures { Appends writer.old writer.new
        (to_be_bytes w32 OP_READ ++ to_be_bytes w32 0 ++ to_be_bytes w32 (number_of_bool eof)) }
{
    (OP_READ, (0u32, eof)).write(writer).unwrap();
}

/// Writes the result of a READ that is OK: whether the file ends after the bytes, and the bytes, which are at most
/// `most`. The source copies them straight into the buffer that the reply is sent from.
pub fn write_read<S: Source, A: Allocator>(
    eof: bool,
    most: usize,
    source: S,
    writer: &mut Writer<A>,
)
    requires most { most ≤ 32768 }
    requires few { length (S.gives source most) ≤ most }
    requires room { read_size most ≤ writer.old.room }
    ensures has_spelling { ItemHasSpelling (outcome_item (read_outcome eof (S.gives source most))) }
    ensures in_normal_form { ItemIsNormal (outcome_item (read_outcome eof (S.gives source most))) }
    ensures written { Appends writer.old writer.new
        (item_spelling (outcome_item (read_outcome eof (S.gives source most)))) }
    ensures within { length writer.new.bytes ≤ length writer.old.bytes + read_size most }
{
    put_head(eof, writer);
    writer.put_opaque_by(most, source);
}
