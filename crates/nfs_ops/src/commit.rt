//! COMMIT (RFC 8881, section 18.3): its arguments and its result.
use crate::always::Zeros;
use std::alloc::Allocator;
use xdr_wire::{Full, Reader, Spell, Wire, Writer, XdrFault};

/// The number of COMMIT.
pub const OP_COMMIT: u32 = 5;

/// Makes the bytes written before stable. The arguments of COMMIT (RFC 8881, section 18.3).
#[derive(Clone, Copy)]
pub struct CommitArgs {
    /// The offset of the bytes.
    pub offset: u64,
    /// The count of the bytes; 0 for all.
    pub count: u32,
}

impl Spell for CommitArgs {
    ghost use Rattle.std.specs.Prelude.{None};
    ghost use Rattle.nfs_ops.specs.Forms.{commit_args};
    ghost use Rattle.nfs_ops.specs.Views.{commit_args_value};

    ghost form = { commit_args };

    ghost view = { commit_args_value };

    ghost normal = { None };

    fn write<A: Allocator>(self, writer: &mut Writer<A>) -> Result<(), Full> {
        (self.offset, self.count).write(writer)
    }
}

impl<'a> Wire<'a> for CommitArgs {
    fn read(reader: &mut Reader<'a>) -> Result<Self, XdrFault> {
        let (offset, count) = Wire::read(reader)?;
        Ok(CommitArgs { offset, count })
    }
}

/// The verifier of this server, which has no meaning: data that were written are stable. The result of COMMIT (RFC
/// 8881, section 18.3).
#[derive(Clone, Copy)]
pub struct CommitResult;

impl Spell for CommitResult {
    ghost use Rattle.std.specs.Prelude.{None};
    ghost use Rattle.nfs_ops.specs.Forms.{commit_result};
    ghost use Rattle.nfs_ops.specs.Views.{zeros_value};

    ghost form = { commit_result };

    ghost view = { λ _. zeros_value };

    ghost normal = { None };

    fn write<A: Allocator>(self, writer: &mut Writer<A>) -> Result<(), Full> {
        Zeros.write(writer)
    }
}

impl<'a> Wire<'a> for CommitResult {
    fn read(reader: &mut Reader<'a>) -> Result<Self, XdrFault> {
        let Zeros = Wire::read(reader)?;
        Ok(CommitResult)
    }
}
