//! OPEN (RFC 8881, section 18.16): its arguments and its result.
use crate::always::Always;
use crate::bytes::Bytes;
use crate::change_info::ChangeInfo;
use nfs_types::{Attributes, Bitmap, StateId};
use std::alloc::Allocator;
use xdr_wire::{Full, Opaque, Reader, Spell, Wire, Writer, XdrFault};

/// The number of OPEN.
pub const OP_OPEN: u32 = 18;

/// Whether the file of an OPEN may be created (RFC 8881, section 18.16, `openflag4`). Exclusive
/// creation isn't supported.
#[derive(Clone, Copy)]
pub enum OpenHow<'a> {
    /// OPEN4_NOCREATE (0): the file must exist.
    NoCreate,
    /// UNCHECKED4 (0): the file is created with these attributes, unless it exists.
    Unchecked(Attributes<'a>),
    /// GUARDED4 (1): the file is created with these attributes, and must not exist.
    Guarded(Attributes<'a>),
}

impl<'a> Spell for OpenHow<'a> {
    ghost use Rattle.std.specs.Prelude.{Some};
    ghost use Rattle.nfs_ops.specs.Forms.{open_how, open_how_normal};
    ghost use Rattle.nfs_ops.specs.Views.{open_how_value};

    ghost form = { open_how };

    ghost view = { open_how_value };

    ghost normal = { Some open_how_normal };

    fn write<A: Allocator>(self, writer: &mut Writer<A>) -> Result<(), Full> {
        match self {
            OpenHow::NoCreate => (0u32, ()).write(writer),
            OpenHow::Unchecked(attributes) => (1u32, (0u32, attributes)).write(writer),
            OpenHow::Guarded(attributes) => (1u32, (1u32, attributes)).write(writer),
        }
    }
}

impl<'a> Wire<'a> for OpenHow<'a> {
    fn read(reader: &mut Reader<'a>) -> Result<Self, XdrFault> {
        let mut ahead = reader.fork();
        let how = match ahead.u32()? {
            0 => OpenHow::NoCreate,
            1 => match ahead.u32()? {
                0 => OpenHow::Unchecked(Wire::read(&mut ahead)?),
                1 => OpenHow::Guarded(Wire::read(&mut ahead)?),
                _ => return Err(XdrFault::BadChoice),
            },
            _ => return Err(XdrFault::BadChoice),
        };
        *reader = ahead;
        Ok(how)
    }
}

/// The file of an OPEN (RFC 8881, section 18.16, `open_claim4`). Reclaims and delegations aren't supported.
#[derive(Clone, Copy)]
pub enum OpenClaim<'a> {
    /// CLAIM_NULL (0): the file of this name in the current directory.
    ByName(Bytes<'a>),
    /// CLAIM_FH (4): the current object.
    ByHandle,
}

impl<'a> Spell for OpenClaim<'a> {
    ghost use Rattle.std.specs.Prelude.{None};
    ghost use Rattle.nfs_ops.specs.Forms.{open_claim};
    ghost use Rattle.nfs_ops.specs.Views.{open_claim_value};

    ghost form = { open_claim };

    ghost view = { open_claim_value };

    ghost normal = { None };

    fn write<A: Allocator>(self, writer: &mut Writer<A>) -> Result<(), Full> {
        match self {
            OpenClaim::ByName(name) => (0u32, name).write(writer),
            OpenClaim::ByHandle => (4u32, ()).write(writer),
        }
    }
}

impl<'a> Wire<'a> for OpenClaim<'a> {
    fn read(reader: &mut Reader<'a>) -> Result<Self, XdrFault> {
        let mut ahead = reader.fork();
        let claim = match ahead.u32()? {
            0 => OpenClaim::ByName(Wire::read(&mut ahead)?),
            4 => OpenClaim::ByHandle,
            _ => return Err(XdrFault::BadChoice),
        };
        *reader = ahead;
        Ok(claim)
    }
}

/// Opens a file, which may be created. The arguments of OPEN (RFC 8881, section 18.16).
#[derive(Clone, Copy)]
pub struct OpenArgs<'a> {
    /// Ignored.
    pub seqid: u32,
    /// The share access: the low byte is 1 for reading, 2 for writing, 3 for both.
    pub access: u32,
    /// The share deny: which access of other opens to deny.
    pub deny: u32,
    /// The client of the owner, ignored.
    pub client: u64,
    /// The open owner, as the client names it.
    pub owner: Opaque<'a, 1024>,
    /// Whether the file may be created.
    pub how: OpenHow<'a>,
    /// The claim: the file.
    pub claim: OpenClaim<'a>,
}

impl<'a> Spell for OpenArgs<'a> {
    ghost use Rattle.std.specs.Prelude.{Some};
    ghost use Rattle.nfs_ops.specs.Forms.{open_args, open_normal};
    ghost use Rattle.nfs_ops.specs.Views.{open_args_value};

    ghost form = { open_args };

    ghost view = { open_args_value };

    ghost normal = { Some open_normal };

    fn write<A: Allocator>(self, writer: &mut Writer<A>) -> Result<(), Full> {
        let last = (self.owner, (self.how, self.claim));
        let rest = (self.deny, (self.client, last));
        (self.seqid, (self.access, rest)).write(writer)
    }
}

impl<'a> Wire<'a> for OpenArgs<'a> {
    fn read(reader: &mut Reader<'a>) -> Result<Self, XdrFault> {
        let (seqid, (access, (deny, (client, (owner, (how, claim)))))) = Wire::read(reader)?;
        Ok(OpenArgs {
            seqid,
            access,
            deny,
            client,
            owner,
            how,
            claim,
        })
    }
}

/// The file is open. The result of OPEN (RFC 8881, section 18.16).
#[derive(Clone, Copy)]
pub struct OpenResult {
    /// The stateid of the open.
    pub stateid: StateId,
    /// The change of the directory.
    pub change: ChangeInfo,
    /// The attributes that were set.
    pub set: Bitmap,
}

impl Spell for OpenResult {
    ghost use Rattle.std.specs.Prelude.{Some};
    ghost use Rattle.nfs_ops.specs.Forms.{open_result, open_result_normal};
    ghost use Rattle.nfs_ops.specs.Views.{open_result_value};

    ghost form = { open_result };

    ghost view = { open_result_value };

    ghost normal = { Some open_result_normal };

    fn write<A: Allocator>(self, writer: &mut Writer<A>) -> Result<(), Full> {
        let last = (Always::<0>, (self.set, Always::<0>));
        (self.stateid, (self.change, last)).write(writer)
    }
}

impl<'a> Wire<'a> for OpenResult {
    fn read(reader: &mut Reader<'a>) -> Result<Self, XdrFault> {
        let (stateid, (change, (Always::<0>, (set, Always::<0>)))) = Wire::read(reader)?;
        Ok(OpenResult {
            stateid,
            change,
            set,
        })
    }
}
