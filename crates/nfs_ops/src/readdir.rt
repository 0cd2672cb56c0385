//! READDIR (RFC 8881, section 18.23): its arguments and its result.
use crate::always::Zeros;
use crate::bytes::Bytes;
use nfs_types::{Attributes, Bitmap, GivenAttributes};
use std::alloc::Allocator;
use xdr_wire::{Chain, Full, Reader, Spell, Wire, Writer, XdrFault};

/// The number of READDIR.
pub const OP_READDIR: u32 = 26;

/// Requests entries of a directory. The arguments of READDIR (RFC 8881, section 18.23).
#[derive(Clone, Copy)]
pub struct ReadDirArgs {
    /// The cookie of the last entry that was returned, 0 at first.
    pub cookie: u64,
    /// Ignored.
    pub verifier: [u8; 8],
    /// Ignored.
    pub dircount: u32,
    /// The largest number of bytes of the result.
    pub maxcount: u32,
    /// The attributes of each entry.
    pub asked: Bitmap,
}

impl Spell for ReadDirArgs {
    ghost use Rattle.std.specs.Prelude.{Some};
    ghost use Rattle.nfs_ops.specs.Forms.{readdir_args, readdir_normal};
    ghost use Rattle.nfs_ops.specs.Views.{readdir_args_value};

    ghost form = { readdir_args };

    ghost view = { readdir_args_value };

    ghost normal = { Some readdir_normal };

    fn write<A: Allocator>(self, writer: &mut Writer<A>) -> Result<(), Full> {
        let verifier = self.verifier;
        let last = (self.dircount, (self.maxcount, self.asked));
        (self.cookie, (verifier, last)).write(writer)
    }
}

impl<'a> Wire<'a> for ReadDirArgs {
    fn read(reader: &mut Reader<'a>) -> Result<Self, XdrFault> {
        let (cookie, (verifier, (dircount, (maxcount, asked)))) = Wire::read(reader)?;
        Ok(ReadDirArgs {
            cookie,
            verifier,
            dircount,
            maxcount,
            asked,
        })
    }
}

/// An entry of a directory (RFC 8881, section 18.23, `entry4`).
#[derive(Clone, Copy)]
pub struct Entry<'a> {
    /// The cookie, rising from entry to entry.
    pub cookie: u64,
    pub name: Bytes<'a>,
    /// The attributes that are requested and supported, with their values.
    pub attributes: Attributes<'a>,
}

impl<'a> Spell for Entry<'a> {
    ghost use Rattle.std.specs.Prelude.{Some};
    ghost use Rattle.nfs_ops.specs.Forms.{entry, entry_normal};
    ghost use Rattle.nfs_ops.specs.ItemViews.{entry_value};

    ghost form = { entry };

    ghost view = { entry_value };

    ghost normal = { Some entry_normal };

    fn write<A: Allocator>(self, writer: &mut Writer<A>) -> Result<(), Full> {
        (self.cookie, (self.name, self.attributes)).write(writer)
    }
}

impl<'a> Wire<'a> for Entry<'a> {
    fn read(reader: &mut Reader<'a>) -> Result<Self, XdrFault> {
        let (cookie, (name, attributes)) = Wire::read(reader)?;
        Ok(Entry {
            cookie,
            name,
            attributes,
        })
    }
}

/// An entry that is written, with the attributes that are returned for its object (RFC 8881, section 18.23, `entry4`).
#[derive(Clone, Copy)]
pub struct GivenEntry<'a> {
    /// The cookie, rising from entry to entry.
    pub cookie: u64,
    pub name: Bytes<'a>,
    /// The attributes requested that may be returned.
    pub attributes: GivenAttributes<'a>,
}

impl<'a> Spell for GivenEntry<'a> {
    ghost use Rattle.std.specs.Prelude.{Some};
    ghost use Rattle.nfs_ops.specs.Forms.{entry, entry_normal};
    ghost use Rattle.nfs_ops.specs.ItemViews.{given_entry_value};

    ghost form = { entry };

    ghost view = { given_entry_value };

    ghost normal = { Some entry_normal };

    fn write<A: Allocator>(self, writer: &mut Writer<A>) -> Result<(), Full> {
        (self.cookie, (self.name, self.attributes)).write(writer)
    }
}

/// Entries of the directory. The result of READDIR (RFC 8881, section 18.23).
#[derive(Drop)]
pub struct ReadDirResult<'a> {
    /// The entries, in the order of their cookies.
    pub entries: Chain<'a, Entry<'a>>,
    /// Whether the directory ends after the entries.
    pub eof: bool,
}

impl<'a> Spell for ReadDirResult<'a> {
    ghost use Rattle.std.specs.Prelude.{Some};
    ghost use Rattle.nfs_ops.specs.Forms.{readdir_result, readdir_result_normal};
    ghost use Rattle.nfs_ops.specs.Views.{readdir_result_value};

    ghost form = { readdir_result };

    ghost view = { readdir_result_value };

    ghost normal = { Some readdir_result_normal };

    fn write<A: Allocator>(self, writer: &mut Writer<A>) -> Result<(), Full> {
        let ReadDirResult { entries, eof } = self;
        (Zeros, (entries, eof)).write(writer)
    }
}

impl<'a> Wire<'a> for ReadDirResult<'a> {
    fn read(reader: &mut Reader<'a>) -> Result<Self, XdrFault> {
        let (Zeros, (entries, eof)) = Wire::read(reader)?;
        Ok(ReadDirResult { entries, eof })
    }
}
