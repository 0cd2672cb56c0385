//! CREATE (RFC 8881, section 18.4): its arguments and its result.
use crate::bytes::Bytes;
use crate::change_info::ChangeInfo;
use nfs_types::{Attributes, Bitmap};
use std::alloc::Allocator;
use xdr_wire::{Full, Reader, Spell, Wire, Writer, XdrFault};

/// The number of CREATE.
pub const OP_CREATE: u32 = 6;

/// The type of an object to be created, with its data (RFC 8881, section 18.4, `createtype4`).
#[derive(Clone, Copy)]
pub enum CreateType<'a> {
    /// NF4REG (1).
    File,
    /// NF4DIR (2).
    Directory,
    /// NF4BLK (3), with the numbers of a device.
    Block((u32, u32)),
    /// NF4CHR (4), with the numbers of a device.
    Character((u32, u32)),
    /// NF4LNK (5), a symbolic link with its text.
    Link(Bytes<'a>),
    /// NF4SOCK (6).
    Socket,
    /// NF4FIFO (7).
    Fifo,
    /// NF4ATTRDIR (8).
    AttributeDirectory,
    /// NF4NAMEDATTR (9).
    NamedAttribute,
}

impl<'a> Spell for CreateType<'a> {
    ghost use Rattle.std.specs.Prelude.{None};
    ghost use Rattle.nfs_ops.specs.Forms.{create_type};
    ghost use Rattle.nfs_ops.specs.Views.{create_type_value};

    ghost form = { create_type };

    ghost view = { create_type_value };

    ghost normal = { None };

    fn write<A: Allocator>(self, writer: &mut Writer<A>) -> Result<(), Full> {
        match self {
            CreateType::File => (1u32, ()).write(writer),
            CreateType::Directory => (2u32, ()).write(writer),
            CreateType::Block(device) => (3u32, device).write(writer),
            CreateType::Character(device) => (4u32, device).write(writer),
            CreateType::Link(text) => (5u32, text).write(writer),
            CreateType::Socket => (6u32, ()).write(writer),
            CreateType::Fifo => (7u32, ()).write(writer),
            CreateType::AttributeDirectory => (8u32, ()).write(writer),
            CreateType::NamedAttribute => (9u32, ()).write(writer),
        }
    }
}

impl<'a> Wire<'a> for CreateType<'a> {
    fn read(reader: &mut Reader<'a>) -> Result<Self, XdrFault> {
        let mut ahead = reader.fork();
        let kind = match ahead.u32()? {
            1 => CreateType::File,
            2 => CreateType::Directory,
            3 => CreateType::Block(Wire::read(&mut ahead)?),
            4 => CreateType::Character(Wire::read(&mut ahead)?),
            5 => CreateType::Link(Wire::read(&mut ahead)?),
            6 => CreateType::Socket,
            7 => CreateType::Fifo,
            8 => CreateType::AttributeDirectory,
            9 => CreateType::NamedAttribute,
            _ => return Err(XdrFault::BadChoice),
        };
        *reader = ahead;
        Ok(kind)
    }
}

/// Creates an object that isn't a file. The arguments of CREATE (RFC 8881, section 18.4).
#[derive(Clone, Copy)]
pub struct CreateArgs<'a> {
    /// The type of the object.
    pub kind: CreateType<'a>,
    /// The name of the object in the current directory.
    pub name: Bytes<'a>,
    /// The initial attributes.
    pub attributes: Attributes<'a>,
}

impl<'a> Spell for CreateArgs<'a> {
    ghost use Rattle.std.specs.Prelude.{Some};
    ghost use Rattle.nfs_ops.specs.Forms.{create_args, create_normal};
    ghost use Rattle.nfs_ops.specs.Views.{create_args_value};

    ghost form = { create_args };

    ghost view = { create_args_value };

    ghost normal = { Some create_normal };

    fn write<A: Allocator>(self, writer: &mut Writer<A>) -> Result<(), Full> {
        (self.kind, (self.name, self.attributes)).write(writer)
    }
}

impl<'a> Wire<'a> for CreateArgs<'a> {
    fn read(reader: &mut Reader<'a>) -> Result<Self, XdrFault> {
        let (kind, (name, attributes)) = Wire::read(reader)?;
        Ok(CreateArgs {
            kind,
            name,
            attributes,
        })
    }
}

/// The object was created. The result of CREATE (RFC 8881, section 18.4).
#[derive(Clone, Copy)]
pub struct CreateResult {
    /// The change of the directory.
    pub change: ChangeInfo,
    /// The attributes that were set.
    pub set: Bitmap,
}

impl Spell for CreateResult {
    ghost use Rattle.std.specs.Prelude.{Some};
    ghost use Rattle.nfs_ops.specs.Forms.{create_result, create_result_normal};
    ghost use Rattle.nfs_ops.specs.Views.{create_result_value};

    ghost form = { create_result };

    ghost view = { create_result_value };

    ghost normal = { Some create_result_normal };

    fn write<A: Allocator>(self, writer: &mut Writer<A>) -> Result<(), Full> {
        (self.change, self.set).write(writer)
    }
}

impl<'a> Wire<'a> for CreateResult {
    fn read(reader: &mut Reader<'a>) -> Result<Self, XdrFault> {
        let (change, set) = Wire::read(reader)?;
        Ok(CreateResult { change, set })
    }
}
