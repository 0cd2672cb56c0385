//! Filehandles, `nfs_fh4` (RFC 8881, section 4).
ghost use Rattle.std.specs.Prelude.{◌≡◌};
ghost use Rattle.nfs_types.specs.Handles.{object_handle, object_of};
ghost use Rattle.nfs_types.specs.Views.{handle_value};

use crate::filled::is_filled;
use crate::status::Status;
use std::alloc::Allocator;
use xdr_wire::{Full, Opaque, Reader, Spell, Wire, Writer, XdrFault};

/// A filehandle, `nfs_fh4` (RFC 8881, section 4): at most 128 bytes.
#[derive(Clone, Copy, Debug)]
pub enum Handle<'a> {
    /// A filehandle that was sent and isn't checked yet.
    Sent(Opaque<'a, 128>),
    /// This server's own filehandle of the object with this number: 8 zero bytes and the number.
    Object(u64),
}

/// The filehandle of the object with this number.
fn bytes_of(number: u64) -> [u8; 16]
    ensures { result ≡ object_handle number }
{
    let mut bytes = [0; 16];
    bytes[8..].copy_from_slice(&number.to_be_bytes());
    bytes
}

/// The number of the object that a filehandle of these bytes names.
fn object_in(bytes: &[u8]) -> Result<u64, Status>
    ensures { result ≡ object_of bytes.now }
{
    if bytes.len() != 16 {
        return Err(Status::BadHandle);
    }
    let (prefix, item) = bytes.split_at(8);
    if is_filled(prefix, 0) {
        Ok(u64::from_be_bytes([
            item[0], item[1], item[2], item[3], item[4], item[5], item[6], item[7],
        ]))
    } else {
        Err(Status::BadHandle)
    }
}

/// The number of the object that this server's own filehandle names.
fn own(number: u64) -> Result<u64, Status>
    ensures { result ≡ object_of (object_handle number) }
{
    Ok(number)
}

impl<'a> Handle<'a> {
    /// The number of the object that the filehandle names, whether or not the object exists. `BadHandle`: the
    /// filehandle isn't 16 bytes long, or doesn't begin with 8 zero bytes.
    pub fn object(&self) -> Result<u64, Status>
        ensures { result ≡ object_of (handle_value self.now) }
    {
        match *self {
            Handle::Sent(item) => object_in(item.bytes),
            Handle::Object(number) => own(number),
        }
    }
}

impl<'a> Spell for Handle<'a> {
    ghost use Rattle.std.specs.Prelude.{None};
    ghost use Rattle.nfs_types.specs.Forms.{handle};

    ghost form = { handle };

    ghost view = { handle_value };

    ghost normal = { None };

    fn write<A: Allocator>(self, writer: &mut Writer<A>) -> Result<(), Full> {
        match self {
            Handle::Sent(item) => item.write(writer),
            Handle::Object(number) => writer.put_opaque(&bytes_of(number)),
        }
    }
}

impl<'a> Wire<'a> for Handle<'a> {
    fn read(reader: &mut Reader<'a>) -> Result<Self, XdrFault> {
        Ok(Handle::Sent(Wire::read(reader)?))
    }
}
