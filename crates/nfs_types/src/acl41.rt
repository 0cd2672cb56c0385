//! An access control list (ACL) with its flags, `nfsacl41` (RFC 8881, section 6.4.3.2).
use std::alloc::Allocator;
use xdr_wire::{Full, Reader, Spell, Wire, Writer, XdrFault};

/// A part of an ACL as it is sent, `nfsacl41` (RFC 8881, section 6.4.3.2): the flags of the ACL, and then the access
/// control entries (ACEs). The ACEs are read as [`xdr_wire::Array`], and written as [`crate::Aces`].
#[derive(Clone, Copy, Drop)]
pub struct Acl41<E> {
    /// The flags of the ACL, `aclflag4`.
    pub flags: u32,
    /// The ACEs, `nfsace4<>`.
    pub entries: E,
}

impl<E: Spell> Spell for Acl41<E> {
    ghost use Rattle.std.specs.Prelude.{None};
    ghost use Rattle.xdr_wire.specs.Xdr.{pair, uint};
    ghost use Rattle.xdr_wire.specs.Wire.{both};

    ghost form = { pair uint E.form };

    ghost view = { λ a. (a.flags, E.view a.entries) };

    ghost normal = { both None E.normal };

    fn write<A: Allocator>(self, writer: &mut Writer<A>) -> Result<(), Full> {
        let Acl41 { flags, entries } = self;
        (flags, entries).write(writer)
    }
}

impl<'a, E: Wire<'a>> Wire<'a> for Acl41<E> {
    fn read(reader: &mut Reader<'a>) -> Result<Self, XdrFault> {
        let (flags, entries) = Wire::read(reader)?;
        Ok(Acl41 { flags, entries })
    }
}
