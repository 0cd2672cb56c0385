//! A number that is always the same.
use std::alloc::Allocator;
use xdr_wire::{Full, Reader, Spell, Wire, Writer, XdrFault};

/// A word that is always `N`: an enum or a union that has only one number in use. `BadChoice`: another number.
#[derive(Clone, Copy)]
pub struct Always<const N: u32>;

impl<const N: u32> Spell for Always<N> {
    ghost use Rattle.std.specs.Prelude.{None};
    ghost use Rattle.std.proofs.Common.{inl};
    ghost use Rattle.nfs_ops.specs.Forms.{always};

    ghost form = { always N };

    ghost view = { λ _. inl tt };

    ghost normal = { None };

    fn write<A: Allocator>(self, writer: &mut Writer<A>) -> Result<(), Full> {
        writer.put_u32(N)
    }
}

impl<'a, const N: u32> Wire<'a> for Always<N> {
    fn read(reader: &mut Reader<'a>) -> Result<Self, XdrFault> {
        let mut ahead = reader.fork();
        if ahead.u32()? != N {
            return Err(XdrFault::BadChoice);
        }
        *reader = ahead;
        Ok(Always)
    }
}

/// Eight zero bytes: a verifier without meaning, or the number 0.
#[derive(Clone, Copy)]
pub struct Zeros;

impl Spell for Zeros {
    ghost use Rattle.std.specs.Prelude.{None};
    ghost use Rattle.nfs_ops.specs.Forms.{zeros};
    ghost use Rattle.nfs_ops.specs.Views.{zeros_value};

    ghost form = { zeros };

    ghost view = { λ _. zeros_value };

    ghost normal = { None };

    fn write<A: Allocator>(self, writer: &mut Writer<A>) -> Result<(), Full> {
        (Always::<0>, Always::<0>).write(writer)
    }
}

impl<'a> Wire<'a> for Zeros {
    fn read(reader: &mut Reader<'a>) -> Result<Self, XdrFault> {
        let (Always::<0>, Always::<0>) = Wire::read(reader)?;
        Ok(Zeros)
    }
}
