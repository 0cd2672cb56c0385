//! Arrays of any length (RFC 4506, section 4.13).
ghost use Rattle.std.specs.Prelude.{◌≡◌, ◌≤◌, length, is_ok, IsTrue};
ghost use Rattle.xdr_wire.specs.Reading.{Gives, read_at, items_at};
ghost use Rattle.xdr_wire.specs.Wire.{array_values, values_of, TakesFirst};

use crate::fault::XdrFault;
use crate::reader::Reader;
use crate::wire::{Spell, Wire};
use crate::writer::{Full, Writer};
use std::alloc::Allocator;
use std::marker::PhantomData;

/// An array of at most one item (RFC 4506, section 4.13): a count of 0, or a count of 1 and the item.
#[derive(Clone, Copy, Debug, PartialEq, Eq, Drop)]
pub struct AtMostOne<T>(pub Option<T>);

impl<T: Spell> Spell for AtMostOne<T> {
    ghost use Rattle.xdr_wire.specs.Xdr.{array};
    ghost use Rattle.xdr_wire.specs.Wire.{at_most_one, each};

    ghost form = { array 1 T.form };

    ghost view = { λ x. at_most_one T.view x.0 };

    ghost normal = { each T.normal };

    fn write<A: Allocator>(self, writer: &mut Writer<A>) -> Result<(), Full> {
        match self.0 {
            None => writer.put_u32(0),
            Some(item) => (1u32, item).write(writer),
        }
    }
}

impl<'a, T: Wire<'a>> Wire<'a> for AtMostOne<T> {
    fn read(reader: &mut Reader<'a>) -> Result<Self, XdrFault> {
        let mut ahead = reader.fork();
        if ahead.count(1)? == 0 {
            *reader = ahead;
            return Ok(AtMostOne(None));
        }
        let item = T::read(&mut ahead)?;
        *reader = ahead;
        Ok(AtMostOne(Some(item)))
    }
}

/// An array of at most `MAX` items (section 4.13), kept as its bytes: each item is decoded when it is taken.
#[derive(Drop)]
pub struct Array<'a, T: Wire<'a>, const MAX: u32> {
    /// The number of items that are left.
    pub count: u32,
    /// The encodings of these items, one after the other, and possibly more bytes.
    pub bytes: &'a [u8],
    of: PhantomData<T>,
    ghost within: { count ≤ MAX },
    ghost spelled: { IsTrue (is_ok (items_at (read_at T.form) count bytes.now)) },
}

impl<'a, T: Wire<'a>, const MAX: u32> Array<'a, T, MAX> {
    /// The number of items that are left.
    pub fn len(&self) -> usize
        ensures { result ≡ length (array_values T.form T.normal self.now.count self.now.bytes.now) }
    {
        self.count as usize
    }

    /// Takes the first item that is left.
    pub fn next(&mut self) -> Option<T>
        ensures { TakesFirst T.view result (array_values T.form T.normal self.old.count self.old.bytes.now)
            (array_values T.form T.normal self.new.count self.new.bytes.now) }
    {
        if self.count == 0 {
            return None;
        }
        let mut reader = Reader::new(self.bytes);
        let item = T::read(&mut reader).ok()?;
        *self = Array {
            count: self.count - 1,
            bytes: reader.rest(),
            of: PhantomData,
        };
        Some(item)
    }
}

/// Decodes items, one after the other, and discards them.
fn pass_items<'a, T: Wire<'a>>(reader: &mut Reader<'a>, count: u32) -> Result<(), XdrFault>
    ensures { Gives (λ _. values_of (items_at (read_at T.form) count reader.old)) reader.old reader.new result
        (items_at (read_at T.form) count reader.old) }
{
    let mut ahead = reader.fork();
    for _ in 0..count {
        T::read(&mut ahead)?;
    }
    *reader = ahead;
    Ok(())
}

impl<'a, T: Wire<'a>, const MAX: u32> Spell for Array<'a, T, MAX> {
    ghost use Rattle.xdr_wire.specs.Xdr.{array};
    ghost use Rattle.xdr_wire.specs.Wire.{each};

    ghost form = { array MAX T.form };

    ghost view = { λ a. array_values T.form T.normal a.count a.bytes.now };

    ghost normal = { each T.normal };

    fn write<A: Allocator>(self, writer: &mut Writer<A>) -> Result<(), Full> {
        let start = writer.len();
        writer.put_u32(self.count)?;
        let mut left = self;
        while let Some(item) = left.next() {
            if item.write(writer).is_err() {
                writer.truncate(start);
                return Err(Full);
            }
        }
        Ok(())
    }
}

impl<'a, T: Wire<'a>, const MAX: u32> Wire<'a> for Array<'a, T, MAX> {
    fn read(reader: &mut Reader<'a>) -> Result<Self, XdrFault> {
        let mut ahead = reader.fork();
        let count = ahead.count(MAX as usize)?;
        let bytes = ahead.rest();
        pass_items::<T>(&mut ahead, count)?;
        *reader = ahead;
        Ok(Array {
            count,
            bytes,
            of: PhantomData,
        })
    }
}
