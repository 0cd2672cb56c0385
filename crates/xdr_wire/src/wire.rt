//! Values that have an encoding in XDR (RFC 4506).
ghost use Rattle.std.specs.Prelude.{◌≡◌, OnOk};
ghost use Rattle.xdr_wire.specs.Xdr.{Xdr, Value, HasSpelling, spelling};
ghost use Rattle.xdr_wire.specs.Reading.{Gives, read_at};
ghost use Rattle.xdr_wire.specs.Wire.{Normal, normalized, in_normal_form};
ghost use Rattle.xdr_wire.specs.Buffer.{Puts};

use crate::fault::XdrFault;
use crate::reader::Reader;
use crate::writer::{Full, Writer};
use std::alloc::Allocator;

/// A type whose values one XDR type encodes, its form, and which can be written.
///
/// A composite type writes the tuple of its fields, which writes all of them or none.
pub trait Spell: Sized + Drop {
    ghost form: { Xdr };

    // the value of the XDR type that is written
    ghost view: { Self → Value form };

    // Values of the XDR type that mean the same have one normal form, as when a field is ignored. `None`: each value is
    // its own normal form.
    ghost normal: { Normal (Value form) };

    /// Writes the encoding of the value, or nothing. `Full`: exactly if the room is less than the encoding takes. The
    /// bytes that are written encode the value, which is in normal form, and are therefore read back as it.
    fn write<A: Allocator>(self, writer: &mut Writer<A>) -> Result<(), Full>
        ensures has_spelling { OnOk result (HasSpelling form (view self)) }
        ensures in_normal_form { OnOk result (normalized normal (view self) ≡ view self) }
        ensures puts { Puts writer.old writer.new (spelling form (view self)) result };
}

/// A type whose values are read from the encodings of its form, and written.
pub trait Wire<'a>: Spell {
    /// Reads the value that the bytes begin with an encoding of. The result borrows from the bytes. A fault leaves the
    /// reader at the beginning of the value.
    fn read(reader: &mut Reader<'a>) -> Result<Self, XdrFault>
        ensures { Gives Self.view reader.old reader.new result
            (in_normal_form Self.normal (read_at Self.form reader.old)) };
}
