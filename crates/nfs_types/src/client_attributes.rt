//! Attributes as a client writes them.
ghost use Rattle.std.specs.Prelude.{◌≡◌, ◌≤◌, option_map};
ghost use Rattle.xdr_wire.specs.Buffer.{Puts};
ghost use Rattle.nfs_types.specs.Seen.{bit_if, optional_spelling, client_part, second_word, client_set, client_values};
ghost use Rattle.nfs_types.specs.ClientViews.{client_value};
ghost use Rattle.nfs_types.specs.Views.{bitmap_value};

use crate::aces::Aces;
use crate::acl41::Acl41;
use crate::attribute::Attribute;
use crate::bitmap::Bitmap;
use crate::set_time::SentTime;
use std::alloc::Allocator;
use xdr_wire::{Full, Opaque, Spell, Writer};

/// The attributes that a client writes, by rising number.
const CLIENT_ATTRIBUTES: [Attribute; 11] = [
    Attribute::ObjectType,
    Attribute::Size,
    Attribute::RdattrError,
    Attribute::Acl,
    Attribute::Mode,
    Attribute::Owner,
    Attribute::OwnerGroup,
    Attribute::TimeAccessSet,
    Attribute::TimeModifySet,
    Attribute::Dacl,
    Attribute::Sacl,
];

/// The attributes that a client sends. `None`: the attribute isn't sent.
#[derive(Clone, Copy)]
pub struct ClientAttributes<'a> {
    /// 1, type, `nfs_ftype4`.
    pub kind: Option<u32>,
    /// 4, size.
    pub size: Option<u64>,
    /// 11, rdattr_error: a status.
    pub error: Option<u32>,
    /// 12, acl.
    pub entries: Option<Aces<'a>>,
    /// 33, mode.
    pub mode: Option<u32>,
    /// 36, owner, as text.
    pub owner: Option<Opaque<'a, 0xffff_ffff>>,
    /// 37, owner_group, as text.
    pub group: Option<Opaque<'a, 0xffff_ffff>>,
    /// 48, time_access_set.
    pub access: Option<SentTime>,
    /// 54, time_modify_set.
    pub modify: Option<SentTime>,
    /// 58, dacl.
    pub dacl: Option<Acl41<Aces<'a>>>,
    /// 59, sacl.
    pub sacl: Option<Acl41<Aces<'a>>>,
}

/// The bit of a value, if the value is present.
fn bit_if<T>(value: &Option<T>, bit: u32) -> u32
    ensures value { result ≡ bit_if value.now bit }
    ensures small { result ≤ bit }
{
    match value {
        Some(_) => bit,
        None => 0,
    }
}

/// Writes a value, if it is present.
fn write_optional<T: Spell, A: Allocator>(
    value: Option<T>,
    writer: &mut Writer<A>,
) -> Result<(), Full>
    ensures { Puts writer.old writer.new (optional_spelling T.form (option_map T.view value)) result }
{
    match value {
        None => Ok(()),
        Some(item) => item.write(writer),
    }
}

impl<'a> ClientAttributes<'a> {
    /// The second word of the set of the attributes that are present.
    fn second_word(&self) -> u32
        ensures { result ≡ second_word (client_value self.now) }
    {
        bit_if(&self.mode, 0x2)
            + bit_if(&self.owner, 0x10)
            + bit_if(&self.group, 0x20)
            + bit_if(&self.access, 0x1_0000)
            + bit_if(&self.modify, 0x40_0000)
            + bit_if(&self.dacl, 0x400_0000)
            + bit_if(&self.sacl, 0x800_0000)
    }

    /// The set of the attributes that are present.
    pub fn set(&self) -> Bitmap
        ensures { bitmap_value result ≡ client_set (client_value self.now) }
    {
        let first = bit_if(&self.kind, 0x2)
            + bit_if(&self.size, 0x10)
            + bit_if(&self.error, 0x800)
            + bit_if(&self.entries, 0x1000);
        Bitmap::of_words(first, self.second_word())
    }

    /// Writes the value of an attribute, if it is present.
    fn write_part<A: Allocator>(
        &self,
        attribute: Attribute,
        writer: &mut Writer<A>,
    ) -> Result<(), Full>
        ensures { Puts writer.old writer.new (client_part (client_value self.now) attribute) result }
    {
        match attribute {
            Attribute::ObjectType => write_optional(self.kind, writer),
            Attribute::Size => write_optional(self.size, writer),
            Attribute::RdattrError => write_optional(self.error, writer),
            Attribute::Acl => write_optional(self.entries, writer),
            Attribute::Mode => write_optional(self.mode, writer),
            Attribute::Owner => write_optional(self.owner, writer),
            Attribute::OwnerGroup => write_optional(self.group, writer),
            Attribute::TimeAccessSet => write_optional(self.access, writer),
            Attribute::TimeModifySet => write_optional(self.modify, writer),
            Attribute::Dacl => write_optional(self.dacl, writer),
            Attribute::Sacl => write_optional(self.sacl, writer),
            _ => Ok(()),
        }
    }
}

/// Writes the values of the attributes that a client sends (RFC 8881, section 3.3.9), one after the other by rising
/// number, or nothing. `Full`: exactly if the room is less than they take. With [`ClientAttributes::set`] they make an
/// [`crate::Attributes`].
pub fn write_given<A: Allocator>(
    values: &ClientAttributes<'_>,
    writer: &mut Writer<A>,
) -> Result<(), Full>
    ensures { Puts writer.old writer.new (client_values (client_value values.now)) result }
{
    let start = writer.len();
    for attribute in &CLIENT_ATTRIBUTES {
        if values.write_part(*attribute, writer).is_err() {
            writer.truncate(start);
            return Err(Full);
        }
    }
    Ok(())
}
