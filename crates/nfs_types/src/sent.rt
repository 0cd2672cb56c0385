//! The values of attributes that an operation sets, as they are sent.
ghost use Rattle.std.specs.Prelude.{◌≡◌, Some, None, MatchResult, option_map};
ghost use Rattle.xdr_wire.specs.Reading.{Gives};
ghost use Rattle.xdr_wire.specs.Wire.{in_normal_form, within};
ghost use Rattle.nfs_types.specs.Sent.{chosen_at, is_set_twice, sent_at, whole};
ghost use Rattle.nfs_types.specs.SentViews.{sent_value};
ghost use Rattle.nfs_types.specs.Sets.{has_number};
ghost use Rattle.nfs_types.specs.Views.{bitmap_value};

use crate::ace::Ace;
use crate::acl41::Acl41;
use crate::attribute::Attribute;
use crate::attributes::Attributes;
use crate::bitmap::Bitmap;
use crate::set_time::SentTime;
use xdr_wire::{Array, Opaque, Reader, Wire, XdrFault};

/// The values that were sent, of attributes that can be set.
#[derive(Drop)]
pub(crate) struct Sent<'a> {
    pub size: Option<u64>,
    pub entries: Option<Array<'a, Ace<'a>, 0xffff_ffff>>,
    pub mode: Option<u32>,
    pub owner: Option<Opaque<'a, 0xffff_ffff>>,
    pub group: Option<Opaque<'a, 0xffff_ffff>>,
    pub access: Option<SentTime>,
    pub modify: Option<SentTime>,
    pub dacl: Option<Acl41<Array<'a, Ace<'a>, 0xffff_ffff>>>,
    pub sacl: Option<Acl41<Array<'a, Ace<'a>, 0xffff_ffff>>>,
}

/// Reads the value of an attribute, if the attribute is in the set; else it reads nothing (RFC 8881, section 3.3.9). A
/// fault leaves the reader at the beginning of the value.
pub fn read_chosen<'a, T: Wire<'a>>(
    set: &Bitmap,
    number: u32,
    reader: &mut Reader<'a>,
) -> Result<Option<T>, XdrFault>
    ensures { Gives (λ o. option_map T.view o) reader.old reader.new result
        (in_normal_form (within T.normal) (chosen_at (has_number (bitmap_value set.now) number) T.form reader.old)) }
{
    if set.has(number) {
        Ok(Some(T::read(reader)?))
    } else {
        Ok(None)
    }
}

/// The values of this set, one after the other.
fn values<'a>(set: &Bitmap, reader: &mut Reader<'a>) -> Result<Sent<'a>, XdrFault>
    ensures { Gives sent_value reader.old reader.new result (sent_at (bitmap_value set.now) reader.old) }
{
    let mut ahead = reader.fork();
    let size = read_chosen(set, Attribute::Size.number(), &mut ahead)?;
    let entries = read_chosen(set, Attribute::Acl.number(), &mut ahead)?;
    let mode = read_chosen(set, Attribute::Mode.number(), &mut ahead)?;
    let owner = read_chosen(set, Attribute::Owner.number(), &mut ahead)?;
    let group = read_chosen(set, Attribute::OwnerGroup.number(), &mut ahead)?;
    let access = read_chosen(set, Attribute::TimeAccessSet.number(), &mut ahead)?;
    let modify = read_chosen(set, Attribute::TimeModifySet.number(), &mut ahead)?;
    let dacl = read_chosen(set, Attribute::Dacl.number(), &mut ahead)?;
    let sacl = read_chosen(set, Attribute::Sacl.number(), &mut ahead)?;
    *reader = ahead;
    Ok(Sent {
        size,
        entries,
        mode,
        owner,
        group,
        access,
        modify,
        dacl,
        sacl,
    })
}

impl<'a> Sent<'a> {
    /// Whether both an access control list and a part of one are set.
    pub fn sets_twice(&self) -> bool
        ensures { result ≡ is_set_twice (sent_value self.now) }
    {
        self.entries.is_some() && (self.dacl.is_some() || self.sacl.is_some())
    }

    /// The values that the bytes encode, all of the bytes. `None`: the bytes encode no values.
    pub fn read(sent: &Attributes<'a>) -> Option<Sent<'a>>
        ensures { option_map sent_value result ≡ whole (sent_at (bitmap_value sent.now.set) sent.now.values.bytes.now) }
    {
        let mut reader = Reader::new(sent.values.bytes);
        let values = values(&sent.set, &mut reader).ok()?;
        if reader.is_empty() {
            Some(values)
        } else {
            None
        }
    }
}
