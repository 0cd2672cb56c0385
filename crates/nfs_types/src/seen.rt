//! Attributes as a client reads them.
ghost use Rattle.std.specs.Prelude.{◌≡◌, Ok, Err, MatchResult};
ghost use Rattle.xdr_wire.specs.Reading.{Gives};
ghost use Rattle.nfs_types.specs.Seen.{seen_at, seen_of};
ghost use Rattle.nfs_types.specs.SeenViews.{seen_value};
ghost use Rattle.nfs_types.specs.Views.{bitmap_value};

use crate::ace::Ace;
use crate::acl41::Acl41;
use crate::attribute::Attribute;
use crate::attributes::Attributes;
use crate::bitmap::Bitmap;
use crate::sent::read_chosen;
use crate::set_time::SentTime;
use xdr_wire::{Array, Opaque, Reader, XdrFault};

/// The attributes that a client requests, as the server returns them. `None`: the attribute isn't present.
#[derive(Drop)]
pub struct SeenAttributes<'a> {
    /// 1, type, `nfs_ftype4`.
    pub kind: Option<u32>,
    /// 4, size.
    pub size: Option<u64>,
    /// 11, rdattr_error: a status.
    pub error: Option<u32>,
    /// 12, acl.
    pub entries: Option<Array<'a, Ace<'a>, 0xffff_ffff>>,
    /// 33, mode.
    pub mode: Option<u32>,
    /// 36, owner, as text.
    pub owner: Option<Opaque<'a, 0xffff_ffff>>,
    /// 37, owner_group, as text.
    pub group: Option<Opaque<'a, 0xffff_ffff>>,
    /// 48, time_access_set.
    pub access: Option<SentTime>,
    /// 54, time_modify_set.
    pub modify: Option<SentTime>,
    /// 58, dacl.
    pub dacl: Option<Acl41<Array<'a, Ace<'a>, 0xffff_ffff>>>,
    /// 59, sacl.
    pub sacl: Option<Acl41<Array<'a, Ace<'a>, 0xffff_ffff>>>,
}

/// The values of this set, one after the other.
fn values<'a>(set: &Bitmap, reader: &mut Reader<'a>) -> Result<SeenAttributes<'a>, XdrFault>
    ensures { Gives seen_value reader.old reader.new result (seen_at (bitmap_value set.now) reader.old) }
{
    let mut ahead = reader.fork();
    let kind = read_chosen(set, Attribute::ObjectType.number(), &mut ahead)?;
    let size = read_chosen(set, Attribute::Size.number(), &mut ahead)?;
    let error = read_chosen(set, Attribute::RdattrError.number(), &mut ahead)?;
    let entries = read_chosen(set, Attribute::Acl.number(), &mut ahead)?;
    let mode = read_chosen(set, Attribute::Mode.number(), &mut ahead)?;
    let owner = read_chosen(set, Attribute::Owner.number(), &mut ahead)?;
    let group = read_chosen(set, Attribute::OwnerGroup.number(), &mut ahead)?;
    let access = read_chosen(set, Attribute::TimeAccessSet.number(), &mut ahead)?;
    let modify = read_chosen(set, Attribute::TimeModifySet.number(), &mut ahead)?;
    let dacl = read_chosen(set, Attribute::Dacl.number(), &mut ahead)?;
    let sacl = read_chosen(set, Attribute::Sacl.number(), &mut ahead)?;
    *reader = ahead;
    Ok(SeenAttributes {
        kind,
        size,
        error,
        entries,
        mode,
        owner,
        group,
        access,
        modify,
        dacl,
        sacl,
    })
}

/// Reads the attributes that a server returns for an object (RFC 8881, sections 3.3.9, 18.7 and 18.23); the result
/// borrows. They are any of 1, 4, 11, 12, 33, 36, 37, 48, 54, 58 and 59. `BadChoice`: another attribute is present.
/// Else the first fault of a value. `TooLong`: the bytes are more than the values take.
pub fn read_given<'a>(given: &Attributes<'a>) -> Result<SeenAttributes<'a>, XdrFault>
    ensures { MatchResult result (λ seen. seen_of (bitmap_value given.now.set) given.now.values.bytes.now ≡
        Ok (seen_value seen)) (λ fault. seen_of (bitmap_value given.now.set) given.now.values.bytes.now ≡ Err fault) }
{
    if !given.set.is_within(&Bitmap::seen()) {
        return Err(XdrFault::BadChoice);
    }
    let mut reader = Reader::new(given.values.bytes);
    let seen = values(&given.set, &mut reader)?;
    if !reader.is_empty() {
        return Err(XdrFault::TooLong);
    }
    Ok(seen)
}
