//! Some attributes of an object, read from what a server returned.
ghost use Rattle.std.specs.Prelude.{◌≡◌, option_map};
ghost use Rattle.xdr_wire.specs.Reading.{Gives};
ghost use Rattle.nfs_types.specs.Views.{bitmap_value};
ghost use Rattle.nfs_client.specs.GetAttrViews.{given_value};
ghost use Rattle.nfs_client.specs.Stat.{AreOfStat, ReadsStat, stat_at, whole};
ghost use Rattle.nfs_client.specs.StatViews.{stat_value};

use crate::attributes::Given;
use nfs_ops::Bytes;
use nfs_types::{Attribute, Bitmap, read_chosen};
use std::alloc::Allocator;
use xdr_wire::{Reader, XdrFault};

/// A moment: seconds since the epoch, below 0 before it, and nanoseconds on top of them (RFC 8881, section 3.3.1).
type Time = (i64, u32);

/// Attributes of an object, each if the server returned it.
#[derive(Clone, Copy)]
pub struct Stat<'a> {
    /// 1, type, `nfs_ftype4`.
    pub kind: Option<u32>,
    /// 3, change.
    pub change: Option<u64>,
    /// 4, size, in bytes.
    pub size: Option<u64>,
    /// 20, fileid.
    pub number: Option<u64>,
    /// 33, mode.
    pub mode: Option<u32>,
    /// 35, numlinks: the number of its names.
    pub links: Option<u32>,
    /// 36, owner, as text.
    pub owner: Option<Bytes<'a>>,
    /// 37, owner_group, as text.
    pub group: Option<Bytes<'a>>,
    /// 52, time_metadata: when its attributes changed last.
    pub changed: Option<Time>,
    /// 53, time_modify: when its bytes or names changed last.
    pub modified: Option<Time>,
}

/// The values of this set, one after the other.
fn values<'a>(set: &Bitmap, reader: &mut Reader<'a>) -> Result<Stat<'a>, XdrFault>
    ensures { Gives stat_value reader.old reader.new result (stat_at (bitmap_value set.now) reader.old) }
{
    let mut ahead = reader.fork();
    let kind = read_chosen(set, Attribute::ObjectType.number(), &mut ahead)?;
    let change = read_chosen(set, Attribute::Change.number(), &mut ahead)?;
    let size = read_chosen(set, Attribute::Size.number(), &mut ahead)?;
    let number = read_chosen(set, Attribute::FileId.number(), &mut ahead)?;
    let mode = read_chosen(set, Attribute::Mode.number(), &mut ahead)?;
    let links = read_chosen(set, Attribute::NumLinks.number(), &mut ahead)?;
    let owner = read_chosen(set, Attribute::Owner.number(), &mut ahead)?;
    let group = read_chosen(set, Attribute::OwnerGroup.number(), &mut ahead)?;
    let changed = read_chosen(set, Attribute::TimeMetadata.number(), &mut ahead)?;
    let modified = read_chosen(set, Attribute::TimeModify.number(), &mut ahead)?;
    *reader = ahead;
    Ok(Stat {
        kind,
        change,
        size,
        number,
        mode,
        links,
        owner,
        group,
        changed,
        modified,
    })
}

/// The values that the bytes encode, if these are all of the bytes.
fn whole<'a>(set: &Bitmap, bytes: &'a [u8]) -> Option<Stat<'a>>
    ensures { option_map stat_value result ≡ whole (stat_at (bitmap_value set.now) bytes.entry.now) }
{
    let mut reader = Reader::new(bytes);
    let stat = values(set, &mut reader).ok()?;
    if reader.is_empty() { Some(stat) } else { None }
}

impl<'a> Stat<'a> {
    /// The set of the attributes that a `Stat` has, for a request.
    pub fn asked() -> Bitmap
        ensures { AreOfStat (bitmap_value result) }
    {
        Bitmap::empty()
            .with(Attribute::ObjectType.number())
            .with(Attribute::Change.number())
            .with(Attribute::Size.number())
            .with(Attribute::FileId.number())
            .with(Attribute::Mode.number())
            .with(Attribute::NumLinks.number())
            .with(Attribute::Owner.number())
            .with(Attribute::OwnerGroup.number())
            .with(Attribute::TimeMetadata.number())
            .with(Attribute::TimeModify.number())
    }

    /// Reads what was returned. `None`: another attribute was returned, or the bytes aren't the values of these.
    pub fn read<A: Allocator>(given: &'a Given<A>) -> Option<Self>
        ensures { ReadsStat (given_value given.entry.now) (option_map stat_value result) }
    {
        if given.set.is_within(&Stat::asked()) {
            whole(&given.set, &given.values)
        } else {
            None
        }
    }
}
