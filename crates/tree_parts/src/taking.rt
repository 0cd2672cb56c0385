//! The parts of a checkpoint, taken in order.
ghost use Rattle.std.specs.Prelude.{◌≡◌, ℕ, Option, None, Some, Err, IfOk, IfSome, IfNone};
ghost use Rattle.std.specs.Option.{option_map};
ghost use Rattle.nfs_types.specs.Limits as limits_of;
ghost use Rattle.nfs_types.specs.MomentView.{moment_value};
ghost use Rattle.nfs_types.specs.declared.moment.Moment.{Moment};
ghost use Rattle.node_tree.specs.Restored.{Begun};
ghost use Rattle.node_tree.specs.declared.restoring.RestoreFault.TheVariants.{Unsound};
ghost use Rattle.xdr_wire.specs.Wire.{array_values};
ghost use Rattle.tree_parts.specs.Forms.{entry, list_value};
ghost use Rattle.tree_parts.specs.Parts.{written_part};
ghost use Rattle.tree_parts.specs.Taken.{Takes};

use crate::forms::{EntryForm, KindForm};
use crate::part::{WrittenList, WrittenMoment, WrittenObject, WrittenPart};
use acl_list::AclList;
use nfs_types::Limits;
use node_tree::{Kept, Moment, NewObject, RestoreFault, Restoring};
use std::alloc::{AllocError, Allocator};

/// The moment, if it is one.
fn moment_of(written: WrittenMoment) -> Option<Moment>
    ensures value { IfSome result (λ moment. moment_value moment ≡ written) }
    ensures none { IfNone result ((moment : Moment) → moment_value moment ≡ written → ⊥) }
{
    let (seconds, nanoseconds) = written;
    if nanoseconds >= 1_000_000_000 {
        return None;
    }
    Some(Moment {
        seconds,
        nanoseconds,
    })
}

/// The entries, as an access control list.
fn list_of<A: Allocator + Copy>(
    alloc: A,
    written: WrittenList<'_>,
) -> Result<AclList<A>, AllocError>
    ensures { IfOk result (λ list. list_value list ≡
        array_values entry None written.entry.count written.entry.bytes.now) }
{
    let mut left = written;
    let mut entries = Vec::new(alloc);
    while let Some(EntryForm(entry)) = left.next() {
        entries.push(entry)?;
    }
    Ok(AclList::from_vec(entries))
}

/// The time of the last access, if one is written. `None`: what is written is no moment.
fn access_of(written: Option<WrittenMoment>) -> Option<Option<Moment>>
    ensures value { IfSome result (λ access. option_map moment_value access ≡ written) }
    ensures none { IfNone result ((access : Option Moment) → option_map moment_value access ≡ written → ⊥) }
{
    match written {
        None => Some(None),
        Some(written) => Some(Some(moment_of(written)?)),
    }
}

/// The fields of the object, with the times that are kept.
fn object_of<A: Allocator + Copy>(
    alloc: A,
    written: WrittenObject<'_>,
    kept: &Kept,
) -> Result<NewObject<A>, AllocError>
    ensures kind { IfOk result (λ new. new.kind ≡ written.entry.0.0) }
    ensures bytes { IfOk result (λ new. new.bytes.items ≡ written.entry.1.0.bytes.now) }
    ensures owner { IfOk result (λ new. new.owner ≡ written.entry.1.1.0) }
    ensures group { IfOk result (λ new. new.group ≡ written.entry.1.1.1.0) }
    ensures list { IfOk result (λ new. list_value new.list ≡
        array_values entry None written.entry.1.1.1.1.0.count written.entry.1.1.1.1.0.bytes.now) }
    ensures high { IfOk result (λ new. new.high ≡ written.entry.1.1.1.1.1) }
    ensures access { IfOk result (λ new. new.time_access ≡ kept.now.time_access) }
    ensures modify { IfOk result (λ new. new.time_modify ≡ kept.now.time_modify) }
{
    let (KindForm(kind), (bytes, (owner, (group, (list, high))))) = written;
    Ok(NewObject {
        kind,
        bytes: Vec::from_slice(alloc, bytes.bytes)?,
        owner,
        group,
        list: list_of(alloc, list)?,
        high,
        time_access: kept.time_access,
        time_modify: kept.time_modify,
    })
}

/// The time of an object's last access, its last change with its two times, and its stamp.
fn kept_of(
    access: Option<WrittenMoment>,
    written: (u64, (WrittenMoment, (WrittenMoment, u64))),
) -> Option<Kept>
    ensures access { IfSome result (λ kept. option_map moment_value kept.time_access ≡ access) }
    ensures value { IfSome result (λ kept.
        (kept.change, (moment_value kept.time_modify, (moment_value kept.time_metadata, kept.stamp))) ≡ written) }
    ensures none { IfNone result ((change : ℕ) (last : Option Moment) (modify metadata : Moment) (stamp : ℕ) →
        option_map moment_value last ≡ access →
        (change, (moment_value modify, (moment_value metadata, stamp))) ≡ written → ⊥) }
{
    let (change, (modify, (metadata, stamp))) = written;
    Some(Kept {
        change,
        time_access: access_of(access)?,
        time_modify: moment_of(modify)?,
        time_metadata: moment_of(metadata)?,
        stamp,
    })
}

/// Takes an object's part.
fn take_object<A: Allocator + Copy>(
    alloc: A,
    restoring: Restoring<A>,
    access: Option<WrittenMoment>,
    number: u64,
    new: WrittenObject<'_>,
    last: (u64, (WrittenMoment, (WrittenMoment, u64))),
) -> Result<Restoring<A>, RestoreFault>
    ensures ok { (l : limits_of.Limits) → IfOk result (λ more.
        Takes l (Some restoring) (written_part (WrittenPart.Object access number new.entry last)) more) }
    ensures unsound { result ≡ Err Unsound → (l : limits_of.Limits) (more : Begun) →
        Takes l (Some restoring) (written_part (WrittenPart.Object access number new.entry last)) more → ⊥ }
{
    let Some(kept) = kept_of(access, last) else {
        return Err(RestoreFault::Unsound);
    };
    let new = object_of(alloc, new, &kept)?;
    restoring.object(number, new, kept)
}

/// Takes the next part of a checkpoint of a tree with these limits. The counters come first. The objects come by rising
/// number and the names by rising cookie, and each object comes before its further parts and its names. `Unsound`: it
/// can't be taken after the parts before it.
pub fn take<A: Allocator + Copy>(
    alloc: A,
    limits: Limits,
    so_far: Option<Restoring<A>>,
    part: WrittenPart<'_>,
) -> Result<Restoring<A>, RestoreFault>
    ensures ok { IfOk result (λ more. Takes limits so_far (written_part part.entry) more) }
    ensures unsound { result ≡ Err Unsound → (more : Begun) → Takes limits so_far (written_part part.entry) more → ⊥ }
{
    match (so_far, part) {
        (None, WrittenPart::Counters((number, (tick, (stamp, cookie))))) => {
            match Restoring::begin(alloc, limits, number, tick, stamp, cookie) {
                Some(restoring) => Ok(restoring),
                None => Err(RestoreFault::Unsound),
            }
        }
        (Some(restoring), WrittenPart::Object(access, number, new, last)) => {
            take_object(alloc, restoring, access, number, new, last)
        }
        (Some(restoring), WrittenPart::Name(cookie, directory, name, child)) => {
            restoring.name(cookie, directory, name.bytes, child)
        }
        (Some(restoring), WrittenPart::Rest(number, offset, bytes)) => {
            restoring.more(number, offset, bytes.bytes)
        }
        _ => Err(RestoreFault::Unsound),
    }
}
