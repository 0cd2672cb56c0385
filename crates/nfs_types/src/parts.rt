//! The parts of an access control list (ACL) that CREATE, OPEN and SETATTR set: dacl and sacl.
ghost use Rattle.std.specs.Prelude.{◌≡◌, ◌||◌, map, Some, None, Ok, Err, MatchResult, is_some, option_map};
ghost use Rattle.acl_shape.specs.Admitted.{admitted, part_fault};
ghost use Rattle.acl_shape.specs.declared.request.AdmitFault.{AdmitFault};
ghost use Rattle.acl_shape.specs.declared.request.AdmitFault.TheVariants as faults;
ghost use Rattle.xdr_wire.specs.Wire.{array_values};
ghost use Rattle.nfs_types.specs.Attributes.{ace};
ghost use Rattle.nfs_types.specs.Sent as specs;
ghost use Rattle.nfs_types.specs.Sent.{taken_part, taken_parts};
ghost use Rattle.nfs_types.specs.SentFaults.{Answers};

use crate::ace::Ace;
use crate::acl41::Acl41;
use crate::asked::Asked;
use crate::attrs::AttrsFault;
use crate::status::Status;
use acl_list::{AclList, Kind};
use acl_shape::{AdmitFault, Part, admit_part};
use std::alloc::Allocator;
use who_book::Book;
use xdr_wire::Array;

/// The part of an ACL that the access control entries (ACEs) ask for, on an object of this type. Their number was
/// checked before any was examined.
fn admit_part_of<'a, A: Allocator>(
    alloc: A,
    book: &Book,
    kind: Kind,
    part: Part,
    entries: Array<'a, Ace<'a>, 0xffff_ffff>,
) -> Result<AclList<A>, AdmitFault>
    ensures refused { (fault : AdmitFault) →
        part_fault part kind (map (specs.raw_of book.now)
        (array_values ace None entries.entry.count entries.entry.bytes.now)) ≡ Some fault → result ≡ Err fault }
    ensures taken { part_fault part kind
        (map (specs.raw_of book.now) (array_values ace None entries.entry.count entries.entry.bytes.now)) ≡ None →
        MatchResult result
        (λ new. new
        ≡ admitted kind
        (map (specs.raw_of book.now) (array_values ace None entries.entry.count entries.entry.bytes.now)))
        (λ fault. fault ≡ faults.Memory) }
{
    let Some(asked) = Asked::of(book, entries) else {
        return Err(AdmitFault::NoSpc);
    };
    admit_part(alloc, asked.as_slice(), kind, part)
}

/// The part of an ACL that was sent, if one was. Its flags are about automatic inheritance, which isn't supported.
fn part_of<'a, A: Allocator>(
    alloc: A,
    book: &Book,
    kind: Kind,
    part: Part,
    sent: Option<Acl41<Array<'a, Ace<'a>, 0xffff_ffff>>>,
) -> Result<Option<AclList<A>>, AttrsFault>
    ensures { Answers (λ list. list) is_some
        (taken_part part book.now kind (option_map
        (λ a. (a.flags, array_values ace None a.entries.count a.entries.bytes.now)) sent.entry)) result }
{
    let Some(Acl41 { flags, entries }) = sent else {
        return Ok(None);
    };
    if flags != 0 {
        return Err(AttrsFault::Refused(Status::AttrNotSupp));
    }
    let list = admit_part_of(alloc, book, kind, part, entries)?;
    Ok(Some(list))
}

/// The parts of an ACL, dacl and sacl.
type Parts<A> = (Option<AclList<A>>, Option<AclList<A>>);

/// The parts of an ACL that were sent, in their order. The fault of either is reported before an allocation for one
/// fails.
pub(crate) fn parts_of<'a, A: Allocator + Copy>(
    alloc: A,
    book: &Book,
    kind: Kind,
    dacl: Option<Acl41<Array<'a, Ace<'a>, 0xffff_ffff>>>,
    sacl: Option<Acl41<Array<'a, Ace<'a>, 0xffff_ffff>>>,
) -> Result<Parts<A>, AttrsFault>
    ensures { Answers (λ parts. parts) (λ parts. is_some parts.0 || is_some parts.1)
        (taken_parts book.now kind (option_map (λ a.
        (a.flags, array_values ace None a.entries.count a.entries.bytes.now)) dacl.entry)
        (option_map (λ a. (a.flags, array_values ace None a.entries.count a.entries.bytes.now)) sacl.entry)) result }
{
    match part_of(alloc, book, kind, Part::Dacl, dacl) {
        Err(AttrsFault::Refused(status)) => Err(AttrsFault::Refused(status)),
        Err(AttrsFault::Memory) => {
            part_of(alloc, book, kind, Part::Sacl, sacl)?;
            Err(AttrsFault::Memory)
        }
        Ok(dacl) => {
            let sacl = part_of(alloc, book, kind, Part::Sacl, sacl)?;
            Ok((dacl, sacl))
        }
    }
}
