//! Sets of attributes, and the values that sent attributes set.
use crate::given::read;
use acl_list::Kind;
use nfs_types::{Attributes, Attrs, AttrsFault, Bitmap, Status, read_attrs};
use std::alloc::Allocator;
use who_book::Book;

/// The set of one number.
pub fn only(number: u32) -> Bitmap {
    if number < 256 {
        Bitmap::empty().with(number)
    } else {
        Bitmap::empty()
    }
}

/// The values that sent attributes set, or the fault. Bytes that are no `fattr4` are `BadXdr` here too.
pub fn attrs<A: Allocator + Copy>(
    alloc: A,
    book: &Book,
    kind: Kind,
    bytes: &[u8],
) -> Result<Attrs<A>, AttrsFault> {
    match read::<Attributes>(bytes) {
        (Ok(sent), 0) => read_attrs(alloc, false, book, kind, &sent),
        _ => Err(AttrsFault::Refused(Status::BadXdr)),
    }
}

/// The fault that refuses sent attributes.
pub fn refusal<A: Allocator + Copy>(
    alloc: A,
    book: &Book,
    kind: Kind,
    bytes: &[u8],
) -> Option<AttrsFault> {
    match attrs(alloc, book, kind, bytes) {
        Ok(_) => None,
        Err(fault) => Some(fault),
    }
}

/// The lengths of the ACL (access control list), the dacl and the sacl that are set.
pub fn lengths<A: Allocator>(attrs: &Attrs<A>) -> [Option<usize>; 3] {
    [
        attrs.list.as_ref().map(|list| list.len()),
        attrs.dacl.as_ref().map(|list| list.len()),
        attrs.sacl.as_ref().map(|list| list.len()),
    ]
}
