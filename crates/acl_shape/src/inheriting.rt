//! The access control entries (ACEs) that a new object inherits.
ghost use Rattle.std.specs.Prelude.{◌≡◌, IfOk};
ghost use Rattle.acl_shape.specs.Bounds.{IsBounded};
ghost use Rattle.acl_shape.specs.Inherited as specs;

use acl_list::{AclList, Entry, Kind, flag};
use std::alloc::{AllocError, Allocator};

/// The flags that aren't about inheritance: SUCCESSFUL, FAILED, IDENTIFIER_GROUP and INHERITED.
const OTHER_FLAGS: u32 = flag::SUCCESSFUL | flag::FAILED | flag::IDENTIFIER_GROUP | flag::INHERITED;

/// The ACE for the object alone, without inheritance flags.
pub(crate) fn settled(entry: &Entry) -> Entry
    ensures { result ≡ specs.settled entry.now }
{
    Entry {
        flags: entry.flags & OTHER_FLAGS,
        ..*entry
    }
}

/// The ACE that a new object of this type inherits from an ACE of its directory.
fn child(entry: &Entry, kind: Kind) -> Option<Entry>
    ensures { result ≡ specs.child kind entry.now }
{
    if kind != Kind::Directory {
        return entry.is_for_files().then_some(settled(entry));
    }
    match (entry.is_for_directories(), entry.stops_below()) {
        (true, true) => Some(settled(entry)),
        (true, false) => Some(Entry {
            flags: entry.flags & !flag::INHERIT_ONLY,
            ..*entry
        }),
        (false, false) if entry.is_for_files() => Some(Entry {
            flags: entry.flags | flag::INHERIT_ONLY,
            ..*entry
        }),
        (false, _) => None,
    }
}

/// The access control list (ACL) that a new object of this type inherits from its directory's, over `alloc` (RFC 8881,
/// sections 6.2.1.4.1 and 6.4.3.1).
///
/// Each ACE in turn gives the new object one ACE or none. The result depends on the ACE's flags FILE_INHERIT (1),
/// DIRECTORY_INHERIT (2) and NO_PROPAGATE (4), and not on INHERIT_ONLY (8):
///
/// | 1 | 2 | 4 | A new directory gets | A new file or link gets |
/// |---|---|---|---|---|
/// | – | – | – | nothing | nothing |
/// | – | – | set | nothing | nothing |
/// | set | – | – | the ACE with 8 set | the ACE with 1, 2, 4 and 8 cleared |
/// | set | – | set | nothing | the ACE with 1, 2, 4 and 8 cleared |
/// | – | set | – | the ACE with 8 cleared | nothing |
/// | – | set | set | the ACE with 1, 2, 4 and 8 cleared | nothing |
/// | set | set | – | the ACE with 8 cleared | the ACE with 1, 2, 4 and 8 cleared |
/// | set | set | set | the ACE with 1, 2, 4 and 8 cleared | the ACE with 1, 2, 4 and 8 cleared |
///
/// All other flags, the type, the mask and the principal are those of the directory's ACE. `Err`: the allocation of the
/// ACL fails.
pub fn inherit<A: Allocator, B: Allocator>(
    alloc: A,
    list: &AclList<B>,
    kind: Kind,
) -> Result<AclList<A>, AllocError>
    ensures value { IfOk result (λ new. new ≡ specs.inherit list.now kind) }
    ensures bounded { IsBounded list.now → IfOk result IsBounded }
{
    inherited_of(alloc, list.as_slice(), kind)
}

fn inherited_of<A: Allocator>(
    alloc: A,
    entries: &[Entry],
    kind: Kind,
) -> Result<AclList<A>, AllocError>
    ensures { IfOk result (λ new. new ≡ specs.inherit entries.now kind) }
{
    let mut new = AclList::new(alloc);
    for entry in entries {
        if let Some(entry) = child(entry, kind) {
            new.push(entry)?;
        }
    }
    Ok(new)
}
