//! How many access control entries (ACEs) an access control list (ACL) may have.

use crate::acl::entries::{allow, deny, entry};
use acl_list::{AclList, Entry, Kind, Who};
use acl_shape::{AdmitFault, Raw, admit, is_bounded, set_mode};
use std::alloc::{AllocError, Global};

/// The ACLs, without the contracts of the functions that make them.
fn with_mode(alloc: Global, list: &AclList, mode: u32) -> Result<AclList, AllocError> {
    set_mode(alloc, list, Kind::File, mode)
}

fn admitted(alloc: Global, raws: &[Raw]) -> Result<AclList, AdmitFault> {
    admit(alloc, raws, Kind::File)
}

/// The number of ACEs of an ACL, and whether it may have them.
fn size_of(list: &AclList) -> (usize, bool) {
    (list.len(), is_bounded(list))
}

/// The sizes of an ACL after one mode, and after another.
fn sizes_after(alloc: Global, list: &AclList) -> Result<[(usize, bool); 2], AllocError> {
    let new = with_mode(alloc, list, 0o640)?;
    let again = with_mode(alloc, &new, 0)?;
    Ok([size_of(&new), size_of(&again)])
}

/// The size of the ACL of these ACEs, and its sizes after the modes.
fn sizes(alloc: Global, raws: &[Raw]) -> Option<(usize, [(usize, bool); 2])> {
    match admitted(alloc, raws) {
        Ok(list) => match sizes_after(alloc, &list) {
            Ok(after) => Some((list.len(), after)),
            Err(_) => None,
        },
        Err(_) => None,
    }
}

/// The largest number of named ACEs, one of which gives WRITE_ACL.
static LONGEST: [Raw; 59] = [Raw {
    kind: 0,
    flags: 0,
    mask: 0x40000,
    who: Some(Who::User(1001)),
}; 59];

fn longest() -> &'static [Raw] {
    &LONGEST
}

/// The longest ACL, then a mode, and then another.
#[test]
fn a_mode_on_the_longest_list(rt: HostRuntime) {
    assert!(rt; sizes(rt.alloc(), longest()) == Some((59, [(64, true), (64, true)])));
}

/// Numbers of plain ACEs and of ACEs that a mode keeps, and whether an ACL may have them.
static COUNTS: [(u32, u32, bool); 6] = [
    (0, 0, true),
    (5, 59, true),
    (4, 60, false),
    (64, 0, true),
    (65, 0, false),
    (6, 59, false),
];

fn counts() -> &'static [(u32, u32, bool)] {
    &COUNTS
}

fn add(list: &mut AclList, entry: Entry, count: u32) -> Result<(), AllocError> {
    for _ in 0..count {
        list.push(entry)?;
    }
    Ok(())
}

fn add_both(list: &mut AclList, plain: u32, kept: u32) -> Result<(), AllocError> {
    add(list, allow!(0, 1, Who::Everyone), plain)?;
    add(list, deny!(0, 1, Who::User(5)), kept)
}

/// Whether an ACL may have `plain` plain ACEs and `kept` ACEs that a mode keeps.
fn may_have(alloc: Global, plain: u32, kept: u32) -> Option<bool> {
    let mut list = AclList::new(alloc);
    match add_both(&mut list, plain, kept) {
        Ok(()) => Some(is_bounded(&list)),
        Err(_) => None,
    }
}

#[test]
fn bounds(rt: HostRuntime) {
    for (plain, kept, want) in counts() {
        assert!(rt;
            may_have(rt.alloc(), *plain, *kept) == Some(*want),
            "{plain} and {kept}"
        );
    }
}
