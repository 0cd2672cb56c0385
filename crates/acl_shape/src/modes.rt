//! The mode of an access control list (ACL), and the ACL of a mode.
ghost use Rattle.std.specs.Prelude.{◌≡◌, ℕ, ◌-◌, ◌<◌, IfOk};
ghost use Rattle.acl_list.specs.Mask.{has_bit};
ghost use Rattle.acl_shape.specs.Bounds.{IsBounded};
ghost use Rattle.acl_shape.specs.Mode.{digit_of};
ghost use Rattle.acl_shape.specs.Mode as specs;

use acl_list::{AclList, Entry, EntryKind, Kind, Who, class_grant, flag, mask};
use std::alloc::{AllocError, Allocator};

/// The permissions that the owner is always allowed, whatever the mode.
const OWNER_ALWAYS: u32 = mask::READ_ATTRIBUTES
    | mask::WRITE_ATTRIBUTES
    | mask::READ_ACL
    | mask::WRITE_ACL
    | mask::WRITE_OWNER
    | mask::SYNCHRONIZE;

/// The permissions that everyone is always allowed, whatever the mode.
const EVERYONE_ALWAYS: u32 = mask::READ_ATTRIBUTES | mask::READ_ACL | mask::SYNCHRONIZE;

/// The three bits of a mode that represent the permissions of a mask.
#[tactic(auto, using(acl_list::proofs::Bits::flag_bits))]
fn digit(granted: u32) -> u32
    ensures value { result ≡ digit_of (has_bit granted) }
    ensures small { result < 8 }
{
    let read = granted & mask::READ_DATA != 0;
    let write = granted & mask::WRITE_DATA != 0 && granted & mask::APPEND_DATA != 0;
    let execute = granted & mask::EXECUTE != 0;
    4 * u32::from(read) + 2 * u32::from(write) + u32::from(execute)
}

/// The lowest nine bits of the mode that the ACL represents (RFC 8881, section 6.3.2).
///
/// The bits of OWNER@, GROUP@ and EVERYONE@ are computed from the access control entries (ACEs) of each and those of
/// EVERYONE@ alone. Read is set if READ_DATA is allowed, write if both WRITE_DATA and APPEND_DATA are, execute if
/// EXECUTE is. The function allocates nothing.
pub fn mode_of<A: Allocator>(list: &AclList<A>) -> u32
    ensures value { result ≡ specs.mode_of list.now }
    ensures small { result < 512 }
{
    0o100 * digit(class_grant(list, Who::Owner))
        + 0o10 * digit(class_grant(list, Who::Group))
        + digit(class_grant(list, Who::Everyone))
}

/// The permissions that three bits of a mode represent.
#[tactic(auto, using(acl_list::proofs::Bits::flag_bits), unfolding(crate::specs::Mode::class_mask))]
fn class_mask(kind: Kind, digit: u32) -> u32
    requires { digit < 8 }
    ensures { result ≡ specs.class_mask kind digit }
{
    let read = if digit & 4 == 0 { 0 } else { mask::READ_DATA };
    let write = if digit & 2 == 0 { 0 } else { write_mask(kind) };
    let execute = if digit & 1 == 0 { 0 } else { mask::EXECUTE };
    read + write + execute
}

/// The permissions for writing: on a directory also DELETE_CHILD.
fn write_mask(kind: Kind) -> u32
    ensures { result ≡ specs.write_mask kind }
{
    match kind {
        Kind::Directory => mask::WRITE_DATA | mask::APPEND_DATA | mask::DELETE_CHILD,
        Kind::File | Kind::Link => mask::WRITE_DATA | mask::APPEND_DATA,
    }
}

/// The ACE that a new mode keeps; `lacking` are the class bits that the group's three bits lack.
fn kept(entry: &Entry, lacking: u32) -> Option<Entry>
    ensures { result ≡ specs.kept lacking entry.now }
{
    if matches!(entry.kind, EntryKind::Audit | EntryKind::Alarm) || entry.is_inherit_only() {
        Some(*entry)
    } else if entry.who.is_special() {
        (entry.is_for_files() || entry.is_for_directories()).then_some(Entry {
            flags: entry.flags | flag::INHERIT_ONLY,
            ..*entry
        })
    } else if entry.kind == EntryKind::Allow {
        Some(Entry {
            mask: entry.mask & !lacking,
            ..*entry
        })
    } else {
        Some(*entry)
    }
}

/// An ACE for the object itself that no new object inherits.
fn plain(kind: EntryKind, mask: u32, who: Who) -> Entry
    ensures { result ≡ specs.plain kind mask who }
{
    Entry {
        kind,
        flags: 0,
        mask,
        who,
    }
}

/// The ACL that a new mode makes from the ACL of an object, over `alloc` (RFC 8881, section 6.4.1.1).
///
/// Only the lowest nine bits of `mode` count. Two ACEs for OWNER@ come first. The kept ACEs follow, in their order. Two
/// ACEs for GROUP@ and one for EVERYONE@ come last. The class bits are READ_DATA to read, WRITE_DATA and APPEND_DATA
/// (on a directory also DELETE_CHILD) to write, EXECUTE to execute. The kept part of an ACE depends on its flags
/// FILE_INHERIT (1), DIRECTORY_INHERIT (2) and INHERIT_ONLY (8):
///
/// | Type | Principal | 8 set | 8 not set, 1 or 2 set | 1, 2 and 8 not set |
/// |---|---|---|---|---|
/// | AUDIT, ALARM | any | as it is | as it is | as it is |
/// | ALLOW, DENY | OWNER@, GROUP@, EVERYONE@ | as it is | with 8 set | dropped |
/// | ALLOW | named user or group | as it is | less the class bits the group lacks | the same, even if none is left |
/// | DENY | named user or group | as it is | as it is | as it is |
///
/// Mask bits that the standard doesn't define stay. If the ACL is within the bounds of [`crate::is_bounded`], so is the
/// result. `Err`: the allocation of the ACL fails.
pub fn set_mode<A: Allocator, B: Allocator>(
    alloc: A,
    list: &AclList<B>,
    kind: Kind,
    mode: u32,
) -> Result<AclList<A>, AllocError>
    ensures value { IfOk result (λ new. new ≡ specs.set_mode list.now kind mode) }
    ensures bounded { IsBounded list.now → IfOk result IsBounded }
{
    acl_for_mode(alloc, list.as_slice(), kind, mode)
}

fn acl_for_mode<A: Allocator>(
    alloc: A,
    entries: &[Entry],
    kind: Kind,
    mode: u32,
) -> Result<AclList<A>, AllocError>
    ensures { IfOk result (λ new. new ≡ specs.set_mode entries.now kind mode) }
{
    let owner = mode / 0o100 % 8;
    let group = mode / 0o10 % 8;
    let others = mode % 8;
    let lacking = class_mask(kind, 7 - group);
    let mut new = AclList::new(alloc);
    new.push(plain(
        EntryKind::Allow,
        class_mask(kind, owner) | OWNER_ALWAYS,
        Who::Owner,
    ))?;
    new.push(plain(EntryKind::Deny, class_mask(kind, 7 - owner), Who::Owner))?;
    for entry in entries {
        if let Some(entry) = kept(entry, lacking) {
            new.push(entry)?;
        }
    }
    new.push(plain(EntryKind::Allow, class_mask(kind, group), Who::Group))?;
    new.push(plain(EntryKind::Deny, lacking, Who::Group))?;
    new.push(plain(
        EntryKind::Allow,
        class_mask(kind, others) | EVERYONE_ALWAYS,
        Who::Everyone,
    ))?;
    Ok(new)
}
