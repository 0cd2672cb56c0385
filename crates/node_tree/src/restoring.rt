//! A tree that is restored from a checkpoint.
ghost use Rattle.std.specs.Prelude.{◌≡◌, ◌++◌, ◌∷◌, [], IfOk, OnOk, IfSome, IsOkUnless, true, false, is_some};
ghost use Rattle.std.specs.List.{list_any};
ghost use Rattle.std.specs.BTreeMap.{is_at};
ghost use Rattle.std.specs.BTreeSet.{insert_key};
ghost use Rattle.std.specs.Ordering.{nat_cmp};
ghost use Rattle.acl_shape.specs.Bounds.{fits};
ghost use Rattle.node_tree.specs.Restored.{Begun, begun, kept_object, with_object, with_name, counters_fit, is_fit};
ghost use Rattle.node_tree.specs.Restored.{object_fits, more_fits, name_fits, is_whole, with_more};
ghost use Rattle.node_tree.specs.declared.restoring.RestoreFault.TheVariants.{Memory};

use crate::limits::{MAX_NAME, ROOT, most_bytes};
use crate::node::{Kept, NewObject};
use crate::store::{END, Store};
use crate::tree::Tree;
use acl_list::AclList;
use acl_shape::is_bounded;
use nfs_types::Limits;
use std::alloc::{AllocError, Allocator, Global};
use std::collections::BTreeSet;
use std::marker::Model;
use thiserror::Error;

/// Why no tree is restored.
#[derive(Clone, Copy, Debug, PartialEq, Eq, Error)]
pub enum RestoreFault {
    /// The parts make no sound tree.
    #[error("no sound tree")]
    Unsound,
    /// An allocation fails.
    #[error("out of memory")]
    Memory,
}

impl From<AllocError> for RestoreFault {
    ghost from_gives = { λ _ fault. fault ≡ Memory };

    fn from(_: AllocError) -> Self {
        RestoreFault::Memory
    }
}

/// The objects and names restored so far: objects by rising number, names by rising cookie, each object before its
/// names.
#[derive(Drop)]
pub struct Restoring<A: Allocator = Global> {
    store: Store<A>,
    /// The numbers of the objects.
    numbers: Vec<u64, A>,
    stamps: BTreeSet<u64, A>,
    /// The least number that may come next.
    number: u64,
    /// The least cookie that may come next.
    cookie: u64,
}

impl<A: Allocator> Model for Restoring<A> {
    ghost use Rattle.node_tree.specs.Restored.{Begun, IsBegun};

    ghost Value = { Begun };

    ghost view = { λ r. record { world = r.store; number = r.number; cookie = r.cookie } };

    ghost invariant = { λ r. IsBegun r.store r.number r.cookie r.numbers.items r.stamps.keys };
}

fn note_number<A: Allocator + Copy>(
    numbers: &mut Vec<u64, A>,
    number: u64,
) -> Result<(), AllocError>
    ensures { OnOk result (numbers.new.items ≡ numbers.old.items ++ number ∷ []) }
{
    numbers.push(number)?;
    Ok(())
}

fn note_stamp<A: Allocator + Copy>(
    stamps: &mut BTreeSet<u64, A>,
    stamp: u64,
) -> Result<(), AllocError>
    ensures { OnOk result (stamps.new.keys ≡ insert_key nat_cmp stamps.old.keys stamp) }
{
    stamps.insert(stamp)?;
    Ok(())
}

/// Whether an access control list is within its bounds.
fn list_fits<A: Allocator>(list: &AclList<A>) -> bool
    ensures { result ≡ fits list.now }
{
    is_bounded(list)
}

/// Whether an object is within its limits.
fn is_fit<A: Allocator>(
    limits: Limits,
    next_tick: u64,
    next_stamp: u64,
    new: &NewObject<A>,
    kept: &Kept,
) -> bool
    ensures { result ≡ is_fit limits next_tick next_stamp (kept_object new.now kept.now) }
{
    new.bytes.len() as u64 <= most_bytes(limits, new.kind)
        && list_fits(&new.list)
        && kept.change < next_tick
        && kept.stamp < next_stamp
}

impl<A: Allocator + Copy> Restoring<A> {
    /// Begins with the limits and the counters. `None`: no tree has these counters.
    pub fn begin(
        alloc: A,
        limits: Limits,
        next_number: u64,
        next_tick: u64,
        next_stamp: u64,
        next_cookie: u64,
    ) -> Option<Self>
        ensures fit { is_some result ≡ counters_fit next_number next_tick next_stamp next_cookie }
        ensures value { IfSome result (λ r. r ≡ begun limits next_number next_tick next_stamp next_cookie) }
    {
        if !(ROOT <= next_number
            && 3 <= next_cookie
            && next_number <= END
            && next_tick <= END
            && next_stamp <= END
            && next_cookie <= END)
        {
            return None;
        }
        let _profile = limits.profile();
        Some(Restoring {
            store: Store::empty(
                alloc,
                limits,
                next_number,
                next_tick,
                next_stamp,
                next_cookie,
            ),
            numbers: Vec::new(alloc),
            stamps: BTreeSet::new(alloc),
            number: ROOT,
            cookie: 3,
        })
    }

    /// Whether an object may come next.
    fn object_fits(&self, number: u64, new: &NewObject<A>, kept: &Kept) -> bool
        ensures { result ≡ object_fits self.now number (kept_object new.now kept.now) }
    {
        (self.number <= number && number < self.store.next_number() && self.store.has_object_room())
            && (is_fit(
                self.store.limits(),
                self.store.next_tick(),
                self.store.next_stamp(),
                new,
                kept,
            ) && !self.stamps.contains(&kept.stamp))
    }

    /// Adds an object. Its number is above those before it. `Unsound`: no tree has it together with the parts before
    /// it.
    pub fn object(
        mut self,
        number: u64,
        new: NewObject<A>,
        kept: Kept,
    ) -> Result<Self, RestoreFault>
        ensures refused { object_fits self number (kept_object new kept) ≡ false → result ≡ Err RestoreFault.Unsound }
        ensures taken { object_fits self number (kept_object new kept) ≡ true → IsOkUnless result RestoreFault.Memory }
        ensures ok { IfOk result (λ r. r ≡ with_object self number (kept_object new kept)) }
    {
        if !self.object_fits(number, &new, &kept) {
            return Err(RestoreFault::Unsound);
        }
        note_number(&mut self.numbers, number)?;
        note_stamp(&mut self.stamps, kept.stamp)?;
        self.store.put_object(number, new, kept)?;
        self.number = number + 1;
        Ok(self)
    }

    /// Whether further bytes of a file may come.
    fn more_fits(&self, number: u64, offset: u64, bytes: &[u8]) -> bool
        ensures { result ≡ more_fits self.now number offset bytes.now }
    {
        let Some(size) = self.store.file_size(number) else {
            return false;
        };
        let most = self.store.limits().bytes();
        size <= offset && (offset <= most && bytes.len() as u64 <= most - offset)
    }

    /// Adds bytes to a file that was added before, after zeros up to their offset. Nothing else of it changes.
    /// `Unsound`: the number isn't a file's, the file already has bytes after the offset, or it would exceed its limit.
    pub fn more(mut self, number: u64, offset: u64, bytes: &[u8]) -> Result<Self, RestoreFault>
        ensures refused { more_fits self number offset bytes.now ≡ false → result ≡ Err RestoreFault.Unsound }
        ensures taken { more_fits self number offset bytes.now ≡ true → IsOkUnless result RestoreFault.Memory }
        ensures ok { IfOk result (λ r. r ≡ with_more self number offset bytes.now) }
    {
        if !self.more_fits(number, offset, bytes) {
            return Err(RestoreFault::Unsound);
        }
        self.store.put_more(number, offset as usize, bytes)?;
        Ok(self)
    }

    /// Whether a name may come next.
    fn name_fits(&self, cookie: u64, directory: u64, name: &[u8], child: u64) -> bool
        ensures { result ≡ name_fits self.now (record {
          cookie = cookie;
          directory = directory;
          name = name.now;
          child = child;
        }) }
    {
        (self.cookie <= cookie && cookie < self.store.next_cookie() && name.len() <= MAX_NAME)
            && (child != ROOT && self.store.child_fits(child))
            && (self.store.is_directory(directory)
                && self.store.has_room(directory)
                && !self.store.find(directory, name).is_some())
    }

    /// Adds a name. Its cookie is above those before it. `Unsound`: no tree has it together with the parts before it.
    pub fn name(
        mut self,
        cookie: u64,
        directory: u64,
        name: &[u8],
        child: u64,
    ) -> Result<Self, RestoreFault>
        ensures refused { name_fits self
            (record { cookie = cookie; directory = directory; name = name.now; child = child }) ≡ false
            → result ≡ Err RestoreFault.Unsound }
        ensures taken { name_fits self
            (record { cookie = cookie; directory = directory; name = name.now; child = child }) ≡ true
            → IsOkUnless result RestoreFault.Memory }
        ensures ok { IfOk result (λ r. r ≡ with_name self (record {
          cookie = cookie;
          directory = directory;
          name = name.now;
          child = child;
        })) }
    {
        if !self.name_fits(cookie, directory, name, child) {
            return Err(RestoreFault::Unsound);
        }
        self.store.put_name(cookie, directory, name, child)?;
        self.cookie = cookie + 1;
        Ok(self)
    }

    /// Whether a root exists, and each object has a place.
    fn is_whole(&self) -> bool
        ensures { result ≡ is_whole self.now.world }
    {
        self.store.is_directory(ROOT) && self.store.all_placed(&self.numbers)
    }

    /// The tree of these parts. `None`: the root is missing, or some object has no place below it.
    pub fn finish(self) -> Option<Tree<A>>
        ensures whole { is_some result ≡ is_whole self.world }
        ensures value { IfSome result (λ tree. tree ≡ self.world) }
    {
        if !self.is_whole() {
            return None;
        }
        Some(Tree::of_sound(self.store))
    }
}
