//! The names of all directories by cookie, with the cookies of each directory and of each child.
ghost use Rattle.std.specs.Prelude.{◌≡◌, ◌++◌, ◌∷◌, [], ◌==◌, ◌&&◌, nat_lt, not, find, filter, if◌then◌else◌, ℕ, OnOk};
ghost use Rattle.std.specs.Prelude.{OnErr};
ghost use Rattle.std.specs.Option.{option_copied, option_map};
ghost use Rattle.std.specs.Ordering.{nat_cmp};
ghost use Rattle.std.specs.BTreeMap.{insert_entry, is_at};
ghost use Rattle.std.specs.Set.{remove_key};
ghost use Rattle.node_tree.specs.Groups.{cookies_at, AreFilled};
ghost use Rattle.node_tree.specs.World.{link_count, name_count};
ghost use Rattle.node_tree.specs.Sound.{Rises};

use crate::cookie_sets;
use crate::entry::DirEntry;
use std::alloc::{AllocError, Allocator, Global};
use std::collections::{BTreeMap, BTreeSet};
use std::marker::Model;
use std::ops::Bound;

/// The names of all directories, by rising cookie.
#[derive(Drop)]
pub struct NameList<A: Allocator = Global> {
    by_cookie: BTreeMap<u64, DirEntry<A>, A>,
    /// The cookies of the names in each directory.
    by_directory: BTreeMap<u64, BTreeSet<u64, A>, A>,
    /// The cookies of the names of each child.
    by_child: BTreeMap<u64, BTreeSet<u64, A>, A>,
}

impl<A: Allocator> Model for NameList<A> {
    ghost use Rattle.std.specs.Prelude.{List};
    ghost use Rattle.std.specs.Map.{values_of};
    ghost use Rattle.node_tree.specs.World.{Name};
    ghost use Rattle.node_tree.specs.Groups.{IsListed};

    ghost Value = { List Name };

    ghost view = { λ n. values_of n.by_cookie.entries };

    ghost invariant = { λ n. IsListed n.by_cookie.entries n.by_directory n.by_child (values_of n.by_cookie.entries) };
}

fn put_entry<A: Allocator + Copy>(
    entries: &mut BTreeMap<u64, DirEntry<A>, A>,
    cookie: u64,
    entry: DirEntry<A>,
) -> Result<(), AllocError>
    ensures ok { OnOk result (entries.new.entries ≡ insert_entry nat_cmp entries.old.entries cookie entry) }
    ensures err { OnErr result (entries.new.entries ≡ entries.old.entries) }
{
    entries.insert(cookie, entry)?;
    Ok(())
}

/// The entry with the least cookie above another one.
fn entry_above<A: Allocator>(
    entries: &BTreeMap<u64, DirEntry<A>, A>,
    cookie: u64,
) -> Option<&DirEntry<A>>
    ensures { option_copied result ≡ option_map (λ e. e.1) (find (λ e. nat_lt cookie e.0) entries.now.entries) }
{
    match entries
        .range((Bound::Excluded(cookie), Bound::Unbounded))
        .next()
    {
        Some((_, entry)) => Some(entry),
        None => None,
    }
}

/// Removes a cookie of a directory and of a child.
fn take_both<A: Allocator>(
    by_directory: &mut BTreeMap<u64, BTreeSet<u64, A>, A>,
    by_child: &mut BTreeMap<u64, BTreeSet<u64, A>, A>,
    directory: u64,
    child: u64,
    cookie: u64,
)
    ensures directories { (q : ℕ) → cookies_at by_directory.new q ≡
        (if q == directory then remove_key (is_at (nat_cmp cookie)) (cookies_at by_directory.old q)
        else cookies_at by_directory.old q) }
    ensures children { (q : ℕ) → cookies_at by_child.new q ≡
        (if q == child then remove_key (is_at (nat_cmp cookie)) (cookies_at by_child.old q)
        else cookies_at by_child.old q) }
    ensures directories_filled { AreFilled by_directory.old → AreFilled by_directory.new }
    ensures children_filled { AreFilled by_child.old → AreFilled by_child.new }
{
    cookie_sets::take(by_directory, directory, cookie);
    cookie_sets::take(by_child, child, cookie);
}

// Look-ups.
impl<A: Allocator> NameList<A> {
    /// The name of a cookie.
    pub fn get(&self, cookie: u64) -> Option<&DirEntry<A>>
        ensures { option_copied result ≡ find (λ n. n.cookie == cookie) self.now }
    {
        self.by_cookie.get(&cookie)
    }

    /// The next name of a directory, by rising cookie.
    pub fn list_after(&self, directory: u64, cookie: u64) -> Option<&DirEntry<A>>
        ensures { option_copied result ≡ find (λ n. (n.directory == directory) && nat_lt cookie n.cookie) self.now }
    {
        // Names of a directory that were made one after the other are also adjacent among all names. Then the next name
        // of all is the next one of the directory, and one search finds it.
        if let Some(next) = self.after(cookie) {
            if next.directory() == directory {
                return Some(next);
            }
        }
        let Some(next) = cookie_sets::next_after(&self.by_directory, directory, cookie) else {
            return None;
        };
        self.get(next)
    }

    /// The next name of all, by rising cookie.
    pub fn after(&self, cookie: u64) -> Option<&DirEntry<A>>
        ensures { option_copied result ≡ find (λ n. nat_lt cookie n.cookie) self.now }
    {
        entry_above(&self.by_cookie, cookie)
    }

    /// The first name of a child, by rising cookie.
    pub fn first_of(&self, child: u64) -> Option<&DirEntry<A>>
        ensures { option_copied result ≡ find (λ n. n.child == child) self.now }
    {
        let Some(first) = cookie_sets::first(&self.by_child, child) else {
            return None;
        };
        self.get(first)
    }

    /// The child of a cookie's name.
    pub fn child(&self, cookie: u64) -> Option<u64>
        ensures { result ≡ option_map (λ n. n.child) (find (λ n. n.cookie == cookie) self.now) }
    {
        self.get(cookie).map(|entry| entry.child())
    }

    /// The directory of the first name of a child.
    pub fn directory_of(&self, child: u64) -> Option<u64>
        ensures { result ≡ option_map (λ n. n.directory) (find (λ n. n.child == child) self.now) }
    {
        self.first_of(child).map(|entry| entry.directory())
    }

    /// The number of names of an object.
    pub fn link_count(&self, number: u64) -> usize
        ensures { result ≡ link_count self.now number }
    {
        cookie_sets::count(&self.by_child, number)
    }

    /// The number of names in a directory.
    pub fn name_count(&self, directory: u64) -> usize
        ensures { result ≡ name_count self.now directory }
    {
        cookie_sets::count(&self.by_directory, directory)
    }
}

// Changes.
impl<A: Allocator + Copy> NameList<A> {
    /// No names.
    pub fn new(alloc: A) -> Self
        ensures { result ≡ [] }
    {
        NameList {
            by_cookie: BTreeMap::new(alloc),
            by_directory: BTreeMap::new(alloc),
            by_child: BTreeMap::new(alloc),
        }
    }

    /// Adds a name, with a cookie above all others. `Err`: an allocation fails, and nothing has changed.
    pub fn push(
        &mut self,
        alloc: A,
        cookie: u64,
        directory: u64,
        name: Vec<u8, A>,
        child: u64,
    ) -> Result<(), AllocError>
        requires { Rises (λ n. n.cookie) 3 self.old cookie }
        ensures ok { OnOk result
            (self.new
            ≡ self.old ++ record { cookie = cookie; directory = directory; name = name.items; child = child } ∷ []) }
        ensures err { OnErr result (self.new ≡ self.old) }
    {
        cookie_sets::put(&mut self.by_directory, alloc, directory, cookie)?;
        if let Err(refused) = cookie_sets::put(&mut self.by_child, alloc, child, cookie) {
            cookie_sets::take(&mut self.by_directory, directory, cookie);
            return Err(refused);
        }
        let entry = DirEntry::new(cookie, directory, name, child);
        if let Err(refused) = put_entry(&mut self.by_cookie, cookie, entry) {
            let (directories, children) = (&mut self.by_directory, &mut self.by_child);
            take_both(directories, children, directory, child, cookie);
            return Err(refused);
        }
        Ok(())
    }

    /// Removes the name of a cookie.
    pub fn remove(&mut self, cookie: u64)
        ensures { self.new ≡ filter (λ n. not (n.cookie == cookie)) self.old }
    {
        let Some(entry) = self.by_cookie.remove(&cookie) else {
            return;
        };
        let (directories, children) = (&mut self.by_directory, &mut self.by_child);
        take_both(
            directories,
            children,
            entry.directory(),
            entry.child(),
            cookie,
        );
    }
}
