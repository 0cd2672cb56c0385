//! The names of all directories, by rising cookie, with an index by directory and name.
ghost use Rattle.std.specs.Prelude.{◌≡◌, ◌++◌, ◌∷◌, [], find, filter, not, nat_lt, nat_eq, ◌==◌, ◌&&◌, OnOk, OnErr};
ghost use Rattle.std.specs.Prelude.{None};
ghost use Rattle.std.specs.Option.{option_map, option_map_or, option_copied};
ghost use Rattle.node_tree.specs.World.{is_named, link_count, has_name, name_count, has_entries};
ghost use Rattle.node_tree.specs.Changes.{other_names};
ghost use Rattle.node_tree.specs.Sound.{Rises};

use crate::entry::DirEntry;
use crate::name_index;
use crate::name_list::NameList;
use std::alloc::{AllocError, Allocator, Global};
use std::collections::BTreeMap;
use std::marker::Model;

/// The names of all directories, by rising cookie.
#[derive(Drop)]
pub struct NameTable<A: Allocator = Global> {
    list: NameList<A>,
    /// The cookie of each name, by directory.
    index: BTreeMap<u64, BTreeMap<Vec<u8, A>, u64, A>, A>,
}

impl<A: Allocator> Model for NameTable<A> {
    ghost use Rattle.std.specs.Prelude.{List};
    ghost use Rattle.node_tree.specs.World.{Name};
    ghost use Rattle.node_tree.specs.Indexes.{IsKept};

    ghost Value = { List Name };

    ghost view = { λ n. n.list };

    ghost invariant = { λ n. IsKept n.index n.list };
}

/// Removes the name of a cookie, if any.
fn remove_found<A: Allocator + Copy>(names: &mut NameList<A>, cookie: Option<u64>)
    ensures { names.new ≡ option_map_or (λ k. filter (λ n. not (n.cookie == k)) names.old) cookie names.old }
{
    if let Some(cookie) = cookie {
        names.remove(cookie);
    }
}

// Look-ups.
impl<A: Allocator> NameTable<A> {
    /// The child of a name in a directory.
    pub fn find(&self, directory: u64, name: &[u8]) -> Option<u64>
        ensures { result ≡ option_map (λ n. n.child) (find (is_named directory name.now) self.now) }
    {
        let Some(cookie) = name_index::find(&self.index, directory, name) else {
            return None;
        };
        self.list.child(cookie)
    }

    /// The next name of a directory, by rising cookie.
    pub fn list_after(&self, directory: u64, cookie: u64) -> Option<&DirEntry<A>>
        ensures { option_copied result ≡ find (λ n. (n.directory == directory) && nat_lt cookie n.cookie) self.now }
    {
        self.list.list_after(directory, cookie)
    }

    /// The name of a cookie.
    pub fn name_by_cookie(&self, cookie: u64) -> Option<&DirEntry<A>>
        ensures { option_copied result ≡ find (λ n. n.cookie == cookie) self.now }
    {
        self.list.get(cookie)
    }

    /// The next name of all, by rising cookie.
    pub fn after(&self, cookie: u64) -> Option<&DirEntry<A>>
        ensures { option_copied result ≡ find (λ n. nat_lt cookie n.cookie) self.now }
    {
        self.list.after(cookie)
    }

    /// The directory of the first name of an object.
    pub fn directory_of(&self, number: u64) -> Option<u64>
        ensures { result ≡ option_map (λ n. n.directory) (find (λ n. n.child == number) self.now) }
    {
        self.list.directory_of(number)
    }

    /// The number of names of an object.
    pub fn link_count(&self, number: u64) -> usize
        ensures { result ≡ link_count self.now number }
    {
        self.list.link_count(number)
    }

    /// Whether an object has a name.
    #[tactic(auto, using(crate::proofs::Counting::any_counted))]
    pub fn has_name(&self, number: u64) -> bool
        ensures { result ≡ has_name self.now number }
    {
        0 < self.link_count(number)
    }

    /// The number of names in a directory.
    pub fn name_count(&self, directory: u64) -> usize
        ensures { result ≡ name_count self.now directory }
    {
        self.list.name_count(directory)
    }

    /// Whether a directory has names.
    #[tactic(auto, using(crate::proofs::Names::names_counted, crate::proofs::Counting::any_counted))]
    pub fn has_entries(&self, directory: u64) -> bool
        ensures { result ≡ has_entries self.now directory }
    {
        0 < self.name_count(directory)
    }
}

// Changes.
impl<A: Allocator + Copy> NameTable<A> {
    /// No names.
    pub fn new(alloc: A) -> Self
        ensures { result ≡ [] }
    {
        NameTable {
            list: NameList::new(alloc),
            index: BTreeMap::new(alloc),
        }
    }

    /// Adds a name that doesn't exist yet, with a cookie above all others. `Err`: an allocation fails, and nothing has
    /// changed.
    pub fn push(
        &mut self,
        alloc: A,
        cookie: u64,
        directory: u64,
        name: &[u8],
        child: u64,
    ) -> Result<(), AllocError>
        requires absent { option_map (λ n. n.child) (find (is_named directory name.now) self.old) ≡ None }
        requires last { Rises (λ n. n.cookie) 3 self.old cookie }
        ensures ok { OnOk result
            (self.new
            ≡ self.old ++ record { cookie = cookie; directory = directory; name = name.now; child = child } ∷ []) }
        ensures err { OnErr result (self.new ≡ self.old) }
    {
        let key = Vec::from_slice(alloc, name)?;
        let name = Vec::from_slice(alloc, name)?;
        self.list.push(alloc, cookie, directory, name, child)?;
        if let Err(refused) = name_index::put(&mut self.index, alloc, directory, key, cookie) {
            self.list.remove(cookie);
            return Err(refused);
        }
        Ok(())
    }

    /// Removes a name.
    pub fn remove(&mut self, directory: u64, name: &[u8])
        ensures { self.new ≡ other_names directory name.now self.old }
    {
        let cookie = name_index::take(&mut self.index, directory, name);
        remove_found(&mut self.list, cookie);
    }

    /// Replaces two names, either of which may be absent, by a new name of a child, with a cookie above all others.
    /// `Err`: an allocation fails, and nothing has changed.
    pub fn replace(
        &mut self,
        alloc: A,
        from: u64,
        old: &[u8],
        to: u64,
        new: &[u8],
        cookie: u64,
        child: u64,
    ) -> Result<(), AllocError>
        requires { Rises (λ n. n.cookie) 3 self.old cookie }
        ensures ok { OnOk result
            (self.new
            ≡ other_names to new.now (other_names from old.now self.old)
            ++ record { cookie = cookie; directory = to; name = new.now; child = child } ∷ []) }
        ensures err { OnErr result (self.new ≡ self.old) }
    {
        let key = Vec::from_slice(alloc, new)?;
        let name = Vec::from_slice(alloc, new)?;
        self.list.push(alloc, cookie, to, name, child)?;
        let target = match name_index::put(&mut self.index, alloc, to, key, cookie) {
            Ok(target) => target,
            Err(refused) => {
                self.list.remove(cookie);
                return Err(refused);
            }
        };
        let moved = name_index::take_other(&mut self.index, from, old, to, new);
        remove_found(&mut self.list, moved);
        remove_found(&mut self.list, target);
        Ok(())
    }
}
