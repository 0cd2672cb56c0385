//! An access control list (ACL).
ghost use Rattle.std.specs.Prelude.{◌≡◌, ◌==◌, [], ◌∷◌, ◌++◌, length, OnOk, OnErr, IfOk};

use crate::entry::Entry;
use std::alloc::{AllocError, Allocator, Global};
use std::marker::Model;

/// An access control list: access control entries (ACEs), in order. The first ACE has the index 0.
///
/// It holds any ACEs. Other crates limit the number and the form of the ACEs of an object's ACL.
#[derive(Debug, Drop)]
pub struct AclList<A: Allocator = Global> {
    entries: Vec<Entry, A>,
}

impl<A: Allocator> Model for AclList<A> {
    ghost use Rattle.std.specs.Prelude.{List};
    ghost use Rattle.acl_list.specs.declared.entry.Entry.{Entry};

    ghost Value = { List Entry };

    ghost view = { λ l. l.entries.items };
}

impl<A: Allocator> AclList<A> {
    /// An ACL with no ACEs. The function allocates nothing.
    pub fn new(alloc: A) -> Self
        ensures { result ≡ [] }
    {
        AclList {
            entries: Vec::new(alloc),
        }
    }

    /// The ACL of these ACEs. The function allocates nothing.
    pub fn from_vec(entries: Vec<Entry, A>) -> Self
        ensures { result ≡ entries.items }
    {
        Self { entries }
    }

    /// Returns the ACEs. The function allocates nothing.
    pub fn into_vec(self) -> Vec<Entry, A>
        ensures { result.items ≡ self }
    {
        let AclList { entries } = self;
        entries
    }

    /// A copy of these ACEs. `Err`: the allocation fails.
    pub fn from_slice(alloc: A, entries: &[Entry]) -> Result<Self, AllocError>
        ensures { IfOk result (λ list. list ≡ entries.now) }
    {
        Ok(AclList {
            entries: Vec::from_slice(alloc, entries)?,
        })
    }

    /// A copy of the ACL over another allocator. `Err`: the allocation fails.
    pub fn clone_in<B: Allocator>(&self, alloc: B) -> Result<AclList<B>, AllocError>
        ensures { IfOk result (λ list. list ≡ self.now) }
    {
        AclList::from_slice(alloc, self.as_slice())
    }

    /// The number of ACEs.
    pub fn len(&self) -> usize
        ensures { result ≡ length self.now }
    {
        self.entries.len()
    }

    /// Whether the ACL has no ACEs.
    pub fn is_empty(&self) -> bool
        ensures { result ≡ (length self.now == 0) }
    {
        self.entries.is_empty()
    }

    /// The ACEs, in order.
    pub fn as_slice(&self) -> &[Entry]
        ensures { result.now ≡ self.now }
    {
        self.entries.as_slice()
    }

    /// Appends an ACE. `Err`: the allocation fails, and the ACL is unchanged.
    pub fn push(&mut self, entry: Entry) -> Result<(), AllocError>
        ensures ok { OnOk result (self.new ≡ self.old ++ entry ∷ []) }
        ensures err { OnErr result (self.new ≡ self.old) }
    {
        self.entries.push(entry)?;
        Ok(())
    }
}

impl<A: Allocator> From<Vec<Entry, A>> for AclList<A> {
    ghost from_gives = { λ entries list. list ≡ entries.items };

    fn from(entries: Vec<Entry, A>) -> AclList<A> {
        AclList::from_vec(entries)
    }
}
