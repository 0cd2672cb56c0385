//! A name in a directory.
ghost use Rattle.std.specs.Prelude.{◌≡◌};
ghost use Rattle.node_tree.specs.World.{is_named};

use std::alloc::{Allocator, Global};
use std::marker::Model;

/// A name in a directory, as READDIR lists it (RFC 8881, section 18.23).
#[derive(Drop)]
pub struct DirEntry<A: Allocator = Global> {
    cookie: u64,
    directory: u64,
    name: Vec<u8, A>,
    child: u64,
}

impl<A: Allocator> Model for DirEntry<A> {
    ghost use Rattle.node_tree.specs.World.{Name};

    ghost Value = { Name };

    ghost view = { λ e. record { cookie = e.cookie; directory = e.directory; name = e.name.items; child = e.child } };
}

impl<A: Allocator> DirEntry<A> {
    /// A child under a name in a directory.
    pub(crate) fn new(cookie: u64, directory: u64, name: Vec<u8, A>, child: u64) -> Self
        ensures { result ≡ record { cookie = cookie; directory = directory; name = name.items; child = child } }
    {
        DirEntry {
            cookie,
            directory,
            name,
            child,
        }
    }

    /// The cookie: no other name ever has it, and later names have higher ones.
    pub fn cookie(&self) -> u64
        ensures { result ≡ self.now.cookie }
    {
        self.cookie
    }

    /// The number of the directory.
    pub fn directory(&self) -> u64
        ensures { result ≡ self.now.directory }
    {
        self.directory
    }

    /// The bytes of the name.
    pub fn name(&self) -> &[u8]
        ensures { result.now ≡ self.now.name }
    {
        self.name.as_slice()
    }

    /// The object number of the child.
    pub fn child(&self) -> u64
        ensures { result ≡ self.now.child }
    {
        self.child
    }

    /// Whether this is the name in the directory.
    pub(crate) fn is_named(&self, directory: u64, name: &[u8]) -> bool
        ensures { result ≡ is_named directory name.now self.now }
    {
        self.directory == directory && self.name.as_slice() == name
    }
}
