//! Where the objects of a tree are.
use crate::escaped::write_name;
use acl_list::Kind;
use nfs_hub::Restart;
use node_tree::Tree;
use std::alloc::{AllocError, Global};
use std::collections::{BTreeMap, BTreeSet};
use std::io;
use std::io::Write;

/// The tree of a server, and the first name of each object in it.
#[derive(Drop)]
pub(crate) struct Places {
    server: Restart,
    /// The cookie of each object's oldest name that still exists.
    first: BTreeMap<u64, u64>,
}

/// Whether an object is in the tree.
#[derive(Clone, Copy, PartialEq, Eq)]
pub(crate) enum Place {
    /// It is in the tree.
    There(Kind),
    /// It was in the tree, and was removed.
    Missing,
    /// Its number isn't given yet in the tree that was read.
    Later,
}

/// The oldest name of each object.
fn first_names(alloc: Global, tree: &Tree) -> Result<BTreeMap<u64, u64>, AllocError> {
    let mut first = BTreeMap::new(alloc);
    let mut at = 0;
    for _step in 0..u64::MAX {
        let Some(name) = tree.any_after(at) else {
            break;
        };
        at = name.cookie();
        if !first.contains_key(&name.child()) {
            first.insert(name.child(), at)?;
        }
    }
    Ok(first)
}

/// The object at a path below the root, which is `/`, or names each with `/` before it.
fn object_at(tree: &Tree, path: &str) -> Option<u64> {
    if path == "/" {
        return Some(tree.root());
    }
    let mut here = tree.root();
    for name in path.strip_prefix('/')?.split('/') {
        here = tree.find(here, name.as_bytes())?;
    }
    Some(here)
}

/// Puts the objects of a directory's names into a set, and its directories on a heap.
fn put_names(
    tree: &Tree,
    directory: u64,
    objects: &mut BTreeSet<u64>,
    heap: &mut Vec<u64>,
) -> Result<(), AllocError> {
    let mut at = 0;
    for _step in 0..u64::MAX {
        let Some(name) = tree.list_after(directory, at) else {
            break;
        };
        at = name.cookie();
        objects.insert(name.child())?;
        if tree
            .object(name.child())
            .is_some_and(|node| node.is_directory())
        {
            heap.push(name.child())?;
        }
    }
    Ok(())
}

/// An object, and all objects below it.
fn objects_from(alloc: Global, tree: &Tree, top: u64) -> Result<BTreeSet<u64>, AllocError> {
    let mut objects = BTreeSet::new(alloc);
    objects.insert(top)?;
    let mut heap = Vec::new(alloc);
    heap.push(top)?;
    for _step in 0..u64::MAX {
        let Some(directory) = heap.pop() else {
            break;
        };
        put_names(tree, directory, &mut objects, &mut heap)?;
    }
    Ok(objects)
}

impl Places {
    /// The places of a server's tree.
    pub(crate) fn new(alloc: Global, server: Restart) -> Result<Self, AllocError> {
        match first_names(alloc, server.server().tree()) {
            Ok(first) => Ok(Places { server, first }),
            Err(error) => Err(error),
        }
    }

    fn tree(&self) -> &Tree {
        self.server.server().tree()
    }

    /// The object at a path, and all objects below it. `None`: the path doesn't exist.
    pub(crate) fn below(
        &self,
        alloc: Global,
        path: &str,
    ) -> Result<Option<BTreeSet<u64>>, AllocError> {
        match object_at(self.tree(), path) {
            Some(top) => Ok(Some(objects_from(alloc, self.tree(), top)?)),
            None => Ok(None),
        }
    }

    /// Whether an object exists.
    pub(crate) fn place_of(&self, number: u64) -> Place {
        match self.tree().object(number) {
            Some(node) => Place::There(node.kind()),
            None if number < self.tree().next_number() => Place::Missing,
            None => Place::Later,
        }
    }

    /// The cookies of the names on an object's path from the root, the last name first. `None`: the object has no
    /// path.
    fn way_up(&self, alloc: Global, number: u64) -> Result<Option<Vec<u64>>, AllocError> {
        let mut way = Vec::new(alloc);
        let mut here = number;
        for _step in 0..=self.tree().limits().objects() {
            if here == self.tree().root() {
                return Ok(Some(way));
            }
            let Some(cookie) = self.first.get(&here) else {
                break;
            };
            let Some(name) = self.tree().any_after(cookie.saturating_sub(1)) else {
                break;
            };
            here = name.directory();
            way.push(*cookie)?;
        }
        Ok(None)
    }

    /// Writes the names of some cookies, the last one first.
    fn write_way<W: Write>(&self, out: &mut W, way: &[u64]) -> io::Result<()> {
        if way.is_empty() {
            return out.write_all(b"/");
        }
        for cookie in way.iter().rev() {
            if let Some(name) = self.tree().any_after(cookie.saturating_sub(1)) {
                out.write_all(b"/")?;
                write_name(out, name.name())?;
            }
        }
        Ok(())
    }

    /// Writes the path of an object. `false`: it has no path.
    pub(crate) fn write_path<W: Write>(
        &self,
        out: &mut W,
        alloc: Global,
        number: u64,
    ) -> io::Result<bool> {
        match self.way_up(alloc, number)? {
            Some(way) => {
                self.write_way(out, way.as_slice())?;
                Ok(true)
            }
            None => Ok(false),
        }
    }
}
