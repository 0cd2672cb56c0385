//! The paths of objects in a tree that changes.
use crate::escaped::write_name;
use node_tree::Tree;
use std::alloc::{AllocError, Global};
use std::collections::BTreeMap;
use std::io;
use std::io::Write;

/// The first names of objects, as far as a tree was read. No cookie is given twice, and a new name has a greater one.
/// So an existing name that was the first of its object is still the first.
#[derive(Drop)]
pub(crate) struct Paths {
    alloc: Global,
    /// The cookie of the first name of each object.
    firsts: BTreeMap<u64, u64, Global>,
    /// Names up to this cookie were read.
    seen: u64,
}

/// The cookie of the first name of an object, sought among all names.
fn seek(tree: &Tree, number: u64) -> Option<u64> {
    let mut at = 0;
    for _step in 0..u64::MAX {
        let name = tree.any_after(at)?;
        at = name.cookie();
        if name.child() == number {
            return Some(at);
        }
    }
    None
}

/// Whether the name of a cookie is still a name of this object.
fn is_of(tree: &Tree, cookie: u64, number: u64) -> bool {
    tree.name_by_cookie(cookie)
        .is_some_and(|name| name.child() == number)
}

impl Paths {
    pub(crate) fn new(alloc: Global) -> Self {
        Paths {
            alloc,
            firsts: BTreeMap::new(alloc),
            seen: 0,
        }
    }

    /// Reads the new names.
    fn follow(&mut self, tree: &Tree) -> Result<(), AllocError> {
        for _step in 0..u64::MAX {
            let Some(name) = tree.any_after(self.seen) else {
                break;
            };
            self.seen = name.cookie();
            if !self.firsts.contains_key(&name.child()) {
                self.firsts.insert(name.child(), name.cookie())?;
            }
        }
        Ok(())
    }

    /// The cookie of the object's first name now.
    fn first(&mut self, tree: &Tree, number: u64) -> Result<Option<u64>, AllocError> {
        match self.firsts.get(&number) {
            None => return Ok(None),
            Some(cookie) if is_of(tree, *cookie, number) => return Ok(Some(*cookie)),
            Some(_) => {}
        }
        let found = seek(tree, number);
        if let Some(cookie) = found {
            self.firsts.insert(number, cookie)?;
        }
        Ok(found)
    }

    /// The cookies of the names on an object's path from the root, the last name first. `None`: the object has no
    /// path.
    fn way_up(&mut self, tree: &Tree, number: u64) -> Result<Option<Vec<u64>>, AllocError> {
        self.follow(tree)?;
        let mut way = Vec::new(self.alloc);
        let mut here = number;
        for _step in 0..=tree.limits().objects() {
            if here == tree.root() {
                return Ok(Some(way));
            }
            let Some(cookie) = self.first(tree, here)? else {
                break;
            };
            let Some(name) = tree.name_by_cookie(cookie) else {
                break;
            };
            here = name.directory();
            way.push(cookie)?;
        }
        Ok(None)
    }

    /// Writes the path of an object in this tree, or its number if it has none.
    pub(crate) fn write<W: Write>(
        &mut self,
        out: &mut W,
        tree: &Tree,
        number: u64,
    ) -> io::Result<()> {
        let Some(way) = self.way_up(tree, number)? else {
            return write!(out, "object {number}");
        };
        if way.is_empty() {
            return out.write_all(b"/");
        }
        for cookie in way.iter().rev() {
            if let Some(name) = tree.name_by_cookie(*cookie) {
                out.write_all(b"/")?;
                write_name(out, name.name())?;
            }
        }
        Ok(())
    }
}
