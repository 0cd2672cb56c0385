//! A walk over the paths of a tree.
use node_tree::Tree;
use std::alloc::{AllocError, Global};

/// A directory in a walk over its names: its number, the cookie of the last name, and the length of its path.
#[derive(Clone, Copy)]
struct Level {
    directory: u64,
    cookie: u64,
    path: usize,
}

/// A walk over the paths below the root: each directory before its content, names in the order in which they were
/// made.
#[derive(Drop)]
pub(crate) struct Walk {
    levels: Vec<Level>,
    path: Vec<u8>,
}

impl Walk {
    /// A walk at its start.
    pub(crate) fn new(alloc: Global, tree: &Tree) -> Result<Self, AllocError> {
        let mut levels = Vec::new(alloc);
        levels.push(Level {
            directory: tree.root(),
            cookie: 0,
            path: 0,
        })?;
        Ok(Walk {
            levels,
            path: Vec::new(alloc),
        })
    }

    /// The path of the last object.
    pub(crate) fn path(&self) -> &[u8] {
        self.path.as_slice()
    }

    /// The object of the next name of the lowest directory. `None`: it has no more names, and is left.
    fn name(&mut self, tree: &Tree) -> Result<Option<u64>, AllocError> {
        let Some(level) = self.levels.last_mut() else {
            return Ok(None);
        };
        self.path.truncate(level.path);
        let Some(name) = tree.list_after(level.directory, level.cookie) else {
            let _ = self.levels.pop();
            return Ok(None);
        };
        level.cookie = name.cookie();
        self.path.push(b'/')?;
        self.path.extend_from_slice(name.name())?;
        Ok(Some(name.child()))
    }

    /// Enters a directory.
    fn enter(&mut self, directory: u64) -> Result<(), AllocError> {
        self.levels.push(Level {
            directory,
            cookie: 0,
            path: self.path.len(),
        })?;
        Ok(())
    }

    /// The next object. `None`: the walk is over.
    pub(crate) fn next(&mut self, tree: &Tree) -> Result<Option<u64>, AllocError> {
        for _step in 0..u64::MAX {
            if self.levels.is_empty() {
                break;
            }
            if let Some(number) = self.name(tree)? {
                if tree.object(number).is_some_and(|node| node.is_directory()) {
                    self.enter(number)?;
                }
                return Ok(Some(number));
            }
        }
        Ok(None)
    }
}
