//! Where a store is that is checked or copied, and where its copy goes.
use std::alloc::{AllocError, Global};
use std::fs;
use std::rt::Files;

/// A home of `nfsd`, or the folder of a store alone.
#[derive(Drop)]
pub(crate) struct Source<'a> {
    /// The folder that was given.
    pub(crate) folder: &'a str,
    /// The folder of its store.
    pub(crate) store: String,
    /// Whether it is a home.
    pub(crate) is_home: bool,
}

/// Whether a path leads to a folder.
fn is_folder<R: Files>(rt: &R, path: &str) -> bool {
    match fs::metadata(rt, path) {
        Ok(found) => found.is_dir(),
        Err(_) => false,
    }
}

impl<'a> Source<'a> {
    /// What a folder is: a home if it has a folder `store`, and no CURRENT of its own.
    pub(crate) fn find<R: Files>(
        rt: &R,
        alloc: Global,
        folder: &'a str,
    ) -> Result<Self, AllocError> {
        let current = format!(in alloc; "{folder}/CURRENT")?;
        let below = format!(in alloc; "{folder}/store")?;
        let is_store = fs::symlink_metadata(rt, current.as_str()).is_ok();
        let is_home = !is_store && is_folder(rt, below.as_str());
        let store = if is_home {
            below
        } else {
            String::from_str(alloc, folder)?
        };
        Ok(Source {
            folder,
            store,
            is_home,
        })
    }
}

/// Where a copy goes.
#[derive(Drop)]
pub(crate) struct Target<'a> {
    /// The name that a whole copy gets.
    pub(crate) folder: &'a str,
    /// The name that it has until then.
    pub(crate) fresh: String,
    /// The folder of its store, below that one.
    pub(crate) store: String,
}

/// A path without slashes at its end.
fn without_slashes(path: &str) -> &str {
    let name = path.trim_end_matches('/');
    if name.is_empty() { path } else { name }
}

impl<'a> Target<'a> {
    /// The destination of a copy of this source.
    pub(crate) fn new(
        alloc: Global,
        source: &Source<'_>,
        directory: &'a str,
    ) -> Result<Self, AllocError> {
        let folder = without_slashes(directory);
        let fresh = format!(in alloc; "{folder}.new")?;
        let name = fresh.as_str();
        let store = if source.is_home {
            format!(in alloc; "{name}/store")?
        } else {
            format!(in alloc; "{name}")?
        };
        Ok(Target {
            folder,
            fresh,
            store,
        })
    }
}
