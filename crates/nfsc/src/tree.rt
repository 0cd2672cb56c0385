//! The objects below a directory, as the server lists them.
use crate::fault::Fault;
use crate::printable::Printable;
use nfs_client::{Client, ToolFault, Transport};
use std::alloc::{AllocError, Global};

/// The most objects of a tree.
const MOST_OBJECTS: usize = 1_000_000;

/// The columns of a line of a listing: type, mode, owner, group, size, name.
const COLUMNS: usize = 6;

/// An object in a directory.
#[derive(Drop)]
pub(crate) struct Object {
    pub(crate) path: Vec<u8>,
    pub(crate) kind: Kind,
    /// The columns before the name, as they are printed, with a space after each.
    pub(crate) columns: String,
}

/// The type of an object.
#[derive(Clone, Copy, PartialEq, Eq)]
pub(crate) enum Kind {
    Directory,
    Link,
    /// A file, or an object whose type the server didn't give.
    Other,
}

/// A directory that can't be listed, and why.
#[derive(Drop)]
pub(crate) struct Unlisted {
    pub(crate) path: Vec<u8>,
    pub(crate) fault: ToolFault,
}

/// The objects below a directory.
#[derive(Drop)]
pub(crate) struct Tree {
    /// Each directory comes before its contents.
    pub(crate) objects: Vec<Object>,
    /// The directories that the server refused to list.
    pub(crate) unlisted: Vec<Unlisted>,
}

fn kind_in(text: &[u8]) -> Option<Kind> {
    match text {
        [b'd'] => Some(Kind::Directory),
        [b'l'] => Some(Kind::Link),
        [b'-' | b'?'] => Some(Kind::Other),
        _ => None,
    }
}

/// Whether this can be a name in a directory.
fn is_name(text: &[u8]) -> bool {
    !text.is_empty() && text != b".".as_slice() && text != b"..".as_slice() && !text.contains(&b'/')
}

/// The path of a name in a directory.
fn path_in(alloc: Global, directory: &[u8], name: &[u8]) -> Result<Vec<u8>, AllocError> {
    let mut path = Vec::new(alloc);
    if directory != b"/".as_slice() {
        path.extend_from_slice(directory)?;
    }
    path.push(b'/')?;
    path.extend_from_slice(name)?;
    Ok(path)
}

/// The object of a line of a listing. `Reply`: its name can't be one in a directory.
fn object_in(alloc: Global, directory: &[u8], entry: &[&[u8]]) -> Result<Object, Fault> {
    let [letter, mode, owner, group, size, name] = entry else {
        return Err(Fault::Tool(ToolFault::Reply));
    };
    let Some(kind) = kind_in(letter) else {
        return Err(Fault::Tool(ToolFault::Reply));
    };
    if !is_name(name) {
        return Err(Fault::Tool(ToolFault::Reply));
    }
    let (letter, mode, size) = (Printable(letter), Printable(mode), Printable(size));
    let (owner, group) = (Printable(owner), Printable(group));
    Ok(Object {
        path: path_in(alloc, directory, name)?,
        kind,
        columns: format!(in alloc; "{letter} {mode} {owner} {group} {size} ")?,
    })
}

impl Tree {
    /// Puts the objects of a directory's listing, in which each column is followed by a zero byte.
    fn put(&mut self, alloc: Global, directory: &[u8], listing: &[u8]) -> Result<(), Fault> {
        let Some(text) = listing.strip_suffix(b"\0") else {
            return Ok(());
        };
        let columns: Vec<&[u8]> = text.split(|byte| *byte == 0).collect(alloc)?;
        for entry in columns.chunks(COLUMNS) {
            self.objects.push(object_in(alloc, directory, entry)?)?;
        }
        Ok(())
    }

    /// Lists a directory, and puts its objects. A refusal is noted.
    fn list<S: Transport>(
        &mut self,
        client: &mut Client<S>,
        alloc: Global,
        path: Vec<u8>,
    ) -> Result<(), Fault> {
        match client.ls_zero(path.as_slice()) {
            Ok(listing) => self.put(alloc, path.as_slice(), listing.as_slice()),
            Err(fault @ ToolFault::Refused(_, _)) => {
                self.unlisted.push(Unlisted { path, fault })?;
                Ok(())
            }
            Err(fault) => Err(Fault::Tool(fault)),
        }
    }

    /// The path of the object at this place, if that is a directory.
    fn directory_at(&self, index: usize) -> Result<Option<Vec<u8>>, AllocError> {
        match self.objects.get(index) {
            Some(object) if object.kind == Kind::Directory => Ok(Some(object.path.clone()?)),
            _ => Ok(None),
        }
    }

    /// The objects in a directory. A refusal to list it is the command's result.
    pub(crate) fn within<S: Transport>(
        client: &mut Client<S>,
        alloc: Global,
        path: &[u8],
    ) -> Result<Self, Fault> {
        let mut tree = Tree {
            objects: Vec::new(alloc),
            unlisted: Vec::new(alloc),
        };
        let listing = client.ls_zero(path)?;
        tree.put(alloc, path, listing.as_slice())?;
        Ok(tree)
    }

    /// The objects below a directory. A refusal to list the directory itself is the command's
    /// result.
    pub(crate) fn below<S: Transport>(
        client: &mut Client<S>,
        alloc: Global,
        path: &[u8],
    ) -> Result<Self, Fault> {
        let mut tree = Tree::within(client, alloc, path)?;
        for index in 0..MOST_OBJECTS {
            if index >= tree.objects.len() {
                return Ok(tree);
            }
            if let Some(directory) = tree.directory_at(index)? {
                tree.list(client, alloc, directory)?;
            }
        }
        Err(Fault::TooMany)
    }
}
