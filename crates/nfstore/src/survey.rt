//! Surveys a directory of this system, and reports what a tree can't have.
use crate::fault::{Fault, Stopped};
use acl_list::Kind;
use nfs_types::Limits;
use node_tree::{MAX_NAME, MAX_TEXT};
use std::alloc::Global;
use std::collections::BTreeMap;
use std::fs::Metadata;
use std::os::unix::fs::MetadataExt;
use std::{fs, io};

/// An object of this system.
#[derive(Drop)]
pub(crate) struct Item {
    pub(crate) path: String,
    pub(crate) kind: Kind,
    pub(crate) metadata: Metadata,
    links: usize,
}

/// A name of this system. The directory and the child are places among the items.
#[derive(Drop)]
pub(crate) struct Named {
    pub(crate) directory: usize,
    pub(crate) name: String,
    pub(crate) child: usize,
}

/// The content of a directory of this system.
#[derive(Drop)]
pub(crate) struct Survey<'a> {
    rt: &'a HostRuntime,
    alloc: Global,
    /// The directory first, and each other directory before its content.
    pub(crate) items: Vec<Item>,
    pub(crate) names: Vec<Named>,
    /// The places of files with more than one name, by their device and number.
    places: BTreeMap<(u64, u64), usize, Global>,
    /// The number of things that a tree can't have. Each was reported.
    pub(crate) refused: u64,
}

/// The type of an object, if a tree can have it.
fn kind_of(metadata: &Metadata) -> Option<Kind> {
    if metadata.is_dir() {
        Some(Kind::Directory)
    } else if metadata.is_file() {
        Some(Kind::File)
    } else if metadata.is_symlink() {
        Some(Kind::Link)
    } else {
        None
    }
}

/// Why a tree can't have an object of this type and length under this name. `None`: it can.
fn reason(kind: Kind, metadata: &Metadata, name: &str) -> Option<&'static str> {
    if name.len() > MAX_NAME {
        return Some("its name has more than 255 bytes");
    }
    match kind {
        Kind::File if metadata.len() > Limits::standard().bytes() => Some(
            "it has more than 1048576 bytes",
        ),
        Kind::Link if metadata.len() > MAX_TEXT => Some("its text has more than 1024 bytes"),
        _ => None,
    }
}

/// The names of a directory, in their order.
fn names_in(rt: &HostRuntime, alloc: Global, path: &str) -> Result<Vec<String>, Fault> {
    let mut names: Vec<String> = Vec::new(alloc);
    for entry in fs::read_dir(rt, path)? {
        let entry = entry?;
        names.push(String::from_str(alloc, entry.file_name())?)?;
    }
    names.sort()?;
    Ok(names)
}

impl Survey<'_> {
    /// Reports what a tree can't have.
    fn refuse(&mut self, path: &str, why: &str) {
        let rt = self.rt;
        self.refused = self.refused.saturating_add(1);
        let _ = eprintln!(rt; "nfstore: {path}: {why}");
    }

    /// Adds an object, and returns its place.
    fn add(&mut self, path: String, kind: Kind, metadata: Metadata) -> Result<usize, Fault> {
        let place = self.items.len();
        if kind == Kind::File && metadata.nlink() > 1 {
            self.places.insert((metadata.dev(), metadata.ino()), place)?;
        }
        self.items.push(Item {
            path,
            kind,
            metadata,
            links: 1,
        })?;
        Ok(place)
    }

    /// The place of a file that was found under another name.
    fn known(&mut self, path: &str, metadata: &Metadata) -> Option<usize> {
        let place = *self.places.get(&(metadata.dev(), metadata.ino()))?;
        let item = self.items.get_mut(place)?;
        item.links = item.links.saturating_add(1);
        if item.links > Limits::standard().links() {
            self.refuse(path, "its file has more than 1000 names");
        }
        Some(place)
    }

    /// The place of the object of a name. `None`: a tree can't have it.
    fn place_of(&mut self, path: String, name: &str) -> Result<Option<usize>, Fault> {
        let metadata = fs::symlink_metadata(self.rt, path.as_str())?;
        let Some(kind) = kind_of(&metadata) else {
            self.refuse(path.as_str(), "it is no file, directory or symbolic link");
            return Ok(None);
        };
        if let Some(why) = reason(kind, &metadata, name) {
            self.refuse(path.as_str(), why);
            return Ok(None);
        }
        if let Some(place) = self.known(path.as_str(), &metadata) {
            return Ok(Some(place));
        }
        Ok(Some(self.add(path, kind, metadata)?))
    }

    /// Adds a name of a directory.
    fn name(&mut self, directory: usize, above: &str, name: String) -> Result<(), Fault> {
        let path = format!(in self.alloc; "{above}/{name}")?;
        if let Some(child) = self.place_of(path, name.as_str())? {
            self.names.push(Named {
                directory,
                name,
                child,
            })?;
        }
        Ok(())
    }

    /// Adds the content of a directory.
    fn list(&mut self, directory: usize) -> Result<(), Stopped> {
        let Some(item) = self.items.get(directory) else {
            return Ok(());
        };
        if item.kind != Kind::Directory {
            return Ok(());
        }
        let above = String::from_str(self.alloc, item.path.as_str())?;
        let names = match names_in(self.rt, self.alloc, above.as_str()) {
            Ok(names) => names,
            Err(fault) => return Err(Stopped::at(Some(above), fault)),
        };
        if names.len() > Limits::standard().names() {
            self.refuse(above.as_str(), "it has more than 4096 names");
        }
        for name in names {
            if let Err(fault) = self.name(directory, above.as_str(), name) {
                return Err(Stopped::at(Some(above), fault));
            }
        }
        Ok(())
    }

    /// Adds the content of all directories.
    fn list_all(&mut self) -> Result<(), Stopped> {
        for directory in 0..Limits::standard().objects() {
            self.list(directory)?;
        }
        if self.items.len() > Limits::standard().objects() {
            let path = match self.items.first() {
                Some(top) => String::from_str(self.alloc, top.path.as_str())?,
                None => String::new(self.alloc),
            };
            self.refuse(path.as_str(), "it has more than 16384 objects");
        }
        Ok(())
    }
}

/// Surveys a directory of this system.
pub(crate) fn look_at<'a>(
    rt: &'a HostRuntime,
    alloc: Global,
    directory: &str,
) -> Result<Survey<'a>, Stopped> {
    let mut survey = Survey {
        rt,
        alloc,
        items: Vec::new(alloc),
        names: Vec::new(alloc),
        places: BTreeMap::new(alloc),
        refused: 0,
    };
    let metadata = match fs::metadata(rt, directory) {
        Ok(metadata) if metadata.is_dir() => metadata,
        Ok(_) => return Err(Stopped::from(Fault::System(io::ErrorKind::NotADirectory.into()))),
        Err(error) => return Err(Stopped::from(Fault::System(error))),
    };
    let path = String::from_str(alloc, directory)?;
    let _top = survey.add(path, Kind::Directory, metadata)?;
    survey.list_all()?;
    Ok(survey)
}
