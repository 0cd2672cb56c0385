//! Exporting a tree to a directory of this system.
use crate::escaped::write_name;
use crate::fault::{Fault, Stopped};
use crate::listing::mode_in;
use crate::walk::Walk;
use acl_list::{AclList, Kind};
use acl_words::Words;
use node_tree::{Node, Tree};
use std::alloc::Global;
use std::collections::BTreeMap;
use std::fs::{File, OpenOptions, Permissions};
use std::io::{BufWriter, Write};
use std::os::unix::fs::{OpenOptionsExt, PermissionsExt, lchown, symlink};
use std::rt::Files;
use std::{fs, str};
use who_book::Book;

/// The mode of a file before its own is set.
const OWN_FILE: u32 = 0o600;

/// The bits of a mode that are set even if the owner couldn't be set.
const PLAIN: u32 = 0o777;

/// The exported tree, and its destination.
#[derive(Drop)]
struct Export<'a> {
    alloc: Global,
    tree: &'a Tree,
    /// The directory that becomes the root.
    root: &'a str,
    /// The first path of each object with more than one name.
    firsts: BTreeMap<u64, String, Global>,
    /// The directories, each after its parent.
    directories: Vec<(u64, String)>,
}

/// The bytes of a file, or the text of a link.
fn bytes_of(
    alloc: Global,
    tree: &Tree,
    number: u64,
    node: &Node<Global>,
) -> Result<Vec<u8>, Fault> {
    let mut bytes = Vec::new(alloc);
    bytes.resize(node.size() as usize, 0)?;
    tree.read(number, 0, &mut bytes);
    Ok(bytes)
}

/// Sets the owner, the group and the mode of an object at a path. Bits above 0o777 are set only if the owner was set.
fn dress<R: Files>(rt: &R, path: &str, node: &Node<Global>) -> Result<(), Fault> {
    let owned = lchown(rt, path, Some(node.owner()), Some(node.group()));
    if node.kind() == Kind::Link {
        return Ok(());
    }
    let mode = if owned.is_ok() {
        mode_in(node)
    } else {
        mode_in(node) & PLAIN
    };
    fs::set_permissions(rt, path, Permissions::from_mode(mode)).map_err(Fault::System)
}

impl Export<'_> {
    /// The path of this system for a path of the tree.
    fn path_of(&self, path: &[u8]) -> Result<String, Fault> {
        let Ok(text) = str::from_utf8(path) else {
            return Err(Fault::Text);
        };
        let root = self.root;
        Ok(format!(in self.alloc; "{root}{text}")?)
    }

    /// Makes a link.
    fn make_link<R: Files>(
        &self,
        rt: &R,
        number: u64,
        node: &Node<Global>,
        path: &str,
    ) -> Result<(), Fault> {
        let bytes = bytes_of(self.alloc, self.tree, number, node)?;
        let Ok(text) = str::from_utf8(&bytes) else {
            return Err(Fault::Text);
        };
        symlink(rt, text, path)?;
        dress(rt, path, node)
    }

    /// Makes a file.
    fn make_file<R: Files<File = File>>(
        &self,
        rt: &R,
        number: u64,
        node: &Node<Global>,
        path: &str,
    ) -> Result<(), Fault> {
        let bytes = bytes_of(self.alloc, self.tree, number, node)?;
        let mut options = OpenOptions::new();
        options.write(true).create_new(true).mode(OWN_FILE);
        let mut file = options.open(rt, path)?;
        file.write_all(&bytes)?;
        dress(rt, path, node)
    }

    /// Makes an object, or a further name of it.
    fn make<R: Files<File = File>>(
        &mut self,
        rt: &R,
        number: u64,
        path: String,
    ) -> Result<(), Fault> {
        let Some(node) = self.tree.object(number) else {
            return Ok(());
        };
        if let Some(first) = self.firsts.get(&number) {
            return fs::hard_link(rt, first.as_str(), path.as_str()).map_err(Fault::System);
        }
        match node.kind() {
            Kind::Directory => {
                fs::create_dir(rt, path.as_str())?;
                self.directories.push((number, path))?;
                return Ok(());
            }
            Kind::File => self.make_file(rt, number, node, path.as_str())?,
            Kind::Link => self.make_link(rt, number, node, path.as_str())?,
        }
        if self.tree.links(number) > 1 {
            self.firsts.insert(number, path)?;
        }
        Ok(())
    }

    /// Sets the owners and modes of the directories, the lowest first, since a mode may deny access.
    fn dress_directories<R: Files>(&self, rt: &R) -> Result<(), Fault> {
        for (number, path) in self.directories.iter().rev() {
            if let Some(node) = self.tree.object(*number) {
                dress(rt, path.as_str(), node)?;
            }
        }
        Ok(())
    }
}

/// Writes the ACL (access control list) of an object at a path: a line with the path, the ACEs in words, and an empty
/// line.
fn write_list<W: Write>(
    out: &mut W,
    alloc: Global,
    book: &Book,
    path: &[u8],
    list: &AclList<Global>,
) -> Result<(), Fault> {
    out.write_all(b"# ")?;
    write_name(out, path)?;
    out.write_all(b"\n")?;
    for entry in list.as_slice() {
        let who = book.spell_ace_principal(entry.who);
        let words = Words {
            kind: entry.kind,
            flags: (entry.flags & 0xFF) as u8,
            mask: entry.mask,
            who: who.as_bytes(),
        };
        let mut line = Vec::new(alloc);
        words.put(&mut line)?;
        line.push(b'\n')?;
        out.write_all(&line)?;
    }
    out.write_all(b"\n").map_err(Fault::System)
}

/// Writes the ACLs of all paths to a new file.
fn write_lists<R: Files<File = File>>(
    rt: &R,
    alloc: Global,
    tree: &Tree,
    path: &str,
) -> Result<(), Fault> {
    let book = Book::default(alloc);
    let file = File::create_new(rt, path)?;
    let mut out = BufWriter::new(alloc, file)?;
    if let Some(root) = tree.object(tree.root()) {
        write_list(&mut out, alloc, &book, b"/", root.list())?;
    }
    let mut walk = Walk::new(alloc, tree)?;
    for _step in 0..u64::MAX {
        let Some(number) = walk.next(tree)? else {
            break;
        };
        if let Some(node) = tree.object(number) {
            write_list(&mut out, alloc, &book, walk.path(), node.list())?;
        }
    }
    out.flush().map_err(Fault::System)
}

/// Writes the objects of a tree below a new directory.
fn write_objects<R: Files<File = File>>(
    rt: &R,
    alloc: Global,
    tree: &Tree,
    root: &str,
) -> Result<(), Stopped> {
    let mut export = Export {
        alloc,
        tree,
        root,
        firsts: BTreeMap::new(alloc),
        directories: Vec::new(alloc),
    };
    let top = export.path_of(b"")?;
    export.make(rt, tree.root(), top)?;
    let mut walk = Walk::new(alloc, tree)?;
    for _step in 0..u64::MAX {
        let Some(number) = walk.next(tree)? else {
            break;
        };
        let path = export.path_of(walk.path())?;
        if let Err(fault) = export.make(rt, number, path) {
            return Err(Stopped::at(export.path_of(walk.path()).ok(), fault));
        }
    }
    Ok(export.dress_directories(rt)?)
}

/// Exports a tree to a new directory: its objects below `tree` there, and its ACLs to `acl.txt`.
pub(crate) fn write_tree<R: Files<File = File>>(
    rt: &R,
    alloc: Global,
    tree: &Tree,
    directory: &str,
) -> Result<(), Stopped> {
    if let Err(error) = fs::create_dir(rt, directory) {
        return Err(Stopped::from(Fault::System(error)));
    }
    let lists = format!(in alloc; "{directory}/acl.txt")?;
    write_lists(rt, alloc, tree, lists.as_str())?;
    let root = format!(in alloc; "{directory}/tree")?;
    write_objects(rt, alloc, tree, root.as_str())
}
