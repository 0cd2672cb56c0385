//! The paths of a tree, a line each.
use crate::escaped::write_name;
use crate::walk::Walk;
use acl_list::Kind;
use acl_shape::mode_of;
use anyhow::Result;
use call_store::Looked;
use node_tree::{Node, Tree};
use std::alloc::Global;
use std::io;
use std::io::{BufWriter, Write};

/// The word for a type.
fn word_of(kind: Kind) -> &'static str {
    match kind {
        Kind::File => "file",
        Kind::Directory => "directory",
        Kind::Link => "link",
    }
}

/// The mode of an object, with its high bits.
pub(crate) fn mode_in(node: &Node<Global>) -> u32 {
    node.high() | mode_of(node.list())
}

/// Writes the line of an object at a path.
fn write_line<W: Write>(out: &mut W, tree: &Tree, number: u64, path: &[u8]) -> io::Result<()> {
    let Some(node) = tree.object(number) else {
        return Ok(());
    };
    let kind = word_of(node.kind());
    let mode = mode_in(node);
    let (owner, group, size) = (node.owner(), node.group(), node.size());
    write!(out, "{number} {kind} {mode:04o} {owner} {group} {size} ")?;
    write_name(out, path)?;
    out.write_all(b"\n")
}

/// Writes all lines: the root's, and after each directory its content.
fn write_all<W: Write>(out: &mut W, alloc: Global, tree: &Tree) -> Result<()> {
    write_line(out, tree, tree.root(), b"/")?;
    let mut walk = Walk::new(alloc, tree)?;
    for _step in 0..u64::MAX {
        let Some(number) = walk.next(tree)? else {
            break;
        };
        write_line(out, tree, number, walk.path())?;
    }
    Ok(())
}

/// Prints the paths of a store.
pub(crate) fn print<R: Print>(rt: &R, alloc: Global, looked: &Option<Looked>) -> Result<()> {
    let mut out = BufWriter::new(alloc, io::writer(rt))?;
    if let Some(looked) = looked {
        write_all(&mut out, alloc, looked.restart.server().tree())?;
    }
    out.flush()?;
    Ok(())
}
