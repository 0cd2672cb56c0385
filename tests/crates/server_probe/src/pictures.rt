//! Trees, access control lists (ACLs) and trails as text.

use access_guard::{Guard, write_line};
use acl_list::{Entry, EntryKind, Who};
use node_tree::{DirEntry, Kind, Node, Tree};
use std::alloc::{AllocError, Allocator, Global};

/// The lines of the trail, each with a newline.
pub fn trail_text<A: Allocator + Copy>(
    alloc: Global,
    guard: &Guard<A>,
) -> Result<Vec<u8>, AllocError> {
    let mut text = Vec::new(alloc);
    for line in guard.trail() {
        text.extend_from_slice(write_line(line).as_bytes())?;
        text.push(b'\n')?;
    }
    Ok(text)
}

fn kind_letter(kind: Kind) -> &'static str {
    match kind {
        Kind::File => "file",
        Kind::Directory => "dir",
        Kind::Link => "link",
    }
}

/// Appends a line with an object's parts.
fn put_object<A: Allocator + Copy>(
    alloc: Global,
    text: &mut Vec<u8>,
    number: u64,
    node: &Node<A>,
    links: usize,
) -> Result<(), AllocError> {
    let kind = kind_letter(node.kind());
    let (owner, group) = (node.owner(), node.group());
    let (change, stamp) = (node.change(), node.stamp());
    let (modify, metadata) = (node.time_modify().seconds, node.time_metadata().seconds);
    let line = format!(in alloc;
        "{number} {kind} {owner}:{group} links={links} change={change} times={modify},{metadata} stamp={stamp}\n"
    )?;
    text.extend_from_slice(line.as_bytes())
}

/// Appends a line with a name of a directory.
fn put_name<A: Allocator + Copy>(
    alloc: Global,
    text: &mut Vec<u8>,
    entry: &DirEntry<A>,
) -> Result<(), AllocError> {
    let (cookie, child) = (entry.cookie(), entry.child());
    let line = format!(in alloc; "  {cookie} {child} ")?;
    text.extend_from_slice(line.as_bytes())?;
    text.extend_from_slice(entry.name())?;
    text.push(b'\n')?;
    Ok(())
}

/// Appends a line for each name of a directory whose cookie is below a limit.
fn put_names<A: Allocator + Copy>(
    alloc: Global,
    text: &mut Vec<u8>,
    tree: &Tree<A>,
    directory: u64,
    limit: u64,
) -> Result<(), AllocError> {
    let mut last = 2;
    while let Some(entry) = tree.list_after(directory, last) {
        if entry.cookie() > limit {
            return Ok(());
        }
        put_name(alloc, text, entry)?;
        last = entry.cookie();
    }
    Ok(())
}

/// The objects whose numbers are below a limit, and their names whose cookies are below it.
pub fn tree_text<A: Allocator + Copy>(
    alloc: Global,
    tree: &Tree<A>,
    limit: u64,
) -> Result<Vec<u8>, AllocError> {
    let mut text = Vec::new(alloc);
    for number in 1..limit {
        if let Some(node) = tree.object(number) {
            put_object(alloc, &mut text, number, node, tree.links(number))?;
            put_names(alloc, &mut text, tree, number, limit)?;
        }
    }
    Ok(text)
}

fn entry_letter(kind: EntryKind) -> char {
    match kind {
        EntryKind::Allow => 'A',
        EntryKind::Deny => 'D',
        EntryKind::Audit => 'U',
        EntryKind::Alarm => 'L',
    }
}

fn ace_principal_text(alloc: Global, who: Who) -> Result<String, AllocError> {
    match who {
        Who::Owner => String::from_str(alloc, "OWNER@"),
        Who::Group => String::from_str(alloc, "GROUP@"),
        Who::Everyone => String::from_str(alloc, "EVERYONE@"),
        Who::User(id) | Who::GroupOf(id) => format!(in alloc; "{id}"),
    }
}

/// Appends a line with an access control entry (ACE).
fn put_entry(alloc: Global, text: &mut Vec<u8>, entry: &Entry) -> Result<(), AllocError> {
    let kind = entry_letter(entry.kind);
    let who = ace_principal_text(alloc, entry.who)?;
    let (flags, mask) = (entry.flags, entry.mask);
    let line = format!(in alloc; "{kind}:{flags:02x}:{mask:08x}:{who}\n")?;
    text.extend_from_slice(line.as_bytes())
}

/// The ACEs of an object's ACL, each with a newline, and the high bits of its mode.
pub fn list_text<A: Allocator + Copy>(
    alloc: Global,
    tree: &Tree<A>,
    number: u64,
) -> Result<Vec<u8>, AllocError> {
    let mut text = Vec::new(alloc);
    let Some(node) = tree.object(number) else {
        return Ok(text);
    };
    for entry in node.list().as_slice() {
        put_entry(alloc, &mut text, entry)?;
    }
    let high = node.high();
    text.extend_from_slice(format!(in alloc; "{high:04o}\n")?.as_bytes())?;
    Ok(text)
}
