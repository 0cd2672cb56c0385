//! Trees, line by line. Names are hexadecimal digits.

use crate::digits::bytes_in;
use crate::objects::{add, link, set_list};
use crate::split_word;
use acl_list::Kind;
use node_tree::Tree;
use std::alloc::Global;
use std::test::Fail;

fn kind_of(word: &str) -> Option<Kind> {
    match word {
        "file" => Some(Kind::File),
        "dir" => Some(Kind::Directory),
        "link" => Some(Kind::Link),
        _ => None,
    }
}

/// `add DIRECTORY NAME KIND LIST`: an object is added to a directory.
fn add_line(alloc: Global, tree: &mut Tree, words: &str) -> Result<(), Fail> {
    let (directory, rest) = split_word(words);
    let (name, rest) = split_word(rest);
    let (kind, list) = split_word(rest);
    let Some(kind) = kind_of(kind) else {
        return Err(Fail::new("no kind"));
    };
    let name = bytes_in(alloc, name)?;
    add(alloc, tree, directory.parse()?, &name, kind, list)?;
    Ok(())
}

/// `name NAME NUMBER`: a link has one more name in the root.
fn name_line(alloc: Global, tree: &mut Tree, words: &str) -> Result<(), Fail> {
    let (name, number) = split_word(words);
    link(tree, &bytes_in(alloc, name)?, number.parse()?)
}

/// `set NAME LIST`: the ACL (access control list) of the object that has a name in the root.
fn set_line(alloc: Global, tree: &mut Tree, words: &str) -> Result<(), Fail> {
    let (name, list) = split_word(words);
    set_list(alloc, tree, &bytes_in(alloc, name)?, list)
}

/// Whether a line adds to a tree.
pub fn grows(line: &str) -> bool {
    matches!(split_word(line).0, "add" | "name" | "set")
}

fn grow_line(alloc: Global, tree: &mut Tree, line: &str) -> Result<(), Fail> {
    let (word, rest) = split_word(line);
    match word {
        "add" => add_line(alloc, tree, rest),
        "name" => name_line(alloc, tree, rest),
        "set" => set_line(alloc, tree, rest),
        _ => Ok(()),
    }
}

/// Adds to a tree by those of the lines that do.
pub fn grow(alloc: Global, tree: &mut Tree, lines: &str) -> Result<(), Fail> {
    for line in lines.lines() {
        grow_line(alloc, tree, line)?;
    }
    Ok(())
}
