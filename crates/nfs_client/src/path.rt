//! Paths.
ghost use Rattle.std.specs.Prelude.{◌≡◌, map, option_map, IfOk};
ghost use Rattle.std.specs.List.{list_all, slice_split};
ghost use Rattle.nfs_client.specs.Paths.{is_slash, is_name, after_slash};
ghost use Rattle.nfs_client.specs.PathViews.{PathGives};

use crate::fault::ToolFault;
use std::alloc::{AllocError, Allocator, Global};
use std::marker::Model;

/// The names of a path, from the root on, borrowed from its text.
#[derive(Drop)]
pub struct Path<'a, A: Allocator = Global> {
    names: Vec<&'a [u8], A>,
}

impl<'a, A: Allocator> Model for Path<'a, A> {
    ghost use Rattle.std.specs.Prelude.{List, ℕ, map};

    ghost Value = { List (List ℕ) };

    ghost view = { λ p. map (λ n. n.now) p.names.items };
}

/// The rest after a slash at the start.
fn after_slash(text: &[u8]) -> Option<&[u8]>
    ensures { option_map (λ rest. rest.now) result ≡ after_slash text.now }
{
    match text {
        [b'/', rest @ ..] => Some(rest),
        _ => None,
    }
}

/// The parts of a text between its slashes.
fn parts<A: Allocator>(alloc: A, text: &[u8]) -> Result<Vec<&[u8], A>, AllocError>
    ensures { IfOk result (λ v. map (λ n. n.now) v.items ≡ slice_split is_slash text.now) }
{
    text.split(|b| *b == b'/').collect(alloc)
}

/// Whether each part is a name.
fn are_names(parts: &[&[u8]]) -> bool
    ensures { result ≡ list_all (λ n. is_name n.now) parts.now }
{
    parts.iter().all(|part| !part.is_empty())
}

impl<'a, A: Allocator> Path<'a, A> {
    /// The path of a text: `/`, or names each with `/` before it. `Path`: the text is neither, as `//` or a name with
    /// `/` after it. The names aren't checked, since the server does that.
    pub fn read(alloc: A, text: &'a [u8]) -> Result<Self, ToolFault>
        ensures { PathGives (λ path. path) text.entry.now result }
    {
        let Some(rest) = after_slash(text) else {
            return Err(ToolFault::Path);
        };
        if rest.is_empty() {
            return Ok(Path {
                names: Vec::new(alloc),
            });
        }
        let names = parts(alloc, rest)?;
        if !are_names(&names) {
            return Err(ToolFault::Path);
        }
        Ok(Path { names })
    }

    /// The names.
    pub fn names(&self) -> &[&'a [u8]]
        ensures { map (λ n. n.now) result.now ≡ self.now }
    {
        self.names.as_slice()
    }
}

/// A name in a directory.
#[derive(Drop)]
pub(crate) struct Place<'a, A: Allocator> {
    /// The names of the directory's path, from the root on.
    pub(crate) directory: Vec<&'a [u8], A>,
    pub(crate) name: &'a [u8],
}

impl<'a, A: Allocator> Place<'a, A> {
    ghost use Rattle.nfs_client.specs.PlaceViews.{PlaceGives};

    /// The last name of a path in the directory before it. `Path`: the text is no path, or `/`.
    pub(crate) fn read(alloc: A, text: &'a [u8]) -> Result<Self, ToolFault>
        ensures { PlaceGives text.entry.now result }
    {
        let Path { mut names } = match Path::read(alloc, text) {
            Ok(path) => path,
            Err(fault) => return Err(fault),
        };
        match names.pop() {
            Some(name) => Ok(Place {
                directory: names,
                name,
            }),
            None => Err(ToolFault::Path),
        }
    }
}
