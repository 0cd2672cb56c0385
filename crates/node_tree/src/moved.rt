//! A planned RENAME, before it is carried out.
ghost use Rattle.std.specs.Prelude.{◌≡◌, Some};
ghost use Rattle.node_tree.specs.World.{is_one};

use std::marker::Model;

/// A child that gets a new name, with the objects found for both names (RENAME: RFC 8881, section 18.26). Only
/// [`crate::Tree::plan_rename`] returns one.
#[derive(Drop)]
pub struct Move<'a> {
    /// The number of the child's directory.
    pub(crate) from: u64,
    /// The name of the child in that directory.
    pub(crate) old: &'a [u8],
    /// The number of the directory of the new name.
    pub(crate) to: u64,
    /// The new name, at most 255 bytes.
    pub(crate) new: &'a [u8],
    /// The number of the child.
    pub(crate) child: u64,
    /// The number of the object that has the new name, if any.
    pub(crate) target: Option<u64>,
}

impl<'a> Model for Move<'a> {
    ghost use Rattle.node_tree.specs.Moving.{Moving};

    ghost Value = { Moving };

    ghost view = { λ m. record {
      from = m.from;
      old = m.old.now;
      to = m.to;
      new = m.new.now;
      child = m.child;
      target = m.target;
    } };
}

impl<'a> Move<'a> {
    /// The number of the child.
    pub fn child(&self) -> u64
        ensures { result ≡ self.now.child }
    {
        self.child
    }

    /// The number of the object that has the new name, if any.
    pub fn target(&self) -> Option<u64>
        ensures { result ≡ self.now.target }
    {
        self.target
    }
}

/// A RENAME that isn't refused.
#[derive(Drop)]
pub enum Plan<'a> {
    /// Both names belong to one object, and nothing changes.
    Same,
    /// The child gets the new name.
    Move(Move<'a>),
}

/// Whether the target of a new name, which may be absent, is the child itself.
pub(crate) fn is_one(child: u64, target: Option<u64>) -> bool
    ensures { result ≡ is_one (Some child) target }
{
    match target {
        Some(target) => child == target,
        None => false,
    }
}
