//! The objects, each in a place of its own, with an index by number.
ghost use Rattle.std.specs.Prelude.{◌≡◌, ◌+◌, [], length, find, nat_lt, OnOk, OnErr, None, Some};
ghost use Rattle.std.specs.Option.{option_copied, option_copied_mut, option_map};
ghost use Rattle.std.specs.Map.{lookup};
ghost use Rattle.std.specs.BTreeMap.{insert_entry, is_at};
ghost use Rattle.std.specs.Ordering.{nat_cmp};
ghost use Rattle.std.specs.Borrow.{sem};
ghost use Rattle.slab.specs.Slab.{ContainsKey, HasRoomFor, Updates, slab_len};
ghost use Rattle.node_tree.specs.Changes.{without};

use crate::node::Node;
use slab::Slab;
use std::alloc::{AllocError, Allocator, Global};
use std::collections::BTreeMap;
use std::marker::Model;
use std::ops::Bound;

/// The objects by rising number.
#[derive(Drop)]
pub struct NodeTable<A: Allocator = Global> {
    nodes: Slab<Node<A>, A>,
    /// The place of each number among the nodes.
    places: BTreeMap<u64, usize, A>,
}

impl<A: Allocator> Model for NodeTable<A> {
    ghost use Rattle.std.specs.Prelude.{List, ℕ};
    ghost use Rattle.node_tree.specs.World.{Object};
    ghost use Rattle.node_tree.specs.Places.{placed, IsPlaced};

    ghost Value = { List (ℕ × Object) };

    ghost view = { λ t. placed t.nodes t.places.entries };

    ghost invariant = { λ t. IsPlaced t.nodes t.places.entries };
}

/// The place of a number.
fn place_of<A: Allocator>(places: &BTreeMap<u64, usize, A>, number: u64) -> Option<usize>
    ensures { result ≡ lookup (is_at (nat_cmp number)) places.now.entries }
{
    places.get(&number).copied()
}

/// The least number above another one.
fn above<A: Allocator>(places: &BTreeMap<u64, usize, A>, number: u64) -> Option<u64>
    ensures { result ≡ option_map (λ e. e.0) (find (λ e. nat_lt number e.0) places.now.entries) }
{
    match places
        .range((Bound::Excluded(number), Bound::Unbounded))
        .next()
    {
        Some((next, _)) => Some(*next),
        None => None,
    }
}

/// Puts an object into the next place, which is allocated already.
fn fill<A: Allocator>(nodes: &mut Slab<Node<A>, A>, node: Node<A>)
    requires { HasRoomFor nodes.old 1 }
    ensures updates { Updates nodes.old nodes.new nodes.old.vacant_key (Some node) }
    ensures len { slab_len nodes.new ≡ slab_len nodes.old + 1 }
{
    nodes.insert_reserved(node);
}

/// Removes the object of a place.
fn free<A: Allocator>(nodes: &mut Slab<Node<A>, A>, place: usize)
    requires { ContainsKey nodes.old place }
    ensures updates { Updates nodes.old nodes.new place None }
    ensures len { slab_len nodes.new + 1 ≡ slab_len nodes.old }
{
    nodes.remove(place);
}

impl<A: Allocator> NodeTable<A> {
    ghost use Rattle.node_tree.specs.Lends.{lends_object};

    /// No objects.
    pub fn new(alloc: A) -> Self
    where
        A: Copy,
        ensures { result ≡ [] }
    {
        NodeTable {
            nodes: Slab::new(alloc),
            places: BTreeMap::new(alloc),
        }
    }

    /// The number of objects.
    pub fn len(&self) -> usize
        ensures { result ≡ length self.now }
    {
        self.places.len()
    }

    /// The object of a number.
    pub fn get(&self, number: u64) -> Option<&Node<A>>
        ensures { option_copied result ≡ lookup (is_at (nat_cmp number)) self.now }
    {
        let Some(place) = place_of(&self.places, number) else {
            return None;
        };
        self.nodes.get(place)
    }

    /// The least number above another one that has an object.
    pub fn number_after(&self, number: u64) -> Option<u64>
        ensures { result ≡ option_map (λ e. e.0) (find (λ e. nat_lt number e.0) self.now) }
    {
        above(&self.places, number)
    }

    /// A mutable reference to the object of a number.
    pub fn get_mut(&mut self, number: u64) -> Option<&mut Node<A>>
        ensures* writes_back { sem 𝓛 (lends_object A.row A.Allocator self.entry number result) }
        ensures value { option_copied_mut result ≡ lookup (is_at (nat_cmp number)) self.old }
    {
        match place_of(&self.places, number) {
            Some(place) => self.nodes.get_mut(place),
            None => None,
        }
    }

    /// Adds an object, under a number that has none. `Err`: an allocation fails, and nothing has changed.
    pub fn insert(&mut self, number: u64, node: Node<A>) -> Result<(), AllocError>
    where
        A: Copy,
        requires { lookup (is_at (nat_cmp number)) self.old ≡ None }
        ensures ok { OnOk result (self.new ≡ insert_entry nat_cmp self.old number node) }
        ensures err { OnErr result (self.new ≡ self.old) }
    {
        self.nodes.reserve(1)?;
        let place = self.nodes.vacant_key();
        self.places.insert(number, place)?;
        fill(&mut self.nodes, node);
        Ok(())
    }

    /// Removes an object.
    pub fn remove(&mut self, number: u64)
        ensures { self.new ≡ without number self.old }
    {
        let Some(place) = self.places.remove(&number) else {
            return;
        };
        free(&mut self.nodes, place);
    }
}
