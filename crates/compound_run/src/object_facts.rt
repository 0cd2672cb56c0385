//! The attributes of an object for GETATTR, READDIR, VERIFY and NVERIFY (RFC 8881, sections 5.6 to 5.8 and 6.2).
ghost use Rattle.std.specs.Prelude.{◌≡◌, IfSome, is_some, if◌then◌else◌, length, bit_or};
ghost use Rattle.acl_shape.specs.Inherited.{is_directory};
ghost use Rattle.compound_run.specs.Asking.{sight_of};
ghost use Rattle.compound_run.specs.Values.{facts_at, if_asked, links_at};
ghost use Rattle.nfs_types.specs.FactsView.{facts_value};
ghost use Rattle.nfs_types.specs.Views.{bitmap_value};
ghost use Rattle.acl_shape.specs.Mode as specs;
ghost use Rattle.node_tree.specs.Sound.{IsSound};
ghost use Rattle.node_tree.specs.World.{is_directory_in};

use crate::realm::Realm;
use acl_shape::mode_of;
use nfs_types::{Attribute, Bitmap, ObjectFacts, Status};
use node_tree::Node;
use std::alloc::Allocator;

/// The byte count of a file, or of the text of a symbolic link; 0 of a directory.
fn size_of<A: Allocator>(node: &Node<A>) -> u64
    ensures { result ≡ if is_directory node.now.kind then 0 else length node.now.bytes }
{
    if node.is_directory() { 0 } else { node.size() }
}

/// The mode of an object, if it is requested, else 0.
fn mode_if_asked<A: Allocator>(node: &Node<A>, asked: &Bitmap) -> u32
    ensures { result ≡ if_asked (bitmap_value asked.now) Attribute.Mode
        (bit_or node.now.high (specs.mode_of node.now.list)) }
{
    if asked.has(Attribute::Mode.number()) {
        node.high() | mode_of(node.list())
    } else {
        0
    }
}

impl<A: Allocator + Copy> Realm<A> {
    /// The number of names of an object; 1 of each directory, also of the root.
    fn link_count(&self, number: u64, is_directory: bool) -> u32
        requires { is_directory ≡ is_directory_in (sight_of self.now).kinds number }
        ensures { result ≡ links_at (sight_of self.now) number }
    {
        if is_directory {
            1
        } else {
            self.tree.links(number) as u32
        }
    }

    /// The number of names of an object, if it is requested, else 0.
    fn links_if_asked(&self, number: u64, is_directory: bool, asked: &Bitmap) -> u32
        requires { is_directory ≡ is_directory_in (sight_of self.now).kinds number }
        ensures { result ≡ if_asked (bitmap_value asked.now) Attribute.NumLinks (links_at (sight_of self.now) number) }
    {
        if asked.has(Attribute::NumLinks.number()) {
            self.link_count(number, is_directory)
        } else {
            0
        }
    }

    /// The facts of an object for the attributes requested, with this status as rdattr_error. The mode and the number
    /// of links are computed only if they are requested. A listing has many objects, and both cost a walk or a search.
    /// `None`: the object doesn't exist.
    pub fn facts_for(&self, number: u64, status: Status, asked: &Bitmap) -> Option<ObjectFacts<'_>>
        ensures facts_are { IfSome result (λ facts. facts_value facts ≡
            facts_at (sight_of self.now) number status (bitmap_value asked.now)) }
        ensures there { is_some result ≡ is_some ((sight_of self.now).kinds number) }
        ensures sound { IsSound self.now.tree.world }
    {
        let node = self.tree.object(number)?;
        let numlinks = self.links_if_asked(number, node.is_directory(), asked);
        Some(ObjectFacts {
            kind: node.kind(),
            number,
            change: node.change(),
            size: size_of(node),
            error: status,
            entries: node.list().as_slice(),
            mode: mode_if_asked(node, asked),
            numlinks,
            owner: node.owner(),
            group: node.group(),
            metadata: node.time_metadata(),
            modify: node.time_modify(),
            access: node.time_access().unwrap_or(node.time_modify()),
            most_bytes: self.tree.limits().bytes(),
            times: self.times(),
        })
    }
}
