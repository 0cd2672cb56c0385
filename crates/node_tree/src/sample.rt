//! The sample tree.
ghost use Rattle.std.specs.Prelude.{◌≡◌, IfOk, [], codes};
ghost use Rattle.node_tree.specs.Sample.{sample, sample_object};

use crate::at::from_start;
use crate::limits::ROOT;
use crate::name_table::NameTable;
use crate::node::{NewObject, Node};
use crate::node_table::NodeTable;
use crate::store::Store;
use acl_list::{AclList, Kind};
use acl_shape::set_mode;
use nfs_types::Limits;
use std::alloc::{AllocError, Allocator};

/// The file of the sample. Its stamp and its last change are its number.
fn file<A: Allocator + Copy>(alloc: A) -> Result<Node<A>, AllocError>
    ensures { IfOk result (λ node. node ≡ sample_object 2 Kind.File (codes "hi") 1001 100 0x1a0) }
{
    let at = from_start(2);
    let new = NewObject {
        kind: Kind::File,
        bytes: Vec::from_slice(alloc, b"hi")?,
        owner: 1001,
        group: 100,
        list: set_mode(alloc, &AclList::new(alloc), Kind::File, 0o640)?,
        high: 0,
        time_access: None,
        time_modify: at.moment,
    };
    Node::made(alloc, new, 2, at)
}

/// A directory of the sample. Its stamp and its last change are its number.
fn directory<A: Allocator + Copy>(alloc: A, number: u64, mode: u32) -> Result<Node<A>, AllocError>
    ensures { IfOk result (λ node. node ≡ sample_object number Kind.Directory [] 0 0 mode) }
{
    let at = from_start(number);
    let new = NewObject {
        kind: Kind::Directory,
        bytes: Vec::new(alloc),
        owner: 0,
        group: 0,
        list: set_mode(alloc, &AclList::new(alloc), Kind::Directory, mode)?,
        high: 0,
        time_access: None,
        time_modify: at.moment,
    };
    Node::made(alloc, new, number, at)
}

/// The names in the root.
fn names<A: Allocator + Copy>(alloc: A) -> Result<NameTable<A>, AllocError>
    ensures { IfOk result (λ names. names ≡ sample.names) }
{
    let mut names = NameTable::new(alloc);
    names.push(alloc, 3, ROOT, b"notes", 2)?;
    names.push(alloc, 4, ROOT, b"pub", 3)?;
    Ok(names)
}

impl<A: Allocator + Copy> Store<A> {
    /// The sample tree. `Err`: an allocation fails.
    pub fn sample(alloc: A) -> Result<Self, AllocError>
        ensures { IfOk result (λ store. store ≡ sample) }
    {
        let mut objects = NodeTable::new(alloc);
        objects.insert(ROOT, directory(alloc, ROOT, 0o755)?)?;
        objects.insert(2, file(alloc)?)?;
        objects.insert(3, directory(alloc, 3, 0o777)?)?;
        Ok(Store::from_start(alloc, Limits::standard(), objects, names(alloc)?, 4, 5))
    }
}
