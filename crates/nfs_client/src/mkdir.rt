//! Creating a directory.
ghost use Rattle.std.specs.Prelude.{◌≡◌, false, Err};
ghost use Rattle.nfs_client.specs.MkDir.{MkDirAsks};
ghost use Rattle.nfs_client.specs.Rm.{WrongPath};
ghost use Rattle.nfs_client.specs.Walking.{CommandGives};
ghost use Rattle.nfs_client.specs.declared.fault.ToolFault.TheVariants.{Failed};

use crate::client::Client;
use crate::fault::ToolFault;
use crate::path::Place;
use crate::request::sendable;
use crate::transport::Transport;
use nfs_ops::{CreateArgs, CreateType, Op};
use nfs_types::{Attributes, Bitmap};
use std::alloc::Allocator;

impl<S: Transport, A: Allocator + Copy> Client<S, A> {
    /// Creates a directory, which inherits its ACL (access control list).
    pub fn mkdir(&mut self, path: &[u8]) -> Result<(), ToolFault>
        ensures failed { self.old.usable ≡ false → result ≡ Err Failed }
        ensures gives { CommandGives S.talks (MkDirAsks path.now) (WrongPath path.now)
            self.old self.new result }
    {
        self.start()?;
        let place = match Place::read(self.alloc, path) {
            Ok(place) => place,
            Err(fault) => return Err(fault),
        };
        let name = sendable(place.name)?;
        let values = sendable(&[])?;
        let set = Bitmap::empty();
        let op = Op::Create(CreateArgs {
            kind: CreateType::Directory,
            name,
            attributes: Attributes { set, values },
        });
        match self.ready(&place.directory, op) {
            Ok(request) => self.run(request, true),
            Err(fault) => Err(fault),
        }
    }
}
