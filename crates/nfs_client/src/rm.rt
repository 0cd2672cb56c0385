//! Removing a name.
ghost use Rattle.std.specs.Prelude.{◌≡◌, false, Err};
ghost use Rattle.nfs_client.specs.Rm.{RmAsks, WrongPath};
ghost use Rattle.nfs_client.specs.Walking.{CommandGives};
ghost use Rattle.nfs_client.specs.declared.fault.ToolFault.TheVariants.{Failed};

use crate::client::Client;
use crate::fault::ToolFault;
use crate::path::Place;
use crate::request::sendable;
use crate::transport::Transport;
use nfs_ops::{Op, RemoveArgs};
use std::alloc::Allocator;

impl<S: Transport, A: Allocator + Copy> Client<S, A> {
    /// Removes a name.
    pub fn rm(&mut self, path: &[u8]) -> Result<(), ToolFault>
        ensures failed { self.old.usable ≡ false → result ≡ Err Failed }
        ensures gives { CommandGives S.talks (RmAsks path.now) (WrongPath path.now)
            self.old self.new result }
    {
        self.start()?;
        let place = match Place::read(self.alloc, path) {
            Ok(place) => place,
            Err(fault) => return Err(fault),
        };
        let op = Op::Remove(RemoveArgs {
            name: sendable(place.name)?,
        });
        match self.ready(&place.directory, op) {
            Ok(request) => self.run(request, true),
            Err(fault) => Err(fault),
        }
    }
}
