//! Giving an object one more name.
ghost use Rattle.std.specs.Prelude.{◌≡◌, false, Err};
ghost use Rattle.nfs_client.specs.Ln.{LnAsks, WrongPaths};
ghost use Rattle.nfs_client.specs.Walking.{BothGive};
ghost use Rattle.nfs_client.specs.declared.fault.ToolFault.TheVariants.{Failed};

use crate::client::Client;
use crate::fault::ToolFault;
use crate::path::{Path, Place};
use crate::request::sendable;
use crate::transport::Transport;
use nfs_ops::{LinkArgs, Op};
use std::alloc::Allocator;

impl<S: Transport, A: Allocator + Copy> Client<S, A> {
    /// Gives the object at the old path the new name.
    pub fn ln(&mut self, old: &[u8], new: &[u8]) -> Result<(), ToolFault>
        ensures failed { self.old.usable ≡ false → result ≡ Err Failed }
        ensures gives { BothGive S.talks (LnAsks old.now new.now)
            (WrongPaths old.now new.now) self.old self.new result }
    {
        self.start()?;
        let path = match Path::read(self.alloc, old) {
            Ok(path) => path,
            Err(fault) => return Err(fault),
        };
        let place = match Place::read(self.alloc, new) {
            Ok(place) => place,
            Err(fault) => return Err(fault),
        };
        let op = Op::Link(LinkArgs {
            name: sendable(place.name)?,
        });
        match self.ready_both(path.names(), &place.directory, op) {
            Ok(request) => self.run(request, true),
            Err(fault) => Err(fault),
        }
    }
}
