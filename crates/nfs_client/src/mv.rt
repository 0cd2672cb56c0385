//! Moving a name.
ghost use Rattle.std.specs.Prelude.{◌≡◌, false, Err};
ghost use Rattle.nfs_client.specs.Mv.{MvAsks, WrongNames};
ghost use Rattle.nfs_client.specs.Walking.{BothGive};
ghost use Rattle.nfs_client.specs.declared.fault.ToolFault.TheVariants.{Failed};

use crate::client::Client;
use crate::fault::ToolFault;
use crate::path::Place;
use crate::request::sendable;
use crate::transport::Transport;
use nfs_ops::{Op, RenameArgs};
use std::alloc::Allocator;

impl<S: Transport, A: Allocator + Copy> Client<S, A> {
    /// Moves the old name to the new one.
    pub fn mv(&mut self, old: &[u8], new: &[u8]) -> Result<(), ToolFault>
        ensures failed { self.old.usable ≡ false → result ≡ Err Failed }
        ensures gives { BothGive S.talks (MvAsks old.now new.now)
            (WrongNames old.now new.now) self.old self.new result }
    {
        self.start()?;
        let source = match Place::read(self.alloc, old) {
            Ok(source) => source,
            Err(fault) => return Err(fault),
        };
        let target = match Place::read(self.alloc, new) {
            Ok(target) => target,
            Err(fault) => return Err(fault),
        };
        let op = Op::Rename(RenameArgs {
            old: sendable(source.name)?,
            new: sendable(target.name)?,
        });
        match self.ready_both(&source.directory, &target.directory, op) {
            Ok(request) => self.run(request, true),
            Err(fault) => Err(fault),
        }
    }
}
