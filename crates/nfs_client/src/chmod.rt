//! Setting a mode.
ghost use Rattle.std.specs.Prelude.{◌≡◌, false, Err};
ghost use Rattle.nfs_types.specs.ClientViews.{client_value};
ghost use Rattle.nfs_client.specs.ChMod.{ChModAsks, WrongMode};
ghost use Rattle.nfs_client.specs.Setting.{of_mode};
ghost use Rattle.nfs_client.specs.Walking.{CommandGives};
ghost use Rattle.nfs_client.specs.declared.fault.ToolFault.TheVariants.{Failed};

use crate::client::Client;
use crate::fault::ToolFault;
use crate::modes::read_mode;
use crate::path::Path;
use crate::setting::{setting, values_of};
use crate::transport::Transport;
use nfs_types::ClientAttributes;
use std::alloc::Allocator;

/// The mode alone.
fn of_mode(mode: u32) -> ClientAttributes<'static>
    ensures { client_value result ≡ of_mode mode }
{
    ClientAttributes {
        kind: None,
        size: None,
        error: None,
        entries: None,
        mode: Some(mode),
        owner: None,
        group: None,
        access: None,
        modify: None,
        dacl: None,
        sacl: None,
    }
}

impl<S: Transport, A: Allocator + Copy> Client<S, A> {
    /// Sets the mode of an object to this word of one to four octal digits, and its ACL (access control list) by the
    /// mode. `Entry`: the word is no mode.
    pub fn chmod(&mut self, word: &[u8], path: &[u8]) -> Result<(), ToolFault>
        ensures failed { self.old.usable ≡ false → result ≡ Err Failed }
        ensures gives { CommandGives S.talks (ChModAsks word.now path.now)
            (WrongMode word.now path.now) self.old self.new result }
    {
        self.start()?;
        let Some(mode) = read_mode(word) else {
            return Err(ToolFault::Entry);
        };
        let path = match Path::read(self.alloc, path) {
            Ok(path) => path,
            Err(fault) => return Err(fault),
        };
        let attributes = of_mode(mode);
        let values = values_of(self.alloc, &attributes)?;
        let op = setting(&attributes, values.bytes())?;
        match self.ready(path.names(), op) {
            Ok(request) => self.run(request, true),
            Err(fault) => Err(fault),
        }
    }
}
