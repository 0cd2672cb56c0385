//! Setting the times of an object (RFC 8881, sections 5.8.2.38 and 5.8.2.44).
ghost use Rattle.std.specs.Prelude.{◌≡◌, false, Err};
ghost use Rattle.nfs_types.specs.ClientViews.{client_value};
ghost use Rattle.nfs_types.specs.Times.{sent_time};
ghost use Rattle.nfs_client.specs.Access.{NoPath};
ghost use Rattle.nfs_client.specs.Touch.{TouchAsks, of_times};
ghost use Rattle.nfs_client.specs.Walking.{CommandGives};
ghost use Rattle.nfs_client.specs.declared.fault.ToolFault.TheVariants.{Failed};

use crate::client::Client;
use crate::fault::ToolFault;
use crate::transport::Transport;
use nfs_types::{ClientAttributes, SentTime};
use std::alloc::Allocator;

/// Both times alone, of the last access and of the last change of data.
fn of_times(time: SentTime) -> ClientAttributes<'static>
    ensures { client_value result ≡ of_times (sent_time time) }
{
    ClientAttributes {
        kind: None,
        size: None,
        error: None,
        entries: None,
        mode: None,
        owner: None,
        group: None,
        access: Some(time),
        modify: Some(time),
        dacl: None,
        sacl: None,
    }
}

impl<S: Transport, A: Allocator + Copy> Client<S, A> {
    /// Sets the time of the last access and that of the last change of data of an object, both to this time.
    pub fn touch(&mut self, time: SentTime, path: &[u8]) -> Result<(), ToolFault>
        ensures failed { self.old.usable ≡ false → result ≡ Err Failed }
        ensures gives { CommandGives S.talks (TouchAsks (sent_time time) path.now)
            (NoPath path.now) self.old self.new result }
    {
        self.start()?;
        let attributes = of_times(time);
        self.set_attributes(path, &attributes)
    }
}
