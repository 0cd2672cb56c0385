//! A connection of a hub as the transport of a client.
ghost use Rattle.std.specs.Prelude.{◌≡◌};

use nfs_client::{ToolFault, Transport, read_record};
use nfs_hub::{ConnId, Hub, HubFault};
use nfs_types::Moment;
use std::alloc::{Allocator, Global};

/// A connection of a borrowed hub. A call arrives at the connection as one piece. The record after it is taken from
/// the replies that are pending on it then.
#[derive(Drop)]
pub struct Local<'h, A: Allocator + Copy = Global> {
    pub(crate) hub: &'h mut Hub<A>,
    conn: ConnId,
    /// The moment of each piece, in whole seconds since the epoch.
    seconds: i64,
}

impl<'h, A: Allocator + Copy> Local<'h, A> {
    ghost use Rattle.std.specs.Prelude.{MatchOption, Err};
    ghost use Rattle.nfs_client.specs.Talking.{as_read};
    ghost use Rattle.nfs_client.specs.declared.fault.ToolFault.TheVariants.{Read};
    ghost use Rattle.nfs_hub.specs.Hub.{pending_at};
    ghost use Rattle.nfs_tool.specs.LocalStreams.{IsMomentOf, IsSameStream, Fed, TakesRecord};

    /// A transport over the connection of this number. Each of its pieces arrives at `seconds` seconds after the
    /// epoch.
    pub fn new(hub: &'h mut Hub<A>, conn: ConnId, seconds: i64) -> Self
        ensures same_hub { result.hub.ghost_name ≡ hub.entry.ghost_name }
        ensures hub { result.hub.now ≡ hub.old }
        ensures of_connection { (result.conn ≡ conn) × (result.seconds ≡ seconds) }
    {
        Local { hub, conn, seconds }
    }

    /// The moment of each piece.
    fn moment(&self) -> Moment
        ensures { IsMomentOf self.now result }
    {
        Moment {
            seconds: self.seconds,
            nanoseconds: 0,
        }
    }

    /// Feeds bytes to the connection as one piece.
    fn feed(&mut self, bytes: &[u8]) -> Result<(), HubFault>
        ensures same { IsSameStream self.old self.new }
        ensures fed { Fed self.old self.old.hub.now bytes.now result self.new.hub.now }
    {
        let moment = self.moment();
        self.hub.feed(self.conn, bytes, moment)
    }

    /// Takes the first record of the pending bytes. `Read`: they are no complete record.
    fn take_record<B: Allocator>(&mut self, alloc: B) -> Result<Vec<u8, B>, ToolFault>
        ensures same { IsSameStream self.old self.new }
        ensures takes { TakesRecord self.old.conn self.old.hub.now (as_read (λ v. v.items) result) self.new.hub.now }
    {
        let Some(pending) = self.hub.pending(self.conn) else {
            return Err(ToolFault::Read);
        };
        let mut left = pending;
        let answer = read_record(alloc, &mut left);
        let taken = pending.len() - left.len();
        match self.hub.consume(self.conn, taken) {
            Ok(_) => answer,
            Err(_) => Err(ToolFault::Read),
        }
    }
}

impl<A: Allocator + Copy> Transport for Local<'_, A> {
    ghost use Rattle.nfs_tool.specs.LocalStreams.{LocalTalks};

    ghost talks = { LocalTalks };

    /// Feeds the call as one piece, and takes the record that is pending then. `Write`: the hub
    /// refused the piece.
    fn talk<B: Allocator>(&mut self, alloc: B, call: &[u8]) -> Result<Vec<u8, B>, ToolFault> {
        match self.feed(call) {
            Ok(()) => self.take_record(alloc),
            Err(_) => Err(ToolFault::Write),
        }
    }
}
