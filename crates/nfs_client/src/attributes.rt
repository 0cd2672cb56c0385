//! The attributes of an object, as a server returns them (RFC 8881, section 18.7).
ghost use Rattle.std.specs.Prelude.{◌≡◌, false, Err, option_map, option_and_then};
ghost use Rattle.nfs_types.specs.Views.{bitmap_value};
ghost use Rattle.nfs_ops.specs.ResultViews.{read_view};
ghost use Rattle.nfs_client.specs.Access.{NoPath};
ghost use Rattle.nfs_client.specs.Commands.{AskGives, within_session};
ghost use Rattle.nfs_client.specs.Compound.{results_to};
ghost use Rattle.nfs_client.specs.CompoundViews.{outcomes};
ghost use Rattle.nfs_client.specs.GetAttr.{GetAttrAsks, attributes_of, attributes_in};
ghost use Rattle.nfs_client.specs.GetAttrViews.{given_value};
ghost use Rattle.nfs_client.specs.Requests.{Asks};
ghost use Rattle.nfs_client.specs.Taking.{ReplyResultsGive, TakeGives, taking};
ghost use Rattle.nfs_client.specs.Walking.{CommandResults};
ghost use Rattle.nfs_client.specs.declared.fault.ToolFault.TheVariants.{Failed};

use crate::client::{Client, Reply};
use crate::fault::ToolFault;
use crate::path::Path;
use crate::request::Request;
use crate::taking::last;
use crate::transport::Transport;
use nfs_ops::{GetAttrArgs, Op, OpResult};
use nfs_types::{Attributes, Bitmap};
use std::alloc::{Allocator, Global};

/// The attributes of an object that a server returned: which, and their values, one after the other by rising number
/// (RFC 8881, section 3.3.9).
#[derive(Drop)]
pub struct Given<A: Allocator = Global> {
    /// The attributes that were returned.
    pub set: Bitmap,
    /// The bytes of their values.
    pub values: Vec<u8, A>,
}

/// The attributes in a result.
fn given_in<A: Allocator>(alloc: A, found: Option<OpResult<'_>>) -> Result<Given<A>, ToolFault>
    ensures { TakeGives given_value (option_and_then attributes_of (option_map read_view found.entry)) result }
{
    let Some(OpResult::GetAttr(outcome)) = found else {
        return Err(ToolFault::Reply);
    };
    let Attributes { set, values: lent } = outcome.attributes;
    let mut values = Vec::new(alloc);
    values.extend_from_slice(lent.bytes)?;
    Ok(Given { set, values })
}

impl<A: Allocator + Copy> Reply<A> {
    /// The attributes at the end of the results.
    fn given(&self, alloc: A) -> Result<Given<A>, ToolFault>
        ensures { ReplyResultsGive (taking attributes_in given_value)
            (results_to self.now.xid self.now.asked.items self.now.content.items) result }
    {
        match self.results(alloc) {
            Ok(results) => given_in(alloc, last(results)),
            Err(fault) => Err(fault),
        }
    }
}

impl<S: Transport, A: Allocator + Copy> Client<S, A> {
    ghost use Rattle.std.specs.Prelude.{true, List};
    ghost use Rattle.nfs_ops.specs.Operations.{Operation};

    fn ask_attributes(&mut self, request: Request<A>) -> Result<Given<A>, ToolFault>
        ensures { (ops : List Operation) → Asks request ops →
            AskGives S.talks (taking attributes_in given_value) (within_session ops)
            self.old self.new result }
    {
        let reply = match self.exchange(request) {
            Ok(reply) => reply,
            Err(fault) => return Err(fault),
        };
        let outcome = reply.given(self.alloc);
        self.conclude(&outcome, true);
        outcome
    }

    /// The requested attributes of an object, as far as the server returns them. `Stat::read` reads some of them.
    pub fn attributes(&mut self, path: &[u8], asked: Bitmap) -> Result<Given<A>, ToolFault>
        ensures failed { self.old.usable ≡ false → result ≡ Err Failed }
        ensures gives { CommandResults S.talks (taking attributes_in given_value)
            (GetAttrAsks path.now (bitmap_value asked)) (NoPath path.now) self.old self.new result }
    {
        self.start()?;
        let path = match Path::read(self.alloc, path) {
            Ok(path) => path,
            Err(fault) => return Err(fault),
        };
        let op = Op::GetAttr(GetAttrArgs { asked });
        match self.ready(path.names(), op) {
            Ok(request) => self.ask_attributes(request),
            Err(fault) => Err(fault),
        }
    }
}
