//! The permissions of the caller.
ghost use Rattle.std.specs.Prelude.{◌≡◌, false, Err, option_map, option_and_then};
ghost use Rattle.nfs_ops.specs.ResultViews.{read_view};
ghost use Rattle.nfs_client.specs.Access.{AccessAsks, NoPath, rights_of, rights_in};
ghost use Rattle.nfs_client.specs.AccessViews.{rights_value};
ghost use Rattle.nfs_client.specs.Commands.{AskGives, within_session};
ghost use Rattle.nfs_client.specs.Compound.{results_to};
ghost use Rattle.nfs_client.specs.Requests.{Asks};
ghost use Rattle.nfs_client.specs.CompoundViews.{outcomes};
ghost use Rattle.nfs_client.specs.Taking.{ReplyResultsGive, TakeGives, taking};
ghost use Rattle.nfs_client.specs.Walking.{CommandResults};
ghost use Rattle.nfs_client.specs.declared.fault.ToolFault.TheVariants.{Failed};

use crate::client::{Client, Reply};
use crate::fault::ToolFault;
use crate::path::Path;
use crate::request::Request;
use crate::taking::last;
use crate::transport::Transport;
use nfs_ops::{AccessArgs, AccessResult, Op, OpResult};
use std::alloc::Allocator;

/// The permissions that ACCESS requests: READ, LOOKUP, MODIFY, EXTEND, DELETE and EXECUTE.
const ALL_RIGHTS: u32 = 0x3f;

/// The permissions in a result.
fn rights(found: Option<OpResult<'_>>) -> Option<AccessResult>
    ensures { option_map rights_value result ≡ option_and_then rights_of (option_map read_view found.entry) }
{
    match found {
        Some(OpResult::Access(rights)) => Some(rights),
        _ => None,
    }
}

/// The permissions at the end of results.
fn access_result<A: Allocator>(results: Vec<OpResult<'_>, A>) -> Result<AccessResult, ToolFault>
    ensures { TakeGives rights_value (rights_in (outcomes results.entry.items)) result }
{
    match rights(last(results)) {
        Some(rights) => Ok(rights),
        None => Err(ToolFault::Reply),
    }
}

impl<A: Allocator + Copy> Reply<A> {
    /// The permissions at the end of the results.
    fn rights(&self, alloc: A) -> Result<AccessResult, ToolFault>
        ensures { ReplyResultsGive (taking rights_in rights_value)
            (results_to self.now.xid self.now.asked.items self.now.content.items) result }
    {
        match self.results(alloc) {
            Ok(results) => access_result(results),
            Err(fault) => Err(fault),
        }
    }
}

impl<S: Transport, A: Allocator + Copy> Client<S, A> {
    ghost use Rattle.std.specs.Prelude.{true, List};
    ghost use Rattle.nfs_ops.specs.Operations.{Operation};

    fn ask_rights(&mut self, request: Request<A>) -> Result<AccessResult, ToolFault>
        ensures { (ops : List Operation) → Asks request ops →
            AskGives S.talks (taking rights_in rights_value) (within_session ops)
            self.old self.new result }
    {
        let reply = match self.exchange(request) {
            Ok(reply) => reply,
            Err(fault) => return Err(fault),
        };
        let outcome = reply.rights(self.alloc);
        self.conclude(&outcome, true);
        outcome
    }

    /// The permissions of ACCESS that are supported for an object, of six, and those of them that the caller has.
    pub fn access(&mut self, path: &[u8]) -> Result<AccessResult, ToolFault>
        ensures failed { self.old.usable ≡ false → result ≡ Err Failed }
        ensures gives { CommandResults S.talks (taking rights_in rights_value)
            (AccessAsks path.now) (NoPath path.now) self.old self.new result }
    {
        self.start()?;
        let path = match Path::read(self.alloc, path) {
            Ok(path) => path,
            Err(fault) => return Err(fault),
        };
        let op = Op::Access(AccessArgs { asked: ALL_RIGHTS });
        match self.ready(path.names(), op) {
            Ok(request) => self.ask_rights(request),
            Err(fault) => Err(fault),
        }
    }
}
