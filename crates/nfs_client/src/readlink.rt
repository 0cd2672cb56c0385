//! The text of a symbolic link.
ghost use Rattle.std.specs.Prelude.{◌≡◌, false, Err, option_map, option_and_then};
ghost use Rattle.nfs_ops.specs.ResultViews.{read_view};
ghost use Rattle.nfs_client.specs.Access.{NoPath};
ghost use Rattle.nfs_client.specs.Commands.{AskGives, within_session};
ghost use Rattle.nfs_client.specs.Compound.{results_to};
ghost use Rattle.nfs_client.specs.CompoundViews.{outcomes};
ghost use Rattle.nfs_client.specs.ReadLink.{ReadLinkAsks, text_of, text_in};
ghost use Rattle.nfs_client.specs.Requests.{Asks};
ghost use Rattle.nfs_client.specs.Taking.{ReplyResultsGive, TakeGives, taking};
ghost use Rattle.nfs_client.specs.Walking.{CommandResults};
ghost use Rattle.nfs_client.specs.declared.fault.ToolFault.TheVariants.{Failed};

use crate::client::{Client, Reply};
use crate::fault::ToolFault;
use crate::path::Path;
use crate::request::Request;
use crate::taking::last;
use crate::transport::Transport;
use nfs_ops::{Op, OpResult};
use std::alloc::Allocator;

/// The text in a result.
fn text_in<A: Allocator>(alloc: A, found: Option<OpResult<'_>>) -> Result<Vec<u8, A>, ToolFault>
    ensures { TakeGives (λ v. v.items) (option_and_then text_of (option_map read_view found.entry)) result }
{
    let Some(OpResult::ReadLink(outcome)) = found else {
        return Err(ToolFault::Reply);
    };
    let mut text = Vec::new(alloc);
    text.extend_from_slice(outcome.text.bytes)?;
    Ok(text)
}

impl<A: Allocator + Copy> Reply<A> {
    /// The text of a link at the end of the results.
    fn link_text(&self, alloc: A) -> Result<Vec<u8, A>, ToolFault>
        ensures { ReplyResultsGive (taking text_in (λ v. v.items))
            (results_to self.now.xid self.now.asked.items self.now.content.items) result }
    {
        match self.results(alloc) {
            Ok(results) => text_in(alloc, last(results)),
            Err(fault) => Err(fault),
        }
    }
}

impl<S: Transport, A: Allocator + Copy> Client<S, A> {
    ghost use Rattle.std.specs.Prelude.{true, List};
    ghost use Rattle.nfs_ops.specs.Operations.{Operation};

    fn ask_link(&mut self, request: Request<A>) -> Result<Vec<u8, A>, ToolFault>
        ensures { (ops : List Operation) → Asks request ops →
            AskGives S.talks (taking text_in (λ v. v.items)) (within_session ops)
            self.old self.new result }
    {
        let reply = match self.exchange(request) {
            Ok(reply) => reply,
            Err(fault) => return Err(fault),
        };
        let outcome = reply.link_text(self.alloc);
        self.conclude(&outcome, true);
        outcome
    }

    /// The text of a symbolic link.
    pub fn readlink(&mut self, path: &[u8]) -> Result<Vec<u8, A>, ToolFault>
        ensures failed { self.old.usable ≡ false → result ≡ Err Failed }
        ensures gives { CommandResults S.talks (taking text_in (λ v. v.items))
            (ReadLinkAsks path.now) (NoPath path.now) self.old self.new result }
    {
        self.start()?;
        let path = match Path::read(self.alloc, path) {
            Ok(path) => path,
            Err(fault) => return Err(fault),
        };
        match self.ready(path.names(), Op::ReadLink) {
            Ok(request) => self.ask_link(request),
            Err(fault) => Err(fault),
        }
    }
}
