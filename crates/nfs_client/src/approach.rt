//! Walking a path by several COMPOUNDs: approaches along its first names, and the request of a command at its end.
ghost use Rattle.std.specs.Prelude.{◌≡◌, IfOk, map, true, option_map, option_and_then};
ghost use Rattle.nfs_types.specs.Views.{handle_value};
ghost use Rattle.nfs_ops.specs.OpViews.{op_view};
ghost use Rattle.nfs_ops.specs.ResultViews.{read_view};
ghost use Rattle.nfs_client.specs.Approach.{approach, handle_of, handle_in, WalkGives};
ghost use Rattle.nfs_client.specs.Commands.{AskGives, within_session};
ghost use Rattle.nfs_client.specs.Compound.{results_to};
ghost use Rattle.nfs_client.specs.Requests.{Asks, PutGives};
ghost use Rattle.nfs_client.specs.Routes.{along};
ghost use Rattle.nfs_client.specs.RouteViews.{route_from, route_value};
ghost use Rattle.nfs_client.specs.Taking.{ReplyResultsGive, TakeGives, taking};
ghost use Rattle.nfs_client.specs.Walking.{along_both, BothReady, ReadyGives};

use crate::client::{Client, Reply};
use crate::fault::ToolFault;
use crate::request::Request;
use crate::route::{MOST_NAMES, MOST_OF_BOTH, Route, Start, left_of_first, nearest};
use crate::taking::last;
use crate::transport::Transport;
use nfs_ops::{Op, OpResult};
use nfs_types::Handle;
use std::alloc::{AllocError, Allocator};

/// The filehandle in the result of a GETFH.
pub(crate) fn handle_from(found: OpResult<'_>) -> Option<Handle<'_>>
    ensures { option_map handle_value result ≡ handle_of (read_view found.entry) }
{
    match found {
        OpResult::GetFh(outcome) => Some(outcome.handle),
        _ => None,
    }
}

/// The bytes of a filehandle.
pub(crate) fn handle_bytes<A: Allocator>(
    alloc: A,
    handle: Handle<'_>,
) -> Result<Vec<u8, A>, AllocError>
    ensures { IfOk result (λ v. v.items ≡ handle_value handle.entry) }
{
    let mut bytes = Vec::new(alloc);
    match handle {
        Handle::Sent(item) => bytes.extend_from_slice(item.bytes)?,
        Handle::Object(number) => {
            bytes.extend_from_slice(&[0; 8])?;
            bytes.extend_from_slice(&number.to_be_bytes())?;
        }
    }
    Ok(bytes)
}

/// The filehandle in a result, if any.
fn reached<A: Allocator>(alloc: A, found: Option<OpResult<'_>>) -> Result<Vec<u8, A>, ToolFault>
    ensures { TakeGives (λ v. v.items) (option_and_then handle_of (option_map read_view found.entry)) result }
{
    let Some(found) = found else {
        return Err(ToolFault::Reply);
    };
    let Some(handle) = handle_from(found) else {
        return Err(ToolFault::Reply);
    };
    Ok(handle_bytes(alloc, handle)?)
}

impl<A: Allocator + Copy> Reply<A> {
    /// The filehandle at the end of the results.
    fn reached(&self, alloc: A) -> Result<Vec<u8, A>, ToolFault>
        ensures { ReplyResultsGive (taking handle_in (λ v. v.items))
            (results_to self.now.xid self.now.asked.items self.now.content.items) result }
    {
        match self.results(alloc) {
            Ok(results) => reached(alloc, last(results)),
            Err(fault) => Err(fault),
        }
    }
}

impl<S: Transport, A: Allocator + Copy> Client<S, A> {
    /// The request for the filehandle at the end of these names.
    fn prepare_approach(&self, start: &Start<A>, names: &[&[u8]]) -> Result<Request<A>, ToolFault>
        ensures asks { IfOk result (λ r. Asks r (approach self.now (route_from start.now names.now))) }
        ensures memory { PutGives result }
    {
        let mut request = self.request()?;
        request.begin(start)?;
        request.lookups(names)?;
        request.put(Op::GetFh)?;
        Ok(request)
    }

    /// Walks these names by a COMPOUND of their own. Returns the filehandle at their end.
    fn approach(&mut self, start: &Start<A>, names: &[&[u8]]) -> Result<Vec<u8, A>, ToolFault>
        ensures { AskGives S.talks (taking handle_in (λ v. v.items))
            (within_session (approach self.old (route_from start.now names.now))) self.old self.new result }
    {
        let request = self.prepare_approach(start, names)?;
        let reply = match self.exchange(request) {
            Ok(reply) => reply,
            Err(fault) => return Err(fault),
        };
        let outcome = reply.reached(self.alloc);
        self.conclude(&outcome, true);
        outcome
    }

    /// Approaches the end of a path until at most `most` names remain. After an approach the client isn't usable
    /// until the command is over.
    pub(crate) fn reach<'a>(
        &mut self,
        names: &'a [&'a [u8]],
        most: usize,
    ) -> Result<Route<'a, A>, ToolFault>
        ensures { WalkGives S.talks route_value most (map (λ n. n.now) names.entry.now)
            self.old self.new result }
    {
        let mut start = Start::Root;
        let mut done = 0;
        while names.len() - done > most {
            let (_, left) = names.split_at(done);
            let near = nearest(left);
            let handle = match self.approach(&start, near) {
                Ok(handle) => handle,
                Err(fault) => return Err(fault),
            };
            self.usable = false;
            start = Start::Object(handle);
            done += near.len();
        }
        let (_, left) = names.split_at(done);
        Ok(Route { start, names: left })
    }

    /// The request of an operation at the end of a route.
    pub(crate) fn request_along(
        &self,
        route: &Route<'_, A>,
        op: Op<'_>,
    ) -> Result<Request<A>, ToolFault>
        ensures asks { IfOk result (λ r. Asks r (along self.now (route_value route.now) (op_view op.entry))) }
        ensures memory { PutGives result }
    {
        let mut request = self.request()?;
        request.walk(route)?;
        request.put(op)?;
        Ok(request)
    }

    /// Approaches the end of a path. Returns the request of an operation at that end, which walks the remaining names.
    pub(crate) fn ready(&mut self, names: &[&[u8]], op: Op<'_>) -> Result<Request<A>, ToolFault>
        ensures { ReadyGives S.talks (map (λ n. n.now) names.now) (op_view op.entry)
            self.old self.new result }
    {
        match self.reach(names, MOST_NAMES) {
            Ok(route) => self.request_along(&route, op),
            Err(fault) => Err(fault),
        }
    }

    /// The request of an operation at the ends of two routes. The object at the end of the first
    /// route is the saved filehandle.
    fn request_both(
        &self,
        first: &Route<'_, A>,
        second: &Route<'_, A>,
        op: Op<'_>,
    ) -> Result<Request<A>, ToolFault>
        ensures asks { IfOk result (λ r. Asks r
            (along_both self.now (route_value first.now) (route_value second.now) (op_view op.entry))) }
        ensures memory { PutGives result }
    {
        let mut request = self.request()?;
        request.walk(first)?;
        request.put(Op::SaveFh)?;
        request.walk(second)?;
        request.put(op)?;
        Ok(request)
    }

    /// Approaches the ends of two paths, the end of the first path first. Returns the request of an operation at those
    /// ends, which walks the remaining names of both.
    pub(crate) fn ready_both(
        &mut self,
        names: &[&[u8]],
        others: &[&[u8]],
        op: Op<'_>,
    ) -> Result<Request<A>, ToolFault>
        ensures { BothReady S.talks (map (λ n. n.now) names.now)
            (map (λ n. n.now) others.now) (op_view op.entry) self.old self.new result }
    {
        let first = match self.reach(names, left_of_first(names.len(), others.len())) {
            Ok(first) => first,
            Err(fault) => return Err(fault),
        };
        match self.reach(others, MOST_OF_BOTH) {
            Ok(second) => self.request_both(&first, &second, op),
            Err(fault) => Err(fault),
        }
    }
}
