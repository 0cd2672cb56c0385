//! The bytes of a file.
ghost use Rattle.std.specs.Prelude.{◌≡◌, false, Err, option_map, option_and_then};
ghost use Rattle.nfs_ops.specs.ResultViews.{read_view};
ghost use Rattle.nfs_client.specs.Cat.{read_from, bytes_of, piece_of, piece_in, piece_value, by_pieces, PieceTaken};
ghost use Rattle.nfs_client.specs.Cat.{ReadGives, CatGives};
ghost use Rattle.nfs_client.specs.Compound.{results_to};
ghost use Rattle.nfs_client.specs.Paging.{PagesGive, gathered_so_far};
ghost use Rattle.nfs_client.specs.Requests.{Asks, PutGives};
ghost use Rattle.nfs_client.specs.RouteViews.{route_value};
ghost use Rattle.nfs_client.specs.Taking.{ReplyResultsGive, taking};
ghost use Rattle.nfs_client.specs.declared.fault.ToolFault.TheVariants.{Failed};

use crate::client::{Client, Reply};
use crate::fault::ToolFault;
use crate::path::Path;
use crate::request::Request;
use crate::route::{MOST_NAMES, Route};
use crate::taking::last;
use crate::transport::Transport;
use nfs_ops::{MAX_READ, Op, OpResult, ReadArgs, ReadResult};
use nfs_types::StateId;
use std::alloc::Allocator;

/// The most calls of one command.
pub(crate) const MOST_CALLS: u32 = 10_000;

/// The bytes of a result.
fn piece(found: Option<OpResult<'_>>) -> Option<ReadResult<'_>>
    ensures { option_map piece_value result ≡ option_and_then piece_of (option_map read_view found.entry) }
{
    match found {
        Some(OpResult::Read(piece)) => Some(piece),
        _ => None,
    }
}

impl<A: Allocator + Copy> Reply<A> {
    /// The bytes at the end of results.
    fn piece(&self, alloc: A) -> Result<ReadResult<'_>, ToolFault>
        ensures { ReplyResultsGive (taking piece_in piece_value)
            (results_to self.now.xid self.now.asked.items self.now.content.items) result }
    {
        match self.results(alloc) {
            Ok(results) => match piece(last(results)) {
                Some(piece) => Ok(piece),
                None => Err(ToolFault::Reply),
            },
            Err(fault) => Err(fault),
        }
    }

    /// Appends the bytes at the end of the results to the bytes read by now. Returns whether the file ends after them.
    fn put_piece(&self, alloc: A, bytes: &mut Vec<u8, A>) -> Result<bool, ToolFault>
        ensures { PieceTaken (results_to self.now.xid self.now.asked.items self.now.content.items) bytes.old.items
            bytes.new.items result }
    {
        match self.piece(alloc) {
            Ok(piece) => {
                bytes.extend_from_slice(piece.data.bytes)?;
                Ok(piece.eof)
            }
            Err(fault) => Err(fault),
        }
    }
}

impl<S: Transport, A: Allocator + Copy> Client<S, A> {
    ghost use Rattle.std.specs.Prelude.{IfOk};

    /// The request for the bytes from an offset on.
    fn prepare_read(&self, route: &Route<'_, A>, offset: usize) -> Result<Request<A>, ToolFault>
        ensures asks { IfOk result (λ r. Asks r (read_from (route_value route.now) self.now offset)) }
        ensures memory { PutGives result }
    {
        let stateid = StateId::anonymous();
        let op = Op::Read(ReadArgs {
            stateid,
            offset: offset as u64,
            count: MAX_READ,
        });
        self.request_along(route, op)
    }

    /// Reads the bytes after those read by now. Returns whether the file ends after them.
    fn read_piece(
        &mut self,
        route: &Route<'_, A>,
        bytes: &mut Vec<u8, A>,
    ) -> Result<bool, ToolFault>
        ensures { ReadGives S.talks (route_value route.now)
            (gathered_so_far self.old bytes.old.items) (gathered_so_far self.new bytes.new.items) result }
    {
        let request = self.prepare_read(route, bytes.len())?;
        let reply = match self.exchange(request) {
            Ok(reply) => reply,
            Err(fault) => return Err(fault),
        };
        let outcome = reply.put_piece(self.alloc, bytes);
        self.conclude(&outcome, true);
        outcome
    }

    /// Reads one piece after the other.
    fn read_all(&mut self, route: &Route<'_, A>) -> Result<Vec<u8, A>, ToolFault>
        ensures { PagesGive (by_pieces S.talks (route_value route.now)) (λ v. v.items)
            bytes_of self.old self.new result }
    {
        let mut bytes = Vec::new(self.alloc);
        for _call in 0..MOST_CALLS {
            let outcome = self.read_piece(route, &mut bytes);
            self.spoil(&outcome);
            match outcome {
                Ok(true) => return Ok(bytes),
                Ok(false) => {}
                Err(fault) => return Err(fault),
            }
        }
        self.usable = false;
        Err(ToolFault::Reply)
    }

    /// The bytes of a file, in at most 10,000 calls. `Reply`: the file has more bytes.
    pub fn cat(&mut self, path: &[u8]) -> Result<Vec<u8, A>, ToolFault>
        ensures failed { self.old.usable ≡ false → result ≡ Err Failed }
        ensures gives { CatGives S.talks (λ v. v.items) path.now
            self.old self.new result }
    {
        self.start()?;
        let path = match Path::read(self.alloc, path) {
            Ok(path) => path,
            Err(fault) => return Err(fault),
        };
        match self.reach(path.names(), MOST_NAMES) {
            Ok(route) => self.read_all(&route),
            Err(fault) => Err(fault),
        }
    }
}
