//! Runs a COMPOUND over a tree of objects, checking access control lists (ACLs) for each operation (RFC 8881, sections
//! 16.2 and 18).
//!
//! Each operation has one file here, and one in `specs/Operations/`. That one has its questions in order, its result,
//! and its effect on the realm and on the filehandles.
#![tactic(auto)]

ghost use Rattle.std.specs.Prelude.{◌≡◌, []};
ghost use Rattle.nfs_ops.specs.OpViews.{op_view};
ghost use Rattle.compound_run.specs.Operations.{is_run};
ghost use Rattle.compound_run.specs.Views.{GivesBy, HasRoom, stage};
ghost use Rattle.compound_run.specs.internal.Views.{IfRun, by_body};

mod access;
mod client_state;
mod close;
mod commit;
mod compound;
mod context;
mod counts;
mod create;
mod create_session;
mod demands;
mod destroy_clientid;
mod destroy_session;
mod directory;
mod exchange_id;
mod filehandles;
mod first_operation;
mod getattr;
mod getfh;
mod in_session;
mod kept;
mod limits;
mod link;
mod list_parts;
mod lone_operations;
mod lookup;
mod lookupp;
mod nverify;
mod object_facts;
mod open;
mod opens;
mod operation_results;
mod putfh;
mod putrootfh;
mod read;
mod readdir;
mod readlink;
mod realm;
mod reclaim_complete;
mod remove;
mod rename;
mod requested;
mod restorefh;
mod result_heads;
mod run;
mod savefh;
mod sequence;
mod server;
mod sessions;
mod setattr;
mod stateids;
mod step;
mod times;
mod verify;
mod write;

pub use client_state::{ClientState, Lent, opens_fit};
pub use counts::CallCounts;
use filehandles::FileHandles;
pub use kept::Ran;
pub use limits::{MAX_REPLY, MAX_RESULTS};
use nfs_ops::Op;
use nfs_types::Status;
pub use opens::Open;
use realm::Realm;
pub use server::{Args, RunEnd, Server};
use std::alloc::Allocator;
use step::Step;
use xdr_wire::Writer;

impl<A: Allocator + Copy> Realm<A> {
    /// Answers an operation that has its place, and room for its result.
    pub(crate) fn body(
        &mut self,
        step: Step<'_>,
        op: &Op<'_>,
        out: &mut Writer<A>,
    ) -> Result<FileHandles, Status>
        requires settled { self.old.tree.log.held ≡ [] }
        requires room { IfRun (is_run (op_view op.now)) (HasRoom step.context out.old) }
        ensures { GivesBy by_body step.entry op.now (stage self.old out.old) result (stage self.new out.new) }
    {
        match op {
            Op::Access(args) => self.access(step, args, out),
            Op::Close(args) => self.close(step, args, out),
            Op::Commit(_) => self.commit(step, out),
            Op::Create(args) => self.create(step, args, out),
            Op::GetAttr(args) => self.getattr(step, args, out),
            Op::GetFh => self.getfh(step, out),
            Op::Link(args) => self.link(step, args, out),
            Op::Lookup(args) => self.lookup(step, args, out),
            Op::LookupP => self.lookupp(step, out),
            Op::NVerify(args) => self.nverify(step, args, out),
            Op::Open(args) => self.open(step, args, out),
            Op::PutFh(args) => self.putfh(step, args, out),
            Op::PutRootFh => self.putrootfh(step, out),
            Op::Read(args) => self.read(step, args, out),
            Op::ReadDir(args) => self.readdir(step, args, out),
            Op::ReadLink => self.readlink(step, out),
            Op::Remove(args) => self.remove(step, args, out),
            Op::Rename(args) => self.rename(step, args, out),
            Op::RestoreFh => self.restorefh(step, out),
            Op::SaveFh => self.savefh(step, out),
            Op::SetAttr(args) => self.setattr(step, args, out),
            Op::Verify(args) => self.verify(step, args, out),
            Op::Write(args) => self.write(step, args, out),
            Op::ReclaimComplete(args) => self.reclaim_complete(step, args, out),
            Op::Illegal => Err(Status::OpIllegal),
            Op::Bad(_) => Err(Status::BadXdr),
            Op::ExchangeId(_)
            | Op::CreateSession(_)
            | Op::DestroySession(_)
            | Op::Sequence(_)
            | Op::DestroyClientId(_)
            | Op::Unsupported(_) => Err(Status::NotSupp),
        }
    }
}
