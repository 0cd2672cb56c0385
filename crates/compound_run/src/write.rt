//! WRITE (RFC 8881, section 18.32).
ghost use Rattle.std.specs.Prelude.{◌≡◌, []};
ghost use Rattle.nfs_ops.specs.Views.{write_args_value};
ghost use Rattle.compound_run.specs.Operations.Write.{write, fits};
ghost use Rattle.compound_run.specs.Views.{GivesOrDelays, HasRoom, stage};

use crate::filehandles::FileHandles;
use crate::operation_results::put_result;
use crate::realm::Realm;
use crate::stateids::Purpose;
use crate::step::Step;
use nfs_ops::{Op, OpResult, WriteArgs, WriteResult};
use nfs_types::{Limits, Status};
use node_tree::Kind;
use std::alloc::Allocator;
use xdr_wire::Writer;

/// Whether bytes at an offset end within the limit of a file.
fn fits(limits: Limits, offset: u64, more: &[u8]) -> bool
    ensures { result ≡ fits limits offset more.now }
{
    let (most, len) = (limits.bytes(), more.len() as u64);
    len == 0 || (offset <= most && len <= most - offset)
}

impl<A: Allocator + Copy> Realm<A> {
    /// Writes bytes into the current file; writing none takes no tick. `Delay`: an allocation fails, and nothing has
    /// changed.
    pub fn write(
        &mut self,
        step: Step<'_>,
        args: &WriteArgs<'_>,
        out: &mut Writer<A>,
    ) -> Result<FileHandles, Status>
        requires settled { self.old.tree.log.held ≡ [] }
        requires room { HasRoom step.context out.old }
        ensures { GivesOrDelays step.entry (write (write_args_value args.now)) (stage self.old out.old) result
            (stage self.new out.new) }
    {
        let number = step.handles.current.ok_or(Status::NoFileHandle)?;
        match self.tree.object(number).ok_or(Status::Stale)?.kind() {
            Kind::Directory => return Err(Status::IsDir),
            Kind::Link => return Err(Status::Symlink),
            Kind::File => {}
        }
        let limits = self.tree.limits();
        self.check_stateid(step.context, number, &args.stateid, Purpose::ToWrite)?;
        if !self.grants_sized(step, &Op::Write(*args), None, None) {
            return Err(Status::Access);
        }
        let data = args.data.bytes;
        if !fits(limits, args.offset, data) {
            return Err(Status::FBig);
        }
        if data.is_empty() {
            put_result(OpResult::Write(WriteResult { count: 0 }), out);
            return Ok(step.handles);
        }
        let at = self.tick(step.context.now).ok_or(Status::NoSpc)?;
        self.write_bytes(number, args.offset, data, at)?;
        let count = data.len() as u32;
        put_result(OpResult::Write(WriteResult { count }), out);
        Ok(step.handles)
    }
}
