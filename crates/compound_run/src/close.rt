//! CLOSE (RFC 8881, section 18.2).
ghost use Rattle.nfs_ops.specs.Views.{close_args_value};
ghost use Rattle.compound_run.specs.Operations.Close.{close};
ghost use Rattle.compound_run.specs.Stateids.{without_open};
ghost use Rattle.compound_run.specs.Views.{Gives, HasRoom, opens_view, stage};
ghost use Rattle.std.specs.Prelude.{◌≡◌, ◌==◌, not, filter};

use crate::filehandles::FileHandles;
use crate::opens::Open;
use crate::operation_results::put_result;
use crate::realm::Realm;
use crate::stateids::Purpose;
use crate::step::Step;
use nfs_ops::{CloseArgs, CloseResult, OpResult};
use nfs_types::{StateId, Status};
use std::alloc::Allocator;
use xdr_wire::Writer;

/// Keeps the opens of other numbers.
fn keep_others<A: Allocator>(opens: &mut Vec<Open<A>, A>, number: u64)
    ensures { opens.new.items ≡ filter (λ o. not (o.number == number)) opens.old.items }
{
    opens.retain(|open| open.number != number);
}

/// Removes the open of a number.
fn remove_open<A: Allocator>(opens: &mut Vec<Open<A>, A>, number: u64)
    ensures { opens_view opens.new.items ≡ without_open number (opens_view opens.old.items) }
{
    keep_others(opens, number);
}

impl<A: Allocator + Copy> Realm<A> {
    /// Closes an open of the current file. It allocates no memory.
    pub fn close(
        &mut self,
        step: Step<'_>,
        args: &CloseArgs,
        out: &mut Writer<A>,
    ) -> Result<FileHandles, Status>
        requires room { HasRoom step.context out.old }
        ensures { Gives step.entry (close (close_args_value args.now)) (stage self.old out.old) result
            (stage self.new out.new) }
    {
        let number = step.handles.current.ok_or(Status::NoFileHandle)?;
        if self.tree.object(number).is_none() {
            return Err(Status::Stale);
        }
        self.check_stateid(step.context, number, &args.stateid, Purpose::ToClose)?;
        let opened = args.stateid.open_number().unwrap_or(0);
        remove_open(&mut self.opens, opened);
        let stateid = StateId::closed();
        put_result(OpResult::Close(CloseResult { stateid }), out);
        Ok(step.handles)
    }
}
