//! ACCESS (RFC 8881, section 18.1).
ghost use Rattle.std.specs.Prelude.{◌≡◌};
ghost use Rattle.nfs_ops.specs.Views.{access_args_value};
ghost use Rattle.compound_run.specs.Operations.Access.{access};
ghost use Rattle.compound_run.specs.Views.{Gives, HasRoom, stage};

use crate::filehandles::FileHandles;
use crate::operation_results::put_result;
use crate::realm::Realm;
use crate::step::Step;
use access_rows::rights_of;
use nfs_ops::{AccessArgs, AccessResult, OpResult};
use nfs_types::Status;
use std::alloc::Allocator;
use xdr_wire::Writer;

impl<A: Allocator + Copy> Realm<A> {
    /// The requested permissions that are supported for the current object, and those that its access control list
    /// grants.
    pub fn access(
        &mut self,
        step: Step<'_>,
        args: &AccessArgs,
        out: &mut Writer<A>,
    ) -> Result<FileHandles, Status>
        requires room { HasRoom step.context out.old }
        ensures { Gives step.entry (access (access_args_value args.now)) (stage self.old out.old) result
            (stage self.new out.new) }
    {
        let number = step.handles.current.ok_or(Status::NoFileHandle)?;
        let kind = self.tree.object(number).ok_or(Status::Stale)?.kind();
        let rights = rights_of(
            kind,
            args.asked,
            self.tree.grants(number, step.context.caller),
        );
        put_result(
            OpResult::Access(AccessResult {
                supported: rights.supported,
                granted: rights.granted,
            }),
            out,
        );
        Ok(step.handles)
    }
}
