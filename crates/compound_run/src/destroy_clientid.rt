//! DESTROY_CLIENTID (RFC 8881, section 18.50).
ghost use Rattle.std.specs.Prelude.{◌≤◌};
ghost use Rattle.nfs_ops.specs.Operations.{Known};
ghost use Rattle.nfs_ops.specs.Views.{destroy_clientid_args_value};
ghost use Rattle.nfs_ops.specs.declared.OpKind.TheVariants as kinds;
ghost use Rattle.rpc_record.specs.Identity.{Identity};
ghost use Rattle.compound_run.specs.Limits as limits;
ghost use Rattle.compound_run.specs.SessionViews.{ActGives, IsOfClients};
ghost use Rattle.compound_run.specs.Views.{realm_of};

use crate::operation_results::put_result;
use crate::realm::Realm;
use nfs_ops::{DestroyClientIdArgs, OpResult};
use nfs_types::Status;
use std::alloc::Allocator;
use xdr_wire::Writer;

impl<A: Allocator + Copy> Realm<A> {
    /// Removes the record of a client without opens and sessions. It allocates no memory.
    pub fn destroy_clientid(
        &mut self,
        args: &DestroyClientIdArgs,
        out: &mut Writer<A>,
    ) -> Result<(), Status>
        requires room { limits.MIN_ROOM ≤ out.old.room }
        ensures gives { (caller : Identity) →
            ActGives caller (Known kinds.DestroyClientId (destroy_clientid_args_value args.now)) (realm_of self.old)
            out.old result (realm_of self.new) out.new }
        ensures others { IsOfClients self.old self.new }
    {
        let has_opens = self.has_opens(args.client);
        self.clients.destroy_client(args.client, has_opens)?;
        put_result(OpResult::DestroyClientId, out);
        Ok(())
    }
}
