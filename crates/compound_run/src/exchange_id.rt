//! EXCHANGE_ID (RFC 8881, section 18.35).
ghost use Rattle.std.specs.Prelude.{◌≡◌, ◌+◌, ◌≤◌, length};
ghost use Rattle.xdr_wire.specs.Buffer.{Appends};
ghost use Rattle.nfs_ops.specs.Operations.{Known};
ghost use Rattle.nfs_ops.specs.Views.{exchange_id_args_value};
ghost use Rattle.nfs_ops.specs.declared.OpKind.TheVariants as kinds;
ghost use Rattle.session_slots.specs.Exchanging.{Exchanges};
ghost use Rattle.compound_run.specs.ExchangeId.{exchanging, exchanged};
ghost use Rattle.compound_run.specs.Limits as limits;
ghost use Rattle.compound_run.specs.Runs.{spelled};
ghost use Rattle.compound_run.specs.SessionViews.{ActGives, IsOfClients};
ghost use Rattle.compound_run.specs.Views.{realm_of};

use crate::operation_results::put_result;
use crate::realm::Realm;
use crate::sessions::second;
use nfs_ops::{ExchangeIdArgs, ExchangeIdResult, OpResult};
use nfs_types::{Moment, Status};
use rpc_record::Caller;
use session_slots::{Exchange, Exchanged};
use std::alloc::Allocator;
use xdr_wire::{Opaque, Writer};

/// The server owner's major ID, and the server scope.
const SERVER: &[u8] = b"nfs41-lists";

/// Writes the record of a client.
fn put_exchanged<A: Allocator>(outcome: Exchanged, out: &mut Writer<A>)
    requires room { limits.MIN_ROOM ≤ out.old.room }
    ensures written { Appends out.old out.new (spelled (exchanged outcome)) }
    ensures within { length out.new.bytes ≤ length out.old.bytes + limits.MIN_ROOM }
{
    put_result(
        OpResult::ExchangeId(ExchangeIdResult {
            client: outcome.client,
            sequence: outcome.sequence,
            flags: outcome.flags(),
            server: Opaque { bytes: SERVER },
            scope: Opaque { bytes: SERVER },
        }),
        out,
    );
}

impl<A: Allocator + Copy> Realm<A> {
    /// Requests the record of a client.
    fn exchange(
        &mut self,
        caller: &Caller,
        now: Moment,
        args: &ExchangeIdArgs<'_>,
    ) -> Result<Exchanged, Status>
        ensures exchanges { Exchanges self.old.clients
            (exchanging caller.now (exchange_id_args_value args.now) (realm_of self.old)) result self.new.clients }
        ensures others { self.new ≡ record self.old { clients = self.new.clients } }
    {
        let has_opens = self.owner_has_opens(args.owner.bytes);
        self.clients.exchange_id(Exchange {
            owner: args.owner.bytes,
            verifier: u64::from_be_bytes(args.verifier),
            uid: caller.uid(),
            flags: args.flags,
            has_opens,
            now: second(now),
        })
    }

    /// Gives a client a record, and renews its lease at this moment. DELAY: an allocation for a new record fails, and
    /// nothing changes.
    pub fn exchange_id(
        &mut self,
        caller: &Caller,
        now: Moment,
        args: &ExchangeIdArgs<'_>,
        out: &mut Writer<A>,
    ) -> Result<(), Status>
        requires room { limits.MIN_ROOM ≤ out.old.room }
        ensures gives { ActGives caller.now (Known kinds.ExchangeId (exchange_id_args_value args.now))
            (realm_of self.old) out.old result (realm_of self.new) out.new }
        ensures others { IsOfClients self.old self.new }
    {
        let outcome = self.exchange(caller, now, args)?;
        put_exchanged(outcome, out);
        Ok(())
    }
}
