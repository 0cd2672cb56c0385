//! An operation that is the only one of its COMPOUND (RFC 8881, section 2.10.2.1).
ghost use Rattle.std.specs.Prelude.{◌≡◌, ◌≤◌, false, if◌then◌else◌, length, None, Err};
ghost use Rattle.nfs_ops.specs.Operations.{number_of};
ghost use Rattle.compound_run.specs.Keeping.{keeps_alone};
ghost use Rattle.compound_run.specs.Limits as limits;
ghost use Rattle.compound_run.specs.SessionViews.{ActGives, ActedGives, AloneGives, IsOfClients, WritesWithin};
ghost use Rattle.compound_run.specs.SessionViews.{is_again};
ghost use Rattle.compound_run.specs.SessionViews.{lone_view};
ghost use Rattle.compound_run.specs.Views.{realm_of};

use crate::first_operation::Lone;
use crate::kept::{Ran, delayed_at};
use crate::operation_results::put_refusal;
use crate::realm::Realm;
use crate::result_heads::put_head;
use nfs_ops::{OP_CREATE_SESSION, OP_DESTROY_CLIENTID, OP_DESTROY_SESSION, OP_EXCHANGE_ID};
use nfs_types::{Moment, Status};
use rpc_record::Caller;
use std::alloc::Allocator;
use xdr_wire::Writer;

impl Lone<'_> {
    /// The operation's number, as the result has it.
    fn number(&self) -> u32
        ensures { result ≡ number_of (lone_view self.now) }
    {
        match self {
            Lone::ExchangeId(_) => OP_EXCHANGE_ID,
            Lone::CreateSession(_) => OP_CREATE_SESSION,
            Lone::DestroySession(_) => OP_DESTROY_SESSION,
            Lone::DestroyClientId(_) => OP_DESTROY_CLIENTID,
        }
    }

    /// Whether the record of a client caches this refusal of CREATE_SESSION (RFC 8881, section
    /// 18.36.4).
    fn keeps(&self, status: Status) -> bool
        ensures { result ≡ keeps_alone (lone_view self.now) (Err status) }
    {
        match self {
            Lone::CreateSession(_) => {
                matches!(status, Status::ClidInUse | Status::TooSmall | Status::NoSpc)
            }
            _ => false,
        }
    }
}

/// The result of an operation that is the only one: its status, and the facts for the record of its call.
#[derive(Clone, Copy, PartialEq, Eq)]
pub(crate) struct Acted {
    pub status: Status,
    pub ran: Ran,
}

/// The facts of a call, which has changed nothing if it is a retry.
fn unless_again(again: bool, ran: Ran) -> Ran
    ensures { result ≡ (if again then record { kept = false; delayed = None } else ran) }
{
    if again { Ran::nothing() } else { ran }
}

impl<A: Allocator + Copy> Realm<A> {
    /// Runs the operation.
    fn act(
        &mut self,
        caller: &Caller,
        now: Moment,
        lone: &Lone<'_>,
        out: &mut Writer<A>,
    ) -> Result<(), Status>
        requires room { limits.MIN_ROOM ≤ out.old.room }
        ensures gives { ActGives caller.now (lone_view lone.now) (realm_of self.old) out.old result (realm_of self.new)
            out.new }
        ensures others { IsOfClients self.old self.new }
    {
        match lone {
            Lone::ExchangeId(args) => self.exchange_id(caller, now, args, out),
            Lone::CreateSession(args) => self.create_session(caller, now, args, out),
            Lone::DestroySession(args) => self.destroy_session(args, out),
            Lone::DestroyClientId(args) => self.destroy_clientid(args, out),
        }
    }

    /// Runs the operation, and writes its result.
    fn act_alone(
        &mut self,
        caller: &Caller,
        now: Moment,
        lone: &Lone<'_>,
        out: &mut Writer<A>,
    ) -> Acted
        requires room { limits.MIN_ROOM ≤ out.old.room }
        ensures gives { ActedGives caller.now (lone_view lone.now) (realm_of self.old) out.old result (realm_of self.new)
            out.new }
        ensures others { IsOfClients self.old self.new }
    {
        match self.act(caller, now, lone, out) {
            Ok(()) => Acted {
                status: Status::Ok,
                ran: Ran {
                    kept: true,
                    delayed: None,
                },
            },
            Err(status) => {
                put_refusal(lone.number(), status, out);
                Acted {
                    status,
                    ran: Ran {
                        kept: lone.keeps(status),
                        delayed: delayed_at(status, 0),
                    },
                }
            }
        }
    }

    /// Whether the operation is a retry of the last CREATE_SESSION of its client.
    fn is_again(&self, lone: &Lone<'_>) -> bool
        ensures { result ≡ is_again (lone_view lone.now) (realm_of self.now) }
    {
        match lone {
            Lone::CreateSession(args) => self.clients.is_created(args.client, args.sequence),
            _ => false,
        }
    }

    /// Answers a COMPOUND of this operation alone: its results are appended to `out`.
    pub fn answer_alone(
        &mut self,
        tag: &[u8],
        caller: &Caller,
        now: Moment,
        lone: &Lone<'_>,
        out: &mut Writer<A>,
    ) -> Ran
        requires short { length tag.now ≤ limits.MAX_TAG }
        requires room { limits.MAX_RESULTS ≤ out.old.room }
        ensures answers { WritesWithin limits.MAX_RESULTS
            (λ bytes. AloneGives caller.now (lone_view lone.now) tag.now (realm_of self.old) bytes result
            (realm_of self.new))
            out.old out.new }
        ensures others { IsOfClients self.old self.new }
    {
        let again = self.is_again(lone);
        let status_at = out.len();
        put_head(Status::Ok, tag, 1, out);
        let acted = self.act_alone(caller, now, lone, out);
        out.fill(status_at, acted.status.number());
        unless_again(again, acted.ran)
    }
}
