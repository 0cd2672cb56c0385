//! Opening a session, and ending it.
ghost use Rattle.std.specs.Prelude.{◌≡◌, ◌∷◌, [], None, Err, IfOk, false, true, option_map, option_and_then};
ghost use Rattle.xdr_wire.specs.Wire.{array_values};
ghost use Rattle.nfs_ops.specs.Forms.{callback_security};
ghost use Rattle.nfs_ops.specs.ResultViews.{read_view};
ghost use Rattle.nfs_client.specs.Compound.{results_to};
ghost use Rattle.nfs_client.specs.Requests.{Asks, PutGives};
ghost use Rattle.nfs_client.specs.Sessions.{exchange_id, create_session, destroy_session, destroy_client, record_of};
ghost use Rattle.nfs_client.specs.Sessions.{record_in, record_value, session_of, session_in, session_value, OpenGives};
ghost use Rattle.nfs_client.specs.Sessions.{Begins, EndGives, MadeKnown, SessionMade, Ends};
ghost use Rattle.nfs_client.specs.Taking.{ReplyResultsGive, taking};
ghost use Rattle.nfs_client.specs.declared.fault.ToolFault.TheVariants.{Failed};

use crate::client::{Client, Reply};
use crate::fault::ToolFault;
use crate::request::Request;
use crate::taking::last;
use crate::transport::Transport;
use nfs_ops::{
    CallbackSecurity, Channel, CreateSessionArgs, DestroyClientIdArgs, DestroySessionArgs,
    ExchangeIdArgs, Op, OpResult,
};
use std::alloc::Allocator;
use xdr_wire::{Array, Opaque, Reader, Wire, XdrFault};

/// The most bytes of an owner.
const MOST_OF_OWNER: u32 = 1024;

/// The limits of calls and replies: 65,536 bytes, 16 operations, one slot.
const FORE: Channel = Channel {
    padding: 0,
    request_size: 65_536,
    reply_size: 65_536,
    cached_size: 65_536,
    operations: 16,
    slots: 1,
    rdma: None,
};

/// The limits of callbacks, which aren't served.
const BACK: Channel = Channel {
    padding: 0,
    request_size: 4096,
    reply_size: 4096,
    cached_size: 0,
    operations: 2,
    slots: 1,
    rdma: None,
};

/// A client's record at the server.
#[derive(Clone, Copy)]
pub(crate) struct Registration {
    /// The client ID.
    client: u64,
    /// The sequence ID of the next CREATE_SESSION.
    number: u32,
}

/// The client's record in a result.
fn registered(found: Option<OpResult<'_>>) -> Option<Registration>
    ensures { option_map record_value result ≡ option_and_then record_of (option_map read_view found.entry) }
{
    match found {
        Some(OpResult::ExchangeId(outcome)) => Some(Registration {
            client: outcome.client,
            number: outcome.sequence,
        }),
        _ => None,
    }
}

/// The session in a result.
fn session_from(found: Option<OpResult<'_>>) -> Option<[u8; 16]>
    ensures { option_map session_value result ≡ option_and_then session_of (option_map read_view found.entry) }
{
    match found {
        Some(OpResult::CreateSession(outcome)) => Some(outcome.session),
        _ => None,
    }
}

impl<A: Allocator + Copy> Reply<A> {
    /// The client's record.
    fn registration(&self, alloc: A) -> Result<Registration, ToolFault>
        ensures { ReplyResultsGive (taking record_in record_value)
            (results_to self.now.xid self.now.asked.items self.now.content.items) result }
    {
        match self.results(alloc) {
            Ok(results) => match registered(last(results)) {
                Some(registration) => Ok(registration),
                None => Err(ToolFault::Reply),
            },
            Err(fault) => Err(fault),
        }
    }

    /// The session ID.
    fn session(&self, alloc: A) -> Result<[u8; 16], ToolFault>
        ensures { ReplyResultsGive (taking session_in session_value)
            (results_to self.now.xid self.now.asked.items self.now.content.items) result }
    {
        match self.results(alloc) {
            Ok(results) => match session_from(last(results)) {
                Some(session) => Ok(session),
                None => Err(ToolFault::Reply),
            },
            Err(fault) => Err(fault),
        }
    }
}

/// The encoding of no credentials.
const NO_CREDENTIALS: &[u8] = &[0; 4];

/// No credentials of callbacks.
fn no_credentials() -> Result<Array<'static, CallbackSecurity<'static>, 8>, XdrFault>
    ensures { IfOk result (λ a. array_values callback_security None a.count a.bytes.now ≡ []) }
{
    Wire::read(&mut Reader::new(NO_CREDENTIALS))
}

/// The request that registers the client.
fn registering<A: Allocator + Copy>(
    alloc: A,
    owner: Opaque<'_, MOST_OF_OWNER>,
    verifier: [u8; 8],
) -> Result<Request<A>, ToolFault>
    ensures asks { IfOk result
        (λ r. Asks r (exchange_id (record { id = owner.entry.bytes.now; verifier = verifier }) ∷ [])) }
    ensures memory { PutGives result }
{
    let mut request = Request::new(alloc)?;
    request.put(Op::ExchangeId(ExchangeIdArgs {
        verifier,
        owner,
        flags: 0,
        implementation: None,
    }))?;
    Ok(request)
}

/// The request that creates a session.
fn creating<A: Allocator + Copy>(
    alloc: A,
    registration: Registration,
) -> Result<Request<A>, ToolFault>
    ensures asks { IfOk result (λ r. Asks r (create_session registration.client registration.number ∷ [])) }
    ensures memory { PutGives result }
{
    let Ok(security) = no_credentials() else {
        return Err(ToolFault::Memory);
    };
    let mut request = Request::new(alloc)?;
    request.put(Op::CreateSession(CreateSessionArgs {
        client: registration.client,
        sequence: registration.number,
        flags: 0,
        fore: FORE,
        back: BACK,
        program: 0,
        security,
    }))?;
    Ok(request)
}

/// The request that destroys a session.
fn ending<A: Allocator + Copy>(alloc: A, session: [u8; 16]) -> Result<Request<A>, ToolFault>
    ensures asks { IfOk result (λ r. Asks r (destroy_session session ∷ [])) }
    ensures memory { PutGives result }
{
    let mut request = Request::new(alloc)?;
    request.put(Op::DestroySession(DestroySessionArgs { session }))?;
    Ok(request)
}

/// The request that destroys a client.
fn forgetting<A: Allocator + Copy>(alloc: A, client: u64) -> Result<Request<A>, ToolFault>
    ensures asks { IfOk result (λ r. Asks r (destroy_client client ∷ [])) }
    ensures memory { PutGives result }
{
    let mut request = Request::new(alloc)?;
    request.put(Op::DestroyClientId(DestroyClientIdArgs { client }))?;
    Ok(request)
}

impl<S: Transport, A: Allocator + Copy> Client<S, A> {
    /// Registers the client.
    fn register(
        &mut self,
        owner: Opaque<'_, MOST_OF_OWNER>,
        verifier: [u8; 8],
    ) -> Result<Registration, ToolFault>
        ensures { MadeKnown S.talks (record { id = owner.entry.bytes.now; verifier = verifier })
            self.old self.new result }
    {
        let request = registering(self.alloc, owner, verifier)?;
        let reply = match self.exchange(request) {
            Ok(reply) => reply,
            Err(fault) => return Err(fault),
        };
        let outcome = reply.registration(self.alloc);
        self.conclude(&outcome, false);
        outcome
    }

    /// Creates a session.
    fn make_session(&mut self, registration: Registration) -> Result<[u8; 16], ToolFault>
        ensures { SessionMade S.talks registration self.old self.new result }
    {
        let request = creating(self.alloc, registration)?;
        let reply = match self.exchange(request) {
            Ok(reply) => reply,
            Err(fault) => return Err(fault),
        };
        let outcome = reply.session(self.alloc);
        self.conclude(&outcome, false);
        outcome
    }

    /// Registers the client, and creates its session.
    fn begun(&mut self, owner: &[u8], verifier: [u8; 8]) -> Result<(), ToolFault>
        ensures { Begins S.talks (record { id = owner.now; verifier = verifier }) self.old self.new result }
    {
        let Some(owner) = Opaque::new(owner) else {
            return Err(ToolFault::TooLarge);
        };
        let registration = match self.register(owner, verifier) {
            Ok(registration) => registration,
            Err(fault) => return Err(fault),
        };
        let session = match self.make_session(registration) {
            Ok(session) => session,
            Err(fault) => return Err(fault),
        };
        self.client = registration.client;
        self.session = session;
        self.number = 1;
        Ok(())
    }

    /// Begins a session of the client's own: EXCHANGE_ID, then CREATE_SESSION, as `Client::open` does. It is for a
    /// client of `Client::resume` whose stream is taken back by `Client::into_stream` in any case. `TooLarge`: the
    /// owner has more than 1,024 bytes, and nothing is sent.
    pub fn begin(&mut self, owner: &[u8], verifier: [u8; 8]) -> Result<(), ToolFault>
        ensures failed { self.old.usable ≡ false → (result ≡ Err Failed) × (self.new ≡ self.old) }
        ensures gives { self.old.usable ≡ true →
            Begins S.talks (record { id = owner.now; verifier = verifier }) self.old self.new result }
    {
        match self.start() {
            Ok(()) => self.begun(owner, verifier),
            Err(fault) => Err(fault),
        }
    }

    /// A client with a session of its own: EXCHANGE_ID, then CREATE_SESSION. The client calls as this user and in
    /// this group alone.
    ///
    /// The owner identifies the client to the server, and the verifier identifies the start of the client (RFC 8881,
    /// section 2.4). Clients that run beside each other have different owners: a start of an owner ends the session
    /// and opens of its earlier start. No other user may start that owner. `TooLarge`: the owner has more than 1,024
    /// bytes, and nothing is sent.
    pub fn open(
        alloc: A,
        stream: S,
        uid: u32,
        gid: u32,
        owner: &[u8],
        verifier: [u8; 8],
    ) -> Result<Self, ToolFault>
    where
        S: Drop,
        ensures { OpenGives S.talks stream uid gid
            (record { id = owner.now; verifier = verifier }) result }
    {
        let mut client = Client::resume(alloc, stream, uid, gid, 0, [0; 16], 0);
        match client.begun(owner, verifier) {
            Ok(()) => Ok(client),
            Err(fault) => Err(fault),
        }
    }

    /// Destroys the client at the server.
    fn forget(&mut self) -> Result<(), ToolFault>
        ensures { Ends S.talks (destroy_client self.old.client)
            self.old self.new result }
    {
        let request = forgetting(self.alloc, self.client)?;
        self.run(request, false)
    }

    /// Destroys the session.
    fn end_session(&mut self) -> Result<(), ToolFault>
        ensures { Ends S.talks (destroy_session self.old.session)
            self.old self.new result }
    {
        let request = ending(self.alloc, self.session)?;
        self.run(request, false)
    }

    /// Ends the session and the client: DESTROY_SESSION, then DESTROY_CLIENTID.
    pub fn end(&mut self) -> Result<(), ToolFault>
        ensures failed { self.old.usable ≡ false → result ≡ Err Failed }
        ensures gives { EndGives S.talks self.old self.new result }
    {
        self.start()?;
        match self.end_session() {
            Ok(()) => {
                let outcome = self.forget();
                self.break_off(&outcome);
                outcome
            }
            Err(fault) => Err(fault),
        }
    }
}
