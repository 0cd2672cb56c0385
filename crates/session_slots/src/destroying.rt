//! DESTROY_SESSION (RFC 8881, section 18.37), DESTROY_CLIENTID (section 18.50) and RECLAIM_COMPLETE (section 18.51).
ghost use Rattle.std.specs.Prelude.{◌≡◌, IsOk, Err, OnOk, OnErr, MatchOption};
ghost use Rattle.session_slots.specs.Destroying.{destroy_session_refusal, without_session, destroy_client_refusal};
ghost use Rattle.session_slots.specs.Destroying.{without_client, reclaim_refusal, with_reclaimed};

use crate::changes::{has_sessions, reclaim};
use crate::registry::Registry;
use nfs_types::Status;
use std::alloc::Allocator;

impl<A: Allocator + Copy> Registry<A> {
    /// DESTROY_SESSION.
    pub fn destroy_session(&mut self, session: u64) -> Result<(), Status>
        ensures refused { MatchOption (destroy_session_refusal self.old session) (IsOk result)
            (λ status. result ≡ Err status) }
        ensures ok { OnOk result (self.new ≡ without_session self.old session) }
        ensures err { OnErr result (self.new ≡ self.old) }
    {
        match self.sessions.remove(&session) {
            Some(_) => Ok(()),
            None => Err(Status::BadSession),
        }
    }

    /// Why a client isn't destroyed.
    fn destroy_client_refusal(&self, client: u64, has_opens: bool) -> Option<Status>
        ensures { result ≡ destroy_client_refusal self.now client has_opens }
    {
        if !self.clients.contains_key(&client) {
            return Some(Status::StaleClientId);
        }
        if has_opens {
            return Some(Status::ClientIdBusy);
        }
        if has_sessions(&self.sessions, client) {
            return Some(Status::ClientIdBusy);
        }
        None
    }

    /// DESTROY_CLIENTID.
    pub fn destroy_client(&mut self, client: u64, has_opens: bool) -> Result<(), Status>
        ensures refused { MatchOption (destroy_client_refusal self.old client has_opens) (IsOk result)
            (λ status. result ≡ Err status) }
        ensures ok { OnOk result (self.new ≡ without_client self.old client) }
        ensures err { OnErr result (self.new ≡ self.old) }
    {
        if let Some(status) = self.destroy_client_refusal(client, has_opens) {
            return Err(status);
        }
        self.clients.remove(&client);
        Ok(())
    }

    /// Why a RECLAIM_COMPLETE is refused.
    fn reclaim_refusal(&self, client: u64) -> Option<Status>
        ensures { result ≡ reclaim_refusal self.now client }
    {
        let Some(client) = self.clients.get(&client) else {
            return Some(Status::StaleClientId);
        };
        if client.has_reclaimed() {
            return Some(Status::CompleteAlready);
        }
        None
    }

    /// RECLAIM_COMPLETE for all file systems.
    pub fn reclaim_complete(&mut self, client: u64) -> Result<(), Status>
        ensures refused { MatchOption (reclaim_refusal self.old client) (IsOk result) (λ status. result ≡ Err status) }
        ensures ok { OnOk result (self.new ≡ with_reclaimed self.old client) }
        ensures err { OnErr result (self.new ≡ self.old) }
    {
        if let Some(status) = self.reclaim_refusal(client) {
            return Err(status);
        }
        reclaim(&mut self.clients, client);
        Ok(())
    }
}
