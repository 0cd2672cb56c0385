//! Stateids (RFC 8881, sections 8.2 and 9.1).
ghost use Rattle.std.specs.Prelude.{◌≡◌, ◌==◌, ◌&&◌, find, Some, None, option_map, MatchResult};
ghost use Rattle.std.specs.Option.{option_copied};
ghost use Rattle.nfs_types.specs.Views.{stateid_value};
ghost use Rattle.compound_run.specs.Asking.{sight_of};
ghost use Rattle.compound_run.specs.Stateids as specs;
ghost use Rattle.compound_run.specs.Views.{context_at, open_view};

use crate::context::Context;
use crate::opens::Open;
use crate::realm::Realm;
use nfs_types::{StateId, Status};
use std::alloc::Allocator;

/// The purpose of an operation's stateid.
#[derive(Clone, Copy, PartialEq, Eq)]
pub(crate) enum Purpose {
    /// To read the file.
    ToRead,
    /// To write the file, or to set its size.
    ToWrite,
    /// To close the open.
    ToClose,
}

impl Purpose {
    /// Whether an open with this access permits the purpose.
    fn is_served_by(self, access: u32) -> bool
        ensures { result ≡ specs.serves_for self access }
    {
        let kind = access % 256;
        match self {
            Purpose::ToRead => kind == 1 || kind == 3,
            Purpose::ToWrite => kind == 2 || kind == 3,
            Purpose::ToClose => true,
        }
    }

    /// A special stateid belongs to no open; it permits every purpose but to close.
    fn check_special(self) -> Result<(), Status>
        ensures { MatchResult result (λ done. specs.special_fault self ≡ None)
            (λ status. specs.special_fault self ≡ Some status) }
    {
        match self {
            Purpose::ToRead | Purpose::ToWrite => Ok(()),
            Purpose::ToClose => Err(Status::BadStateId),
        }
    }
}

impl Context<'_> {
    /// The client whose opens an operation uses; without a session all are of client 0.
    pub fn client(self) -> u64
        ensures { result ≡ specs.client_in self.entry.calling }
    {
        match self.calling {
            Some(calling) => calling.client,
            None => 0,
        }
    }
}

impl<A: Allocator + Copy> Open<A> {
    /// The fault of a seqid, if any.
    fn check_seqid(&self, seqid: u32) -> Result<(), Status>
        ensures { MatchResult result (λ done. specs.seqid_fault seqid (open_view self.now) ≡ None)
            (λ status. specs.seqid_fault seqid (open_view self.now) ≡ Some status) }
    {
        if seqid == 0 {
            return Ok(());
        }
        if seqid < self.seqid {
            return Err(Status::OldStateId);
        }
        if self.seqid < seqid {
            return Err(Status::BadStateId);
        }
        Ok(())
    }
}

/// The first open of this number, client and object.
fn find_open<A: Allocator>(
    opens: &[Open<A>],
    number: u64,
    client: u64,
    object: u64,
) -> Option<&Open<A>>
    ensures { option_copied result ≡ find (λ o. (o.number == number) && (o.client == client) && (o.object == object))
        opens.now }
{
    opens.iter().find(|open| open.number == number
        && open.client == client
        && open.object == object)
}

impl<A: Allocator + Copy> Realm<A> {
    /// The open of this number, client and object.
    fn open_named(&self, number: u64, client: u64, object: u64) -> Option<&Open<A>>
        ensures { option_map open_view (option_copied result) ≡
            find (specs.is_open number client object) (sight_of self.now).opens }
    {
        find_open(&self.opens, number, client, object)
    }

    /// The fault of an open's stateid, if any.
    fn check_open(
        &self,
        context: Context<'_>,
        object: u64,
        stateid: &StateId,
        purpose: Purpose,
    ) -> Result<(), Status>
        ensures { MatchResult result (λ done. specs.opened_fault (specs.serves_for purpose)
            (context_at self.now context.entry) object (stateid_value stateid.now) (sight_of self.now) ≡ None)
            (λ status. specs.opened_fault (specs.serves_for purpose) (context_at self.now context.entry) object
            (stateid_value stateid.now) (sight_of self.now) ≡ Some status) }
    {
        let number = stateid.open_number().ok_or(Status::BadStateId)?;
        let found = self.open_named(number, context.client(), object);
        let opened = found.ok_or(Status::BadStateId)?;
        opened.check_seqid(stateid.seqid)?;
        if !purpose.is_served_by(opened.access) {
            return Err(Status::OpenMode);
        }
        Ok(())
    }

    /// The fault of a stateid, if any.
    pub fn check_stateid(
        &self,
        context: Context<'_>,
        object: u64,
        stateid: &StateId,
        purpose: Purpose,
    ) -> Result<(), Status>
        ensures { MatchResult result (λ done. specs.stateid_fault purpose (context_at self.now context.entry) object
            (stateid_value stateid.now) (sight_of self.now) ≡ None)
            (λ status. specs.stateid_fault purpose (context_at self.now context.entry) object
            (stateid_value stateid.now) (sight_of self.now) ≡ Some status) }
    {
        if stateid.is_special() {
            return purpose.check_special();
        }
        self.check_open(context, object, stateid, purpose)
    }
}
