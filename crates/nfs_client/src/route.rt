//! The start of a walk, and its remaining names.
ghost use Rattle.std.specs.Prelude.{◌≡◌, ◌++◌, ◌∷◌, [], List, OnOk, IfOk, take};
ghost use Rattle.nfs_types.specs.Views.{handle_value};
ghost use Rattle.nfs_ops.specs.Operations.{Operation};
ghost use Rattle.nfs_client.specs.Requests.{Asks, PutGives};
ghost use Rattle.nfs_client.specs.Routes.{begins, walk, most_names, left_of_first};
ghost use Rattle.nfs_client.specs.RouteViews.{start_value, route_value};

use crate::fault::ToolFault;
use crate::request::Request;
use nfs_ops::{Op, PutFhArgs};
use nfs_types::Handle;
use std::alloc::Allocator;
use xdr_wire::Opaque;

/// The most names that a COMPOUND walks before one operation. With SEQUENCE and the start of the walk these are the
/// 16 operations that a session takes.
pub(crate) const MOST_NAMES: usize = 13;

/// The most names that a COMPOUND walks before two operations.
pub(crate) const MOST_BEFORE_TWO: usize = 12;

/// The most names of two paths that a COMPOUND walks before one operation, with SAVEFH between them.
pub(crate) const MOST_OF_BOTH: usize = 11;

/// The most names of the first of two paths that may remain at the end of its approaches. The paths have `names` and
/// `others` names. If one COMPOUND can walk both paths, no approach is made. Else the first is walked to its end,
/// before a name of the second is.
pub(crate) fn left_of_first(names: usize, others: usize) -> usize
    ensures { result ≡ left_of_first names others }
{
    if names.saturating_add(others) > MOST_OF_BOTH {
        return 0;
    }
    MOST_OF_BOTH
}

/// The first names, as many as one approach walks.
pub(crate) fn nearest<'a>(names: &'a [&'a [u8]]) -> &'a [&'a [u8]]
    ensures { result.now ≡ take most_names names.entry.now }
{
    let (near, _) = names.split_at(MOST_NAMES.min(names.len()));
    near
}

/// The start of a walk.
#[derive(Drop)]
pub(crate) enum Start<A: Allocator> {
    Root,
    /// The object of this filehandle.
    Object(Vec<u8, A>),
}

/// A walk: its start, and its remaining names.
#[derive(Drop)]
pub(crate) struct Route<'a, A: Allocator> {
    pub(crate) start: Start<A>,
    pub(crate) names: &'a [&'a [u8]],
}

/// A filehandle as sent. `Memory`: the handle is longer than a filehandle may be.
pub(crate) fn handle_sent(bytes: &[u8]) -> Result<Handle<'_>, ToolFault>
    ensures sent { IfOk result (λ h. handle_value h ≡ bytes.now) }
    ensures memory { PutGives result }
{
    match Opaque::new(bytes) {
        Some(item) => Ok(Handle::Sent(item)),
        None => Err(ToolFault::Memory),
    }
}

impl<A: Allocator + Copy> Request<A> {
    /// The start of a walk: PUTROOTFH, or PUTFH (RFC 8881, section 18.19).
    pub(crate) fn begin(&mut self, start: &Start<A>) -> Result<(), ToolFault>
        ensures asks { OnOk result ((ops : List Operation) → Asks self.old ops →
            Asks self.new (ops ++ begins (start_value start.now) ∷ [])) }
        ensures memory { PutGives result }
    {
        match start {
            Start::Root => self.put(Op::PutRootFh),
            Start::Object(bytes) => {
                let handle = handle_sent(bytes)?;
                self.put(Op::PutFh(PutFhArgs { handle }))
            }
        }
    }

    /// LOOKUP of the names of a route.
    pub(crate) fn walk(&mut self, route: &Route<'_, A>) -> Result<(), ToolFault>
        ensures asks { OnOk result ((ops : List Operation) → Asks self.old ops →
            Asks self.new (ops ++ walk (route_value route.now))) }
        ensures memory { PutGives result }
    {
        self.begin(&route.start)?;
        self.lookups(route.names)
    }
}
