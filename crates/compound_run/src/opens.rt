//! Open files (RFC 8881, sections 9.1 and 18.16).
ghost use Rattle.std.specs.Prelude.{◌≡◌, ◌≤◌, ◌+◌, ◌==◌, ◌&&◌, filter, find, map, nat_eq, not, true, false, option_map};
ghost use Rattle.std.specs.Prelude.{vec_len, vec_capacity, Some, Err, IfOk, IsOkUnless};
ghost use Rattle.std.specs.Option.{option_copied};
ghost use Rattle.std.specs.Cmp.Lexicographic.{pointwise};
ghost use Rattle.nfs_types.specs.Views.{stateid_value};
ghost use Rattle.nfs_ops.specs.Views.{open_args_value};
ghost use Rattle.compound_run.specs.Asking.{sight_of};
ghost use Rattle.compound_run.specs.Operations.Open as specs;
ghost use Rattle.compound_run.specs.Realm.{opens_left};
ghost use Rattle.compound_run.specs.Opening.{HasPlace, IsPlace, placed, placed_stateid};
ghost use Rattle.compound_run.specs.internal.Opening.{reopened_by};
ghost use Rattle.compound_run.specs.Views.{context_at, open_view, opens_view, realm_of};

use crate::context::Context;
use crate::limits::MAX_COUNT;
use crate::realm::Realm;
use nfs_ops::OpenArgs;
use nfs_types::{StateId, Status};
use std::alloc::{AllocError, Allocator, Global};

/// A file that is open (RFC 8881, section 18.16).
#[derive(Drop)]
pub struct Open<A: Allocator = Global> {
    /// The number of the open.
    pub number: u64,
    /// The client ID of the client that has it open.
    pub client: u64,
    /// The bytes of the open-owner.
    pub owner: Vec<u8, A>,
    /// The object number of the file.
    pub object: u64,
    /// 1 to read, 2 to write, 3 for both.
    pub access: u32,
    /// The seqid: 1 at first, and one more at each upgrade; after 0xffffffff comes 1.
    pub seqid: u32,
}

/// The place of an open.
#[derive(Drop)]
pub(crate) enum Place<A: Allocator> {
    /// The owner has the file open under this number, with this seqid.
    Again { number: u64, seqid: u32 },
    /// The owner doesn't have the file open yet; these are the owner's bytes.
    New { owner: Vec<u8, A> },
}

/// The seqid after this one.
fn risen(seqid: u32) -> u32
    ensures { result ≡ specs.risen seqid }
{
    if seqid == u32::MAX { 1 } else { seqid + 1 }
}

impl<A: Allocator> Open<A> {
    /// Upgrades it to also have this access, if this is its number.
    fn reopen(&mut self, number: u64, access: u32)
        ensures { self.new ≡ reopened_by number access self.old }
    {
        if self.number == number {
            self.access |= access;
            self.seqid = risen(self.seqid);
        }
    }
}

/// Upgrades the open of a number.
fn reopen<A: Allocator>(opens: &mut Vec<Open<A>, A>, number: u64, access: u32)
    ensures { opens.new.items ≡ map (reopened_by number access) opens.old.items }
{
    for open in opens.iter_mut() {
        open.reopen(number, access);
    }
}

/// Keeps the opens of other objects.
fn keep_others_of<A: Allocator>(opens: &mut Vec<Open<A>, A>, object: u64)
    ensures { opens.new.items ≡ filter (λ o. not (o.object == object)) opens.old.items }
{
    opens.retain(|open| open.object != object);
}

/// The open of a file by an owner of a client.
fn find_owned<'o, A: Allocator>(
    opens: &'o [Open<A>],
    client: u64,
    owner: &[u8],
    file: u64,
) -> Option<&'o Open<A>>
    ensures { option_copied result ≡ find (λ o. (o.client == client) && pointwise nat_eq o.owner.items owner.now &&
        (o.object == file)) opens.now }
{
    opens.iter().find(|open| open.client == client
        && open.owner.as_slice() == owner
        && open.object == file)
}

impl<A: Allocator + Copy> Realm<A> {
    /// The owner's open of an object, if any.
    fn joined(
        &self,
        context: Context<'_>,
        args: &OpenArgs<'_>,
        file: Option<u64>,
    ) -> Option<&Open<A>>
        ensures { option_map open_view (option_copied result) ≡
            specs.joined (context_at self.now context.entry) (open_args_value args.now) file (sight_of self.now).opens }
    {
        let file = file?;
        find_owned(&self.opens, context.client(), args.owner.bytes, file)
    }

    /// Closes the opens of an object that has lost a name, if the object is gone. It allocates no memory.
    pub fn end_opens(&mut self, object: u64)
        ensures opens { opens_view self.new.opens.items ≡
            opens_left self.old.tree.world (Some object) (opens_view self.old.opens.items) }
        ensures others { self.new ≡ record self.old { opens = self.new.opens } }
    {
        if self.tree.object(object).is_none() {
            keep_others_of(&mut self.opens, object);
        }
    }

    /// Reserves memory for one more open, and copies its owner's bytes.
    fn make_place(&mut self, owner: &[u8]) -> Result<Vec<u8, A>, AllocError>
        ensures owner { IfOk result (λ copy. copy.items ≡ owner.now) }
        ensures room { IfOk result (λ copy. vec_len self.new.opens + 1 ≤ vec_capacity self.new.opens) }
        ensures opens { self.new.opens.items ≡ self.old.opens.items }
        ensures others { self.new ≡ record self.old { opens = self.new.opens } }
    {
        let mut copy = Vec::with_capacity(self.alloc, owner.len())?;
        copy.extend_from_slice(owner)?;
        self.opens.reserve(1)?;
        Ok(copy)
    }

    /// The place of the open of a file: the owner's open, if any, else a new one with reserved memory. `NoSpc`: too
    /// many files are open, or no number is left. `Delay`: an allocation fails.
    pub fn place(
        &mut self,
        context: Context<'_>,
        args: &OpenArgs<'_>,
        file: Option<u64>,
    ) -> Result<Place<A>, Status>
        ensures full { specs.has_open_space
            (specs.joined (context_at self.old context.entry) (open_args_value args.now) file (sight_of self.old).opens)
            (sight_of self.old) ≡ false → result ≡ Err Status.NoSpc }
        ensures space { specs.has_open_space
            (specs.joined (context_at self.old context.entry) (open_args_value args.now) file (sight_of self.old).opens)
            (sight_of self.old) ≡ true → IsOkUnless result Status.Delay }
        ensures place { IfOk result (IsPlace args.now.owner.bytes.now
            (specs.joined (context_at self.old context.entry) (open_args_value args.now) file
            (sight_of self.old).opens)) }
        ensures room { IfOk result (HasPlace self.old.next_open (vec_len self.new.opens)
            (vec_capacity self.new.opens)) }
        ensures opens { self.new.opens.items ≡ self.old.opens.items }
        ensures others { self.new ≡ record self.old { opens = self.new.opens } }
    {
        if let Some(open) = self.joined(context, args, file) {
            return Ok(Place::Again {
                number: open.number,
                seqid: open.seqid,
            });
        }
        if self.opens.len() >= self.tree.limits().opens() || self.next_open >= MAX_COUNT {
            return Err(Status::NoSpc);
        }
        match self.make_place(args.owner.bytes) {
            Ok(owner) => Ok(Place::New { owner }),
            Err(AllocError) => Err(Status::Delay),
        }
    }

    /// Opens a file at its place.
    pub fn put_open(
        &mut self,
        context: Context<'_>,
        access: u32,
        place: Place<A>,
        file: u64,
    ) -> StateId
        requires room { HasPlace self.old.next_open (vec_len self.old.opens) (vec_capacity self.old.opens) place }
        ensures stateid { stateid_value result ≡ placed_stateid place self.old.next_open }
        ensures realm { realm_of self.new ≡
            placed (context_at self.old context.entry) access file place (realm_of self.old) }
        ensures tree { self.new.tree ≡ self.old.tree }
    {
        match place {
            Place::Again { number, seqid } => {
                reopen(&mut self.opens, number, access);
                StateId::of_open(risen(seqid), number)
            }
            Place::New { owner } => {
                let number = self.next_open;
                self.next_open = number + 1;
                let open = Open {
                    number,
                    client: context.client(),
                    owner,
                    object: file,
                    access,
                    seqid: 1,
                };
                if self.opens.push(open).is_err() {
                    unreachable!();
                }
                StateId::of_open(1, number)
            }
        }
    }
}
