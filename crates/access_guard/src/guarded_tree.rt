//! A tree beside its guard, and the book.
ghost use Rattle.std.specs.Prelude.{◌≡◌, ◌≢◌, ◌+◌, ◌<◌, ◌≤◌, ◌^◌, ◌==◌, [], ◌++◌, find, length, drop};
ghost use Rattle.std.specs.Prelude.{MatchOption, OnOk, OnErr, IfOk, IsOk, IsOkUnless, IfSome, IsSome, IsTrue, Some};
ghost use Rattle.std.specs.Prelude.{true, false};
ghost use Rattle.std.specs.Option.{option_copied};
ghost use Rattle.std.specs.NonZero.{non_zero_usize_get};
ghost use Rattle.acl_shape.specs.Bounds.{IsBounded};
ghost use Rattle.node_tree.specs.World.{FindsAgain, object, kind_of, bytes_of, bytes_at, child_named, name_after};
ghost use Rattle.node_tree.specs.World.{has_entries, link_count, parent_of};
ghost use Rattle.node_tree.specs.Changes.{made, with_new, with_link, unlinked, renamed, with_write, with_size};
ghost use Rattle.node_tree.specs.Changes.{with_list, with_owner, with_times};
ghost use Rattle.node_tree.specs.Refusals.{add_refusal, link_refusal, unlink_refusal, plan_refusal, space_refusal};
ghost use Rattle.node_tree.specs.Refusals.{write_refusal, resize_refusal};
ghost use Rattle.node_tree.specs.Moves.{IsMove, IsPlan};
ghost use Rattle.node_tree.specs.Sound.{IsSound, IsTick, IsNextName, most_bytes};
ghost use Rattle.node_tree.specs.Judged.{judged_of};
ghost use Rattle.access_guard.specs.Lists.{granted_at};
ghost use Rattle.access_guard.specs.Decisions.{decision, is_granted};
ghost use Rattle.access_guard.specs.Lines.{lines, most_lines};
ghost use Rattle.access_guard.specs.Log.{held, no_lines, settled};
ghost use Rattle.access_guard.specs.Memory.{Agrees};
ghost use Rattle.access_guard.specs.Guarded.{unjudged};
ghost use Rattle.access_guard.specs.Epochs as epochs;
ghost use Rattle.who_book.specs.Members.{member};

use crate::decision::Decision;
use crate::epoch::{FIRST_EPOCH, next_epoch};
use crate::guard::Guard;
use crate::trail::MOST_HELD;
use access_rows::Demand;
use acl_list::{AclList, Caller, Kind};
use nfs_types::{Limits, Moment};
use node_tree::{At, DirEntry, Move, NewObject, Node, Plan, ROOT, Tree, TreeFault};
use std::alloc::{AllocError, Allocator, Global};
use std::hash::RandomState;
use std::marker::Model;
use std::mem;
use std::num::NonZeroUsize;
use who_book::Book;

/// A tree, the guard of its access control lists (ACLs), and the book of its callers. The guard's remembered summaries
/// agree with the current ACLs, through every change of the tree and every reload of the book. No function here
/// therefore has a condition on them.
#[derive(Drop)]
pub struct GuardedTree<A: Allocator = Global> {
    tree: Tree<A>,
    guard: Guard<A>,
    book: Book,
    epoch: u64,
}

impl<A: Allocator> Model for GuardedTree<A> {
    ghost use Rattle.access_guard.specs.Guarded.{Guarded};
    ghost use Rattle.access_guard.specs.Memory.{Agrees};

    ghost Value = { Guarded };

    ghost view = { λ t. record {
      world = t.tree;
      book = t.book;
      epoch = t.epoch;
      log = t.guard.log;
      capacity = t.guard.memory.capacity;
    } };

    ghost invariant = { λ t. Agrees t.guard.memory.remembered t.book t.epoch t.tree };
}

// Decisions.
impl<A: Allocator + Copy> GuardedTree<A> {
    /// The tree and its first book, beside a guard that has decided nothing and remembers at most `capacity` summaries.
    /// `Err`: an allocation for the guard fails.
    pub fn new(
        alloc: A,
        tree: Tree<A>,
        book: Book,
        capacity: NonZeroUsize,
        hasher: RandomState,
    ) -> Result<Self, AllocError>
        ensures { IfOk result (λ guarded. guarded ≡ unjudged tree book (non_zero_usize_get capacity)) }
    {
        let guard = Guard::new(alloc, capacity, hasher)?;
        Ok(GuardedTree {
            tree,
            guard,
            book,
            epoch: FIRST_EPOCH,
        })
    }

    /// Whether the ACLs grant a demand to the caller by the book, as in [`Guard::decide`].
    pub fn decide(&mut self, demand: Demand, caller: &Caller, op: u32) -> Decision
        requires { length self.old.log.held + most_lines demand ≤ MOST_HELD }
        ensures decision { result ≡ decision (judged_of self.old.world) (member self.old.book caller.now) demand }
        ensures state { self.new ≡ record self.old {
          log = held (lines (judged_of self.old.world) (member self.old.book caller.now) op demand) self.old.log;
        } }
        ensures few { IsTrue (is_granted result) →
            length self.new.log.held + 1 ≤ length self.old.log.held + most_lines demand }
    {
        self.guard
            .decide(demand, &self.tree, &self.book, self.epoch, caller, op)
    }

    /// The mask bits that an object's ACL grants the caller by the book, as in [`Guard::grants`].
    #[tactic(auto, using(crate::proofs::Calls::look_up_keeps))]
    pub fn grants(&mut self, object: u64, caller: &Caller) -> u32
        ensures mask { result ≡ granted_at (judged_of self.old.world) (member self.old.book caller.now) object }
        ensures state { self.new ≡ self.old }
    {
        self.guard
            .grants(object, &self.tree, &self.book, self.epoch, caller)
    }

    /// Ends an operation: its lines are appended to the trail in their order, or dropped. It allocates no memory.
    pub fn settle(&mut self, keep: bool)
        ensures { self.new ≡ record self.old { log = settled keep self.old.log } }
    {
        self.guard.settle(keep);
    }

    /// Forgets all lines, and counts from 0 again, as after a start. It allocates no memory.
    pub fn forget(&mut self)
        ensures { self.new ≡ record self.old { log = no_lines } }
    {
        self.guard.forget();
    }

    /// The guard, which agrees with the tree and the book.
    pub fn guard(&self) -> &Guard<A>
        ensures log { result.now.log ≡ self.now.log }
        ensures capacity { result.now.memory.capacity ≡ self.now.capacity }
        ensures agrees { Agrees result.now.memory.remembered self.now.book self.now.epoch self.now.world }
    {
        &self.guard
    }

    /// The tree.
    pub fn tree(&self) -> &Tree<A>
        ensures { result.now ≡ self.now.world }
    {
        &self.tree
    }
}

// The book. None of these calls allocates memory.
impl<A: Allocator + Copy> GuardedTree<A> {
    /// Loads another book, and returns the old one. The epoch rises by 1, so that no summary that was remembered under
    /// the old book is used again. The tree, the lines and the trail stay. `Err`: no epoch is left ([`next_epoch`]),
    /// the new book is returned, and nothing changes.
    pub fn reload(&mut self, book: Book) -> Result<Book, Book>
        ensures given { MatchOption (epochs.next_epoch self.old.epoch) (result ≡ Err book)
            (λ epoch. result ≡ Ok self.old.book) }
        ensures ok { OnOk result (self.new ≡ record self.old { book = book; epoch = self.old.epoch + 1 }) }
        ensures err { OnErr result (self.new ≡ self.old) }
    {
        let Some(epoch) = next_epoch(self.epoch) else {
            return Err(book);
        };
        self.epoch = epoch;
        Ok(mem::replace(&mut self.book, book))
    }

    /// The book.
    pub fn book(&self) -> &Book
        ensures { result.now ≡ self.now.book }
    {
        &self.book
    }

    /// The epoch of the book, counted from 1.
    pub fn epoch(&self) -> u64
        ensures { result ≡ self.now.epoch }
    {
        self.epoch
    }

    /// The caller by the book, as in [`Book::member`].
    pub fn member(&self, caller: &Caller) -> Caller
        ensures { result ≡ member self.now.book caller.now }
    {
        self.book.member(caller)
    }
}

// Look-ups of the tree. None takes memory.
impl<A: Allocator + Copy> GuardedTree<A> {
    /// As [`Tree::root`].
    pub fn root(&self) -> u64
        ensures number { result ≡ ROOT }
        ensures live { kind_of self.now.world result ≡ Some Kind.Directory }
    {
        self.tree.root()
    }

    /// As [`Tree::next_tick`].
    pub fn next_tick(&self) -> u64
        ensures value { result ≡ self.now.world.next_tick }
        ensures tick { result < 2 ^ 63 → IsTick self.now.world result }
    {
        self.tree.next_tick()
    }

    /// As [`Tree::next_stamp`].
    pub fn next_stamp(&self) -> u64
        ensures { result ≡ self.now.world.next_stamp }
    {
        self.tree.next_stamp()
    }

    /// As [`Tree::limits`].
    pub fn limits(&self) -> Limits
        ensures { result ≡ self.now.world.limits }
    {
        self.tree.limits()
    }

    /// As [`Tree::object`].
    pub fn object(&self, number: u64) -> Option<&Node<A>>
        ensures value { option_copied result ≡ object self.now.world number }
        ensures sound { IsSound self.now.world }
    {
        self.tree.object(number)
    }

    /// As [`Tree::links`].
    pub fn links(&self, number: u64) -> usize
        ensures value { result ≡ link_count self.now.world.names number }
        ensures few { result < 2 ^ 32 }
    {
        self.tree.links(number)
    }

    /// As [`Tree::parent`].
    pub fn parent(&self, number: u64) -> Option<u64>
        ensures value { result ≡ parent_of self.now.world number }
        ensures live { IfSome result (λ parent. kind_of self.now.world parent ≡ Some Kind.Directory) }
    {
        self.tree.parent(number)
    }

    /// As [`Tree::has_entries`].
    pub fn has_entries(&self, directory: u64) -> bool
        ensures { result ≡ has_entries self.now.world.names directory }
    {
        self.tree.has_entries(directory)
    }

    /// As [`Tree::find`].
    pub fn find(&self, directory: u64, name: &[u8]) -> Option<u64>
        ensures child { result ≡ child_named self.now.world directory name.now }
        ensures live { IfSome result (λ child. IsSome (object self.now.world child)) }
    {
        self.tree.find(directory, name)
    }

    /// As [`Tree::list_after`].
    pub fn list_after(&self, directory: u64, cookie: u64) -> Option<&DirEntry<A>>
        ensures value { option_copied result ≡ name_after self.now.world directory cookie }
        ensures next { IfSome (option_copied result) (IsNextName self.now.world directory cookie) }
    {
        self.tree.list_after(directory, cookie)
    }

    /// As [`Tree::name_by_cookie`].
    pub fn name_by_cookie(&self, cookie: u64) -> Option<&DirEntry<A>>
        ensures value { option_copied result ≡ find (λ n. n.cookie == cookie) self.now.world.names }
        ensures again { FindsAgain self.now.world cookie (option_copied result) }
    {
        self.tree.name_by_cookie(cookie)
    }

    /// As [`Tree::plan_rename`].
    pub fn plan_rename<'a>(
        &self,
        from: u64,
        old: &'a [u8],
        to: u64,
        new: &'a [u8],
    ) -> Result<Plan<'a>, TreeFault>
        requires live { kind_of self.now.world to ≡ Some Kind.Directory }
        requires short { length new.now ≤ 255 }
        ensures refused { MatchOption (plan_refusal self.now.world from old.now to new.now) (IsOk result)
            (λ fault. result ≡ Err fault) }
        ensures plan { IfOk result (IsPlan self.now.world from old.now to new.now) }
    {
        self.tree.plan_rename(from, old, to, new)
    }

    /// As [`Tree::read`].
    pub fn read(&self, number: u64, offset: u64, buffer: &mut [u8]) -> usize
        ensures count { result ≡ length (bytes_at self.now.world number offset (length buffer.old)) }
        ensures copied { buffer.new ≡ bytes_at self.now.world number offset (length buffer.old) ++
            drop result buffer.old }
    {
        self.tree.read(number, offset, buffer)
    }
}

// Changes of the tree. Each allocates first, and a refusal leaves everything unchanged.
#[tactic(auto, using(crate::proofs::Remembering::agrees_kept))]
impl<A: Allocator + Copy> GuardedTree<A> {
    /// As [`Tree::add`].
    pub fn add(
        &mut self,
        directory: u64,
        name: &[u8],
        new: NewObject<A>,
        at: At,
    ) -> Result<u64, TreeFault>
        requires tick { IsTick self.old.world at.tick }
        requires live { kind_of self.old.world directory ≡ Some Kind.Directory }
        requires short { length name.now ≤ 255 }
        requires bounded { IsBounded new.list }
        requires bytes { length new.bytes.items ≤ most_bytes self.old.world.limits new.kind }
        ensures refused { MatchOption (add_refusal self.old.world directory name.now)
            (IsOkUnless result TreeFault.Memory) (λ fault. result ≡ Err fault) }
        ensures number { IfOk result (λ number. number ≡ self.old.world.next_number) }
        ensures ok { OnOk result (self.new ≡ record self.old {
          world = with_new self.old.world directory name.now (made new self.old.world.next_stamp at) at;
        }) }
        ensures err { OnErr result (self.new ≡ self.old) }
    {
        self.tree.add(directory, name, new, at)
    }

    /// As [`Tree::link`].
    pub fn link(
        &mut self,
        directory: u64,
        name: &[u8],
        number: u64,
        at: At,
    ) -> Result<(), TreeFault>
        requires tick { IsTick self.old.world at.tick }
        requires live { kind_of self.old.world directory ≡ Some Kind.Directory }
        requires there { IsSome (object self.old.world number) }
        requires plain { kind_of self.old.world number ≢ Some Kind.Directory }
        requires short { length name.now ≤ 255 }
        ensures refused { MatchOption (link_refusal self.old.world directory name.now number)
            (IsOkUnless result TreeFault.Memory) (λ fault. result ≡ Err fault) }
        ensures ok { OnOk result (self.new ≡
            record self.old { world = with_link self.old.world directory name.now number at }) }
        ensures err { OnErr result (self.new ≡ self.old) }
    {
        self.tree.link(directory, name, number, at)
    }

    /// As [`Tree::unlink`].
    pub fn unlink(&mut self, directory: u64, name: &[u8], at: At) -> Result<(), TreeFault>
        requires tick { IsTick self.old.world at.tick }
        ensures refused { MatchOption (unlink_refusal self.old.world directory name.now) (IsOk result)
            (λ fault. result ≡ Err fault) }
        ensures ok { OnOk result (self.new ≡
            record self.old { world = unlinked self.old.world directory name.now at }) }
        ensures err { OnErr result (self.new ≡ self.old) }
    {
        self.tree.unlink(directory, name, at)
    }

    /// As [`Tree::carry_out`].
    pub fn carry_out(&mut self, moved: Move<'_>, at: At) -> Result<(), TreeFault>
        requires tick { IsTick self.old.world at.tick }
        requires planned { IsMove self.old.world moved }
        ensures refused { MatchOption (space_refusal self.old.world moved.entry.from moved.entry.to moved.entry.target)
            (IsOkUnless result TreeFault.Memory) (λ fault. result ≡ Err fault) }
        ensures ok { OnOk result (self.new ≡ record self.old {
          world = renamed self.old.world moved.entry.from moved.entry.old moved.entry.to moved.entry.new at;
        }) }
        ensures err { OnErr result (self.new ≡ self.old) }
    {
        self.tree.carry_out(moved, at)
    }

    /// As [`Tree::write`].
    pub fn write(&mut self, file: u64, offset: u64, more: &[u8], at: At) -> Result<(), TreeFault>
        requires tick { IsTick self.old.world at.tick }
        requires file { kind_of self.old.world file ≡ Some Kind.File }
        ensures refused { MatchOption (write_refusal self.old.world.limits offset more.now) (IsOkUnless result TreeFault.Memory)
            (λ fault. result ≡ Err fault) }
        ensures nothing { more.now ≡ [] → IsOk result }
        ensures ok { OnOk result (self.new ≡
            record self.old { world = with_write self.old.world file offset more.now at }) }
        ensures err { OnErr result (self.new ≡ self.old) }
    {
        self.tree.write(file, offset, more, at)
    }

    /// As [`Tree::resize`].
    pub fn resize(&mut self, file: u64, size: u64, at: At) -> Result<(), TreeFault>
        requires tick { IsTick self.old.world at.tick }
        requires file { kind_of self.old.world file ≡ Some Kind.File }
        ensures refused { MatchOption (resize_refusal self.old.world.limits size) (IsOkUnless result TreeFault.Memory)
            (λ fault. result ≡ Err fault) }
        ensures shrinks { size ≤ length (bytes_of self.old.world file) → IsOk result }
        ensures ok { OnOk result (self.new ≡ record self.old { world = with_size self.old.world file size at }) }
        ensures err { OnErr result (self.new ≡ self.old) }
    {
        self.tree.resize(file, size, at)
    }

    /// As [`Tree::set_list`].
    pub fn set_list(&mut self, number: u64, list: AclList<A>, high: u32, at: At)
        requires tick { IsTick self.old.world at.tick }
        requires stamps { self.old.world.next_stamp < 2 ^ 63 }
        requires bounded { IsBounded list }
        ensures { self.new ≡ record self.old { world = with_list self.old.world number list high at } }
    {
        self.tree.set_list(number, list, high, at);
    }

    /// As [`Tree::set_owner`].
    pub fn set_owner(&mut self, number: u64, owner: u32, group: u32, at: At)
        requires tick { IsTick self.old.world at.tick }
        requires stamps { self.old.world.next_stamp < 2 ^ 63 }
        ensures { self.new ≡ record self.old { world = with_owner self.old.world number owner group at } }
    {
        self.tree.set_owner(number, owner, group, at);
    }

    /// As [`Tree::set_times`].
    pub fn set_times(&mut self, number: u64, access: Option<Moment>, modify: Option<Moment>, at: At)
        requires tick { IsTick self.old.world at.tick }
        ensures { self.new ≡ record self.old { world = with_times self.old.world number access modify at } }
    {
        self.tree.set_times(number, access, modify, at);
    }
}
