//! The guard.
ghost use Rattle.std.specs.Prelude.{◌≡◌, ℕ, ◌+◌, ◌≤◌, [], ◌++◌, length, IfOk, IsTrue};
ghost use Rattle.std.specs.Map.Iter.{ShowsInOrder, deref, deref_pair};
ghost use Rattle.std.specs.NonZero.{non_zero_usize_get};
ghost use Rattle.acl_list.specs.declared.answer.Summary.{Summary};
ghost use Rattle.access_guard.specs.declared.line.Line.{Line};
ghost use Rattle.access_guard.specs.declared.memory.Key.{Key};
ghost use Rattle.node_tree.specs.Judged.{judged_of};
ghost use Rattle.access_guard.specs.Asker.{asker};
ghost use Rattle.acl_shape.specs.declared.bounds.TheConstants.{MAX_ENTRIES};
ghost use Rattle.access_guard.specs.Lists.{entries_of, granted_at, verdict_of};
ghost use Rattle.access_guard.specs.Decisions.{answer, decision, is_granted};
ghost use Rattle.access_guard.specs.Lines.{deny_lines, lines, lines_of, most_lines};
ghost use Rattle.access_guard.specs.Log.{held, no_lines, settled};
ghost use Rattle.node_tree.specs.World.{World};
ghost use Rattle.who_book.specs.Content.{Content};
ghost use Rattle.who_book.specs.Members.{member};
ghost use Rattle.access_guard.specs.Memory.{Agrees, Decides, LooksUpAt, walked};
ghost use Rattle.access_guard.specs.State.{fresh};

use crate::asker::Asker;
use crate::deciding::{first_match_of, parent_mask, removal, time_mask, verdict_of};
use crate::decision::{Decision, answer};
use crate::line::Line;
use crate::memory::{Key, Opened, Summaries};
use crate::trail::{Asked, MOST_HELD, Trail};
use access_rows::Demand;
use acl_list::mask::{DELETE, DELETE_CHILD};
use acl_list::{Caller, Summary};
use node_tree::Tree;
use std::alloc::{AllocError, Allocator, Global};
use std::hash::RandomState;
use std::marker::Model;
use std::num::NonZeroUsize;
use who_book::Book;

/// Decides on demands, remembers summaries of access control lists (ACLs), and keeps the trail.
#[derive(Drop)]
pub struct Guard<A: Allocator = Global> {
    memory: Summaries<A>,
    trail: Trail<A>,
}

impl<A: Allocator> Model for Guard<A> {
    ghost use Rattle.access_guard.specs.State.{State};

    ghost Value = { State };

    ghost view = { λ g. record { memory = g.memory; log = g.trail } };
}

impl<A: Allocator + Copy> Guard<A> {
    /// A guard that has decided nothing. It remembers at most `capacity` summaries, and hashes their keys by `hasher`.
    /// It agrees with every tree and every book. `Err`: an allocation fails.
    pub fn new(alloc: A, capacity: NonZeroUsize, hasher: RandomState) -> Result<Self, AllocError>
        ensures value { IfOk result (λ guard. guard ≡ fresh (non_zero_usize_get capacity)) }
        ensures agrees { IfOk result (λ guard. (book : Content) (epoch : ℕ) (w : World) →
            Agrees guard.memory.remembered book epoch w) }
    {
        Ok(Guard {
            memory: Summaries::new(alloc, capacity, hasher)?,
            trail: Trail::new(alloc)?,
        })
    }

    /// Whether the current ACLs of the tree grant a demand to the caller by the book (RFC 8881, section 6.2.1). `epoch`
    /// is that of the book, and `op` the number of the operation. It needs no allocation.
    ///
    /// [`Demand::Bits`] is granted if the first matching access control entry (ACE) of each bit of the mask allows it.
    /// Otherwise the refusal names the first ACE that denies one, else the lowest bit that no ACE allows. An object
    /// that doesn't exist grants nothing.
    ///
    /// [`Demand::Removal`] is decided by this table (RFC 8881, section 6.2.1.3.2), by first matching ACEs. The rows are
    /// DELETE in the target's ACL, the columns DELETE_CHILD in the parent's.
    ///
    /// | | ALLOW | DENY | no match |
    /// |---|---|---|---|
    /// | ALLOW | granted | granted | granted |
    /// | DENY | granted | refused by the parent's DENY | refused by the target's DENY |
    /// | no match | granted | refused by the parent's DENY | as the parent's ACL decides ADD_FILE |
    ///
    /// [`Demand::ServerTime`] is decided as bits of a mask, with their lines (RFC 8881, section 6.2.1.3.1):
    ///
    /// | WRITE_ATTRIBUTES | WRITE_DATA (on a directory ADD_FILE) | The mask |
    /// |---|---|---|
    /// | granted | granted or not | WRITE_ATTRIBUTES |
    /// | not granted, also by a DENY ACE | granted | WRITE_DATA |
    /// | not granted | not granted | WRITE_ATTRIBUTES, which is refused |
    ///
    /// The lines are held until [`Guard::settle`]. Those of the AUDIT and ALARM ACEs that watch come first, ACE by ACE.
    /// Of a removal these are the target's with DELETE, then the parent's with DELETE_CHILD. The parent's have ADD_FILE
    /// too if no ACE matches DELETE and none DELETE_CHILD. On refusal the DENY line follows. A grant has at most one
    /// line for each ACE of the ACLs that it reads: 128 of [`Demand::Removal`], and 64 of the others.
    ///
    /// Summaries of ACLs are remembered by epoch, stamp and caller as sent, unless an allocation fails. Decision and
    /// lines are the same then. Each object is looked up once, of a removal the target first. If remembered summaries
    /// show that the demand is granted and that no ACE watches it, no ACL is walked. They never show that of a removal
    /// by ADD_FILE.
    pub fn decide<B: Allocator + Copy>(
        &mut self,
        demand: Demand,
        tree: &Tree<B>,
        book: &Book,
        epoch: u64,
        caller: &Caller,
        op: u32,
    ) -> Decision
        requires agrees { Agrees self.old.memory.remembered book.now epoch tree.now }
        requires room { length self.old.log.held + most_lines demand ≤ MOST_HELD }
        ensures decision { result ≡ decision (judged_of tree.now) (member book.now caller.now) demand }
        ensures lines { self.new.log ≡ held (lines (judged_of tree.now) (member book.now caller.now) op demand)
            self.old.log }
        ensures few { IsTrue (is_granted result) →
            length self.new.log.held + 1 ≤ length self.old.log.held + most_lines demand }
        ensures memory { Decides (judged_of tree.now) (asker book.now epoch caller.now) demand self.old.memory
            self.new.memory }
        ensures agrees { Agrees self.new.memory.remembered book.now epoch tree.now }
    {
        let mut asker = Asker::new(book, epoch, caller);
        if self.memory.is_silent_grant(demand, tree, &mut asker) {
            return Decision::Granted;
        }
        self.decide_by_lists(demand, tree, &asker.member(), op)
    }

    /// The decision on a demand by its ACLs, which are walked and counted, with its lines.
    fn decide_by_lists<B: Allocator + Copy>(
        &mut self,
        demand: Demand,
        tree: &Tree<B>,
        caller: &Caller,
        op: u32,
    ) -> Decision
        requires { length self.old.log.held + most_lines demand ≤ MOST_HELD }
        ensures decision { result ≡ decision (judged_of tree.now) caller.now demand }
        ensures lines { self.new.log ≡ held (lines (judged_of tree.now) caller.now op demand) self.old.log }
        ensures few { IsTrue (is_granted result) →
            length self.new.log.held + 1 ≤ length self.old.log.held + most_lines demand }
        ensures counted { self.new.memory ≡ walked (judged_of tree.now) demand self.old.memory }
    {
        match demand {
            Demand::Bits { object, mask } => self.decide_bits(object, mask, tree, caller, op),
            Demand::Removal { parent, target } => {
                self.decide_removal(parent, target, tree, caller, op)
            }
            Demand::ServerTime { object } => self.decide_server_time(object, tree, caller, op),
        }
    }

    fn decide_bits<B: Allocator + Copy>(
        &mut self,
        object: u64,
        mask: u32,
        tree: &Tree<B>,
        caller: &Caller,
        op: u32,
    ) -> Decision
        requires { length self.old.log.held + most_lines (Demand.Bits object mask) ≤ MOST_HELD }
        ensures decision { result ≡ decision (judged_of tree.now) caller.now (Demand.Bits object mask) }
        ensures lines { self.new.log ≡ held (lines (judged_of tree.now) caller.now op (Demand.Bits object mask))
            self.old.log }
        ensures few { IsTrue (is_granted result) →
            length self.new.log.held + 1 ≤ length self.old.log.held + most_lines (Demand.Bits object mask) }
        ensures counted { self.new.memory ≡ walked (judged_of tree.now) (Demand.Bits object mask) self.old.memory }
    {
        let opened = self.memory.open(object, tree);
        self.decide_opened(object, mask, &opened, caller, op)
    }

    fn decide_server_time<B: Allocator + Copy>(
        &mut self,
        object: u64,
        tree: &Tree<B>,
        caller: &Caller,
        op: u32,
    ) -> Decision
        requires { length self.old.log.held + most_lines (Demand.ServerTime object) ≤ MOST_HELD }
        ensures decision { result ≡ decision (judged_of tree.now) caller.now (Demand.ServerTime object) }
        ensures lines { self.new.log ≡ held (lines (judged_of tree.now) caller.now op (Demand.ServerTime object))
            self.old.log }
        ensures few { IsTrue (is_granted result) →
            length self.new.log.held + 1 ≤ length self.old.log.held + most_lines (Demand.ServerTime object) }
        ensures counted { self.new.memory ≡ walked (judged_of tree.now) (Demand.ServerTime object) self.old.memory }
    {
        let opened = self.memory.open(object, tree);
        let mask = time_mask(&opened, caller);
        self.decide_opened(object, mask, &opened, caller, op)
    }

    /// The decision on bits of an object by its ACL, which is counted, with its lines.
    fn decide_opened<B: Allocator + Copy>(
        &mut self,
        object: u64,
        mask: u32,
        opened: &Opened<'_, B>,
        caller: &Caller,
        op: u32,
    ) -> Decision
        requires room { length self.old.log.held + MAX_ENTRIES + 1 ≤ MOST_HELD }
        requires short { entries_of opened.now ≤ MAX_ENTRIES }
        ensures decision { result ≡ answer object mask (verdict_of opened.now caller.now mask) }
        ensures lines { self.new.log ≡ held
            (lines_of opened.now caller.now op (is_granted result) object mask ++ deny_lines caller.now op result)
            self.old.log }
        ensures few { IsTrue (is_granted result) →
            length self.new.log.held ≤ length self.old.log.held + MAX_ENTRIES }
        ensures memory { self.new.memory ≡ self.old.memory }
    {
        let decision = answer(object, mask, verdict_of(opened, caller, mask));
        let granted = decision.is_granted();
        let of_object = Asked {
            op,
            object,
            mask,
            granted,
        };
        self.trail.watch(of_object, opened, caller);
        self.trail.deny(op, decision, caller);
        decision
    }

    fn decide_removal<B: Allocator + Copy>(
        &mut self,
        parent: u64,
        target: u64,
        tree: &Tree<B>,
        caller: &Caller,
        op: u32,
    ) -> Decision
        requires { length self.old.log.held + most_lines (Demand.Removal parent target) ≤ MOST_HELD }
        ensures decision { result ≡ decision (judged_of tree.now) caller.now (Demand.Removal parent target) }
        ensures lines { self.new.log ≡ held (lines (judged_of tree.now) caller.now op (Demand.Removal parent target))
            self.old.log }
        ensures few { IsTrue (is_granted result) →
            length self.new.log.held + 1 ≤ length self.old.log.held + most_lines (Demand.Removal parent target) }
        ensures counted { self.new.memory ≡ walked (judged_of tree.now) (Demand.Removal parent target) self.old.memory }
    {
        let opened_target = self.memory.open(target, tree);
        let opened_parent = self.memory.open(parent, tree);
        let on_target = first_match_of(&opened_target, caller, DELETE);
        let on_parent = first_match_of(&opened_parent, caller, DELETE_CHILD);
        let decision = removal(&opened_parent, caller, parent, target, on_target, on_parent);
        let granted = decision.is_granted();
        let of_target = Asked {
            op,
            object: target,
            mask: DELETE,
            granted,
        };
        let of_parent = Asked {
            op,
            object: parent,
            mask: parent_mask(on_target, on_parent),
            granted,
        };
        self.trail.watch(of_target, &opened_target, caller);
        self.trail.watch(of_parent, &opened_parent, caller);
        self.trail.deny(op, decision, caller);
        decision
    }

    /// The mask bits that an object's ACL grants the caller by the book, of all 32: none if the object doesn't exist.
    /// No line is written. The object is looked up once, as in [`Guard::decide`].
    pub fn grants<B: Allocator + Copy>(
        &mut self,
        object: u64,
        tree: &Tree<B>,
        book: &Book,
        epoch: u64,
        caller: &Caller,
    ) -> u32
        requires { Agrees self.old.memory.remembered book.now epoch tree.now }
        ensures mask { result ≡ granted_at (judged_of tree.now) (member book.now caller.now) object }
        ensures memory { LooksUpAt (judged_of tree.now) (asker book.now epoch caller.now) object self.old.memory
            self.new.memory }
        ensures agrees { Agrees self.new.memory.remembered book.now epoch tree.now }
        ensures log { self.new.log ≡ self.old.log }
    {
        self.memory
            .sum_at(object, tree, &mut Asker::new(book, epoch, caller))
            .map_or(0, |sum| sum.granted)
    }

    /// The summaries that are remembered, the last one used first.
    pub fn remembered(&self) -> lru::Iter<'_, Key, Summary>
        ensures rest { result ≡ self.now.memory.remembered }
        ensures runs { ShowsInOrder (deref_pair {K = Key} {X = Summary}) }
    {
        self.memory.iter()
    }

    /// The number of ACEs that were examined. It stays at 2^64 - 1. An ACL counts in full if a look-up doesn't find its
    /// summary, and once more if a decision walks it.
    pub fn examined(&self) -> u64
        ensures { result ≡ self.now.memory.examined }
    {
        self.memory.examined()
    }

    /// The last lines, at most [`crate::MOST_KEPT`], in the order in which they were written.
    pub fn trail(&self) -> circular_buffer::Iter<'_, Line>
        ensures rest { result ≡ self.now.log.trail }
        ensures runs { ShowsInOrder (deref {X = Line}) }
    {
        self.trail.lines()
    }

    /// The count of all lines of the trail. It stays at 2^64 - 1.
    pub fn total(&self) -> u64
        ensures { result ≡ self.now.log.total }
    {
        self.trail.total()
    }

    /// Ends an operation: its lines are appended to the trail in their order, or dropped. It allocates no memory.
    pub fn settle(&mut self, keep: bool)
        ensures { self.new ≡ record self.old { log = settled keep self.old.log } }
    {
        self.trail.settle(keep);
    }

    /// Forgets all lines, and counts from 0 again, as after a start. It allocates no memory.
    pub fn forget(&mut self)
        ensures { self.new ≡ record self.old { log = no_lines } }
    {
        self.trail.forget();
    }
}
