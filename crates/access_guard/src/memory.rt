//! The remembered summaries of access control lists (ACLs) for callers.
ghost use Rattle.std.specs.Prelude.{◌≡◌, ◌<◌, ◌≤◌, ◌^◌, ℕ, [], length, Some, IfOk, IsTrue};
ghost use Rattle.std.specs.Map.{lookup};
ghost use Rattle.std.specs.Map.Iter.{ShowsInOrder, deref_pair};
ghost use Rattle.std.specs.NonZero.{non_zero_usize_get};
ghost use Rattle.lru.specs.LruCache.{lru_cache, promoted};
ghost use Rattle.acl_list.specs.declared.answer.Summary.{Summary};
ghost use Rattle.node_tree.specs.Judged.{judged, judged_of};
ghost use Rattle.access_guard.specs.Asker.{member_of};
ghost use Rattle.access_guard.specs.Keys.{is_key};
ghost use Rattle.access_guard.specs.Lists.{sum_of, sum_at, entries_of};
ghost use Rattle.acl_shape.specs.declared.bounds.TheConstants.{MAX_ENTRIES};
ghost use Rattle.access_guard.specs.Lists as lists;
ghost use Rattle.access_guard.specs.Decisions.{decision};
ghost use Rattle.access_guard.specs.Lines.{lines};
ghost use Rattle.access_guard.specs.declared.decision.Decision.TheVariants.{Granted};
ghost use Rattle.access_guard.specs.Memory.{Agrees, LooksUp, LooksUpAt, LooksUpFor, examined_more, key_of};
ghost use Rattle.access_guard.specs.Memory.{grants_silently};
ghost use Rattle.access_guard.specs.Memory as specs;

use crate::asker::Asker;
use access_rows::Demand;
use acl_list::mask::{DELETE, DELETE_CHILD, WRITE_ATTRIBUTES, WRITE_DATA};
use acl_list::{Caller, Summary, summary};
use lru::{Iter, LruCache};
use node_tree::{Node, Tree};
use std::alloc::{AllocError, Allocator};
use std::hash::{Hash, Hasher, RandomState};
use std::marker::Model;
use std::num::NonZeroUsize;

/// The key of a remembered summary: book, ACL and caller.
#[derive(Clone, Copy)]
pub struct Key {
    /// The epoch of the book.
    pub epoch: u64,
    /// The stamp of the ACL. An object gets a new one whenever its ACL, its owner or its group may have changed. No two
    /// objects ever have the same one.
    pub stamp: u64,
    /// The caller as sent.
    pub caller: Caller,
}

impl PartialEq for Key {
    ghost use Rattle.std.specs.Cmp.Rules.{comparing};
    ghost use Rattle.std.proofs.Common.{rules};
    ghost use Rattle.access_guard.specs.Keys.{is_key};

    ghost eq = { is_key };

    ghost laws = { Prim.search (comparing, rules) };

    fn eq(&self, other: &Self) -> bool {
        self.epoch == other.epoch && self.stamp == other.stamp && self.caller == other.caller
    }
}

impl Eq for Key {
    ghost use Rattle.std.specs.Cmp.Rules.{comparing};
    ghost use Rattle.std.proofs.Common.{rules};

    ghost laws = { Prim.search (comparing, rules) };
}

/// Each number of a key but the epoch is hashed as a word of 64 bits, which a hasher takes faster than its bytes. The
/// epoch isn't hashed: few keys differ in it alone.
impl Hash for Key {
    ghost use Rattle.std.specs.Cmp.Rules.{hashing};
    ghost use Rattle.std.proofs.Common.{rules};
    ghost use Rattle.access_guard.specs.internal.Keys.{hashed};

    ghost hash_input = { hashed };

    ghost respects_eq = { Prim.search (hashing, rules) };

    fn hash<H: Hasher>(&self, state: &mut H) {
        state.write_u64(self.stamp);
        state.write_u64(self.caller.uid().into());
        state.write_u64(self.caller.gid().into());
        for group in self.caller.groups() {
            state.write_u64((*group).into());
        }
    }
}

/// An object's ACL, if the object exists, which a decision may walk. [`Summaries::open`] alone makes it, and counts its
/// access control entries (ACEs).
#[derive(Drop)]
pub(crate) struct Opened<'n, A: Allocator> {
    node: Option<&'n Node<A>>,
}

impl<'n, A: Allocator> Model for Opened<'n, A> {
    ghost use Rattle.std.specs.Prelude.{Option};
    ghost use Rattle.std.specs.Option.{option_copied, option_map};
    ghost use Rattle.node_tree.specs.Judged.{Judged, judged};

    ghost Value = { Option Judged };

    ghost view = { λ o. option_map judged (option_copied o.node) };
}

impl<'n, A: Allocator + Copy> Opened<'n, A> {
    ghost use Rattle.std.specs.Option.{option_copied, option_map};
    ghost use Rattle.node_tree.specs.Judged.{judged};

    /// The object.
    pub(crate) fn node(&self) -> Option<&'n Node<A>>
        ensures { option_map judged (option_copied result) ≡ self.now }
    {
        self.node
    }
}

/// The summaries of the ACLs that were looked up last, and the count of ACEs that were examined.
#[derive(Drop)]
pub(crate) struct Summaries<A: Allocator> {
    pairs: LruCache<Key, Summary, RandomState, A>,
    examined: u64,
}

impl<A: Allocator> Model for Summaries<A> {
    ghost use Rattle.access_guard.specs.Memory.{Memory};

    ghost Value = { Memory };

    ghost view = { λ m. record { capacity = m.pairs.cap; remembered = m.pairs.entries; examined = m.examined } };
}

impl<A: Allocator + Copy> Summaries<A> {
    /// Remembers no summary yet, and at most `capacity` summaries ever. `Err`: an allocation for them fails.
    pub(crate) fn new(
        alloc: A,
        capacity: NonZeroUsize,
        hasher: RandomState,
    ) -> Result<Self, AllocError>
        ensures { IfOk result
            (λ m. m ≡ record { capacity = non_zero_usize_get capacity; remembered = []; examined = 0 }) }
    {
        Ok(Summaries {
            pairs: LruCache::with_hasher(alloc, capacity, hasher)?,
            examined: 0,
        })
    }

    /// The summaries, the last one used first.
    pub(crate) fn iter(&self) -> Iter<'_, Key, Summary>
        ensures rest { result ≡ self.now.remembered }
        ensures runs { ShowsInOrder (deref_pair {K = Key} {X = Summary}) }
    {
        self.pairs.iter()
    }

    /// The number of ACEs that were examined. It stays at 2^64 - 1.
    pub(crate) fn examined(&self) -> u64
        ensures { result ≡ self.now.examined }
    {
        self.examined
    }

    /// Counts ACEs that are examined.
    fn examine(&mut self, entries: usize)
        ensures { self.new ≡ examined_more entries self.old }
    {
        self.examined = self.examined.saturating_add(entries as u64);
    }

    /// The remembered summary, which is the last one used from now on.
    fn recall(&mut self, key: &Key) -> Option<Summary>
        ensures sum { result ≡ lookup (is_key key.now) self.old.remembered }
        ensures used { self.new ≡ specs.used key.now self.old }
    {
        self.pairs.get(key).copied()
    }

    /// The summary of an object's ACL. It is computed if it isn't remembered.
    fn sum_of<B: Allocator + Copy>(&mut self, node: &Node<B>, asker: &mut Asker<'_>) -> Summary
        requires { (sum : Summary) → lookup (is_key (key_of (judged node.now) asker.old)) self.old.remembered ≡
            Some sum → sum ≡ sum_of (judged node.now) (member_of asker.old) }
        ensures sum { result ≡ sum_of (judged node.now) (member_of asker.old) }
        ensures looks_up { LooksUp (judged node.now) asker.old self.old self.new }
        ensures same { asker.new ≡ asker.old }
    {
        let key = Key {
            epoch: asker.epoch(),
            stamp: node.stamp(),
            caller: asker.sent(),
        };
        if let Some(sum) = self.recall(&key) {
            return sum;
        }
        let list = node.list();
        let sum = summary(list, node.owner(), node.group(), &asker.member());
        self.examine(list.len());
        let _ = self.pairs.put(key, sum);
        sum
    }

    /// The summary of the ACL of an object, if the object exists.
    pub(crate) fn sum_at<B: Allocator + Copy>(
        &mut self,
        object: u64,
        tree: &Tree<B>,
        asker: &mut Asker<'_>,
    ) -> Option<Summary>
        requires { Agrees self.old.remembered asker.old.book asker.old.epoch tree.now }
        ensures sum { result ≡ sum_at (judged_of tree.now) (member_of asker.old) object }
        ensures looks_up { LooksUpAt (judged_of tree.now) asker.old object self.old self.new }
        ensures agrees { Agrees self.new.remembered asker.old.book asker.old.epoch tree.now }
        ensures same { asker.new ≡ asker.old }
    {
        let node = tree.object(object)?;
        Some(self.sum_of(node, asker))
    }

    /// Whether summaries alone show that a demand is granted, and that no line is written.
    pub(crate) fn is_silent_grant<B: Allocator + Copy>(
        &mut self,
        demand: Demand,
        tree: &Tree<B>,
        asker: &mut Asker<'_>,
    ) -> bool
        requires { Agrees self.old.remembered asker.old.book asker.old.epoch tree.now }
        ensures exact { result ≡ grants_silently (judged_of tree.now) (member_of asker.old) demand }
        ensures granted { IsTrue result → decision (judged_of tree.now) (member_of asker.old) demand ≡ Granted }
        ensures silent { IsTrue result → (op : ℕ) → lines (judged_of tree.now) (member_of asker.old) op demand ≡ [] }
        ensures looks_up { LooksUpFor (judged_of tree.now) asker.old demand self.old self.new }
        ensures agrees { Agrees self.new.remembered asker.old.book asker.old.epoch tree.now }
        ensures same { asker.new ≡ asker.old }
    {
        match demand {
            Demand::Bits { object, mask } => is_silent_grant(
                self.sum_at(object, tree, asker),
                mask,
            ),
            Demand::Removal { parent, target } => {
                let on_target = self.sum_at(target, tree, asker);
                let on_parent = self.sum_at(parent, tree, asker);
                is_silent_removal(on_target, on_parent)
            }
            Demand::ServerTime { object } => is_silent_time(self.sum_at(object, tree, asker)),
        }
    }

    /// Lends an object's ACL to a decision that walks it. Its ACEs are counted here, so that none is examined
    /// uncounted.
    pub(crate) fn open<'n, B: Allocator + Copy>(
        &mut self,
        object: u64,
        tree: &'n Tree<B>,
    ) -> Opened<'n, B>
        ensures list { result ≡ judged_of tree.now object }
        ensures short { entries_of result ≤ MAX_ENTRIES }
        ensures counted { self.new ≡ examined_more (entries_of result) self.old }
    {
        let node = tree.object(object);
        self.examine(node.map_or(0, |node| node.list().len()));
        Opened { node }
    }
}

/// Whether an ACL with this summary grants each bit of the mask.
fn grants(sum: Summary, mask: u32) -> bool
    ensures { result ≡ lists.grants sum mask }
{
    mask & sum.granted == mask
}

/// Whether no ACE of an ACL with this summary watches a bit of the mask for success.
fn is_quiet(sum: Summary, mask: u32) -> bool
    ensures { result ≡ lists.is_quiet sum mask }
{
    mask & sum.watch_ok == 0
}

fn is_silent_grant(sum: Option<Summary>, mask: u32) -> bool
    ensures exact { result ≡ specs.is_silent_grant sum mask }
    ensures fits { mask < 2 ^ 32 }
{
    sum.is_some_and(|sum| grants(sum, mask) && is_quiet(sum, mask))
}

fn is_silent_removal(on_target: Option<Summary>, on_parent: Option<Summary>) -> bool
    ensures { result ≡ specs.is_silent_removal on_target on_parent }
{
    let (Some(on_target), Some(on_parent)) = (on_target, on_parent) else {
        return false;
    };
    let granted = grants(on_target, DELETE) || grants(on_parent, DELETE_CHILD);
    granted && is_quiet(on_target, DELETE) && is_quiet(on_parent, DELETE_CHILD)
}

fn is_silent_time(sum: Option<Summary>) -> bool
    ensures { result ≡ specs.is_silent_time sum }
{
    let Some(sum) = sum else {
        return false;
    };
    let bit = time_bit(sum);
    grants(sum, bit) && is_quiet(sum, bit)
}

/// WRITE_ATTRIBUTES if it is granted, else WRITE_DATA.
fn time_bit(sum: Summary) -> u32
    ensures { result ≡ specs.time_bit sum }
{
    if grants(sum, WRITE_ATTRIBUTES) {
        WRITE_ATTRIBUTES
    } else {
        WRITE_DATA
    }
}
