//! The lines that a guard writes.
ghost use Rattle.std.specs.Prelude.{◌≡◌, ◌+◌, ◌<◌, ◌≤◌, [], ◌∷◌, length, IfOk, IsTrue};
ghost use Rattle.std.specs.Map.Iter.{ShowsInOrder, deref};
ghost use Rattle.node_tree.specs.Judged.{judged};
ghost use Rattle.access_guard.specs.Lists.{entries_of};
ghost use Rattle.std.specs.List.{filter_map, enumerate_from};
ghost use Rattle.access_guard.specs.Decisions.{is_granted};
ghost use Rattle.access_guard.specs.Lines.{watch_line, lines_of, deny_lines};
ghost use Rattle.acl_shape.specs.declared.bounds.TheConstants.{MAX_ENTRIES};
ghost use Rattle.access_guard.specs.Lines as specs;
ghost use Rattle.access_guard.specs.Log.{held, no_lines, settled};

use crate::decision::{Cause, Decision};
use crate::line::{Line, LineKind};
use crate::memory::Opened;
use acl_list::{Caller, Entry, EntryKind, watched_bits};
use circular_buffer::{HeapCircularBuffer, Iter};
use node_tree::Node;
use std::alloc::{AllocError, Allocator};
use std::marker::Model;

/// The most lines that are held until an operation ends: those of RENAME. It has two demands of EXECUTE, two removals
/// and one demand on the target directory. They read seven access control lists (ACLs) of at most 64 access control
/// entries (ACEs). One DENY line follows.
pub const MOST_HELD: usize = 449;

/// The most lines that the trail keeps.
pub const MOST_KEPT: usize = 4096;

/// The bits demanded of one object, and whether the demand was granted.
#[derive(Clone, Copy)]
pub(crate) struct Asked {
    pub(crate) op: u32,
    pub(crate) object: u64,
    pub(crate) mask: u32,
    pub(crate) granted: bool,
}

/// The lines that are held until an operation ends, and the last lines of the operations before it.
#[derive(Drop)]
pub(crate) struct Trail<A: Allocator> {
    held: Vec<Line, A>,
    kept: HeapCircularBuffer<Line, A>,
    total: u64,
}

impl<A: Allocator> Model for Trail<A> {
    ghost use Rattle.std.specs.Prelude.{◌≡◌, ◌≤◌, vec_capacity};
    ghost use Rattle.access_guard.specs.Log.{Log};

    ghost Value = { Log };

    ghost view = { λ t. record { held = t.held.items; trail = t.kept.items; total = t.total } };

    ghost invariant = { λ t. (449 ≤ vec_capacity t.held) × (t.kept.capacity ≡ 4096) };
}

impl<A: Allocator + Copy> Trail<A> {
    /// No lines. `Err`: an allocation for later lines fails.
    pub(crate) fn new(alloc: A) -> Result<Self, AllocError>
        ensures { IfOk result (λ trail. trail ≡ record { held = []; trail = []; total = 0 }) }
    {
        Ok(Trail {
            held: Vec::with_capacity(alloc, MOST_HELD)?,
            kept: HeapCircularBuffer::with_capacity(alloc, MOST_KEPT)?,
            total: 0,
        })
    }

    /// The last lines, in order.
    pub(crate) fn lines(&self) -> Iter<'_, Line>
        ensures rest { result ≡ self.now.trail }
        ensures runs { ShowsInOrder (deref {X = Line}) }
    {
        self.kept.iter()
    }

    /// The count of all lines. It stays at 2^64 - 1.
    pub(crate) fn total(&self) -> u64
        ensures { result ≡ self.now.total }
    {
        self.total
    }

    /// Appends the held lines to the trail, or drops them.
    pub(crate) fn settle(&mut self, keep: bool)
        ensures { self.new ≡ settled keep self.old }
    {
        if keep {
            self.total = self.total.saturating_add(self.held.len() as u64);
            self.kept.extend_from_slice(self.held.as_slice());
        }
        self.held.clear();
    }

    /// Forgets all lines, and counts from 0 again. It allocates no memory.
    pub(crate) fn forget(&mut self)
        ensures { self.new ≡ no_lines }
    {
        self.settle(false);
        self.kept.clear();
        self.total = 0;
    }

    fn hold(&mut self, line: Line)
        requires { length self.old.held < MOST_HELD }
        ensures { self.new ≡ held (line ∷ []) self.old }
    {
        self.held.push_reserved(line);
    }

    /// Writes the lines of an object's ACEs that watch.
    pub(crate) fn watch<B: Allocator + Copy>(
        &mut self,
        asked: Asked,
        opened: &Opened<'_, B>,
        caller: &Caller,
    )
        requires room { length self.old.held + MAX_ENTRIES ≤ MOST_HELD }
        requires short { entries_of opened.now ≤ MAX_ENTRIES }
        ensures lines { self.new ≡ held (lines_of opened.now caller.now asked.op asked.granted asked.object asked.mask)
            self.old }
        ensures few { length self.new.held ≤ length self.old.held + MAX_ENTRIES }
    {
        if let Some(node) = opened.node() {
            self.watch_acl(asked, node, caller);
        }
    }

    fn watch_acl<B: Allocator + Copy>(&mut self, asked: Asked, node: &Node<B>, caller: &Caller)
        requires { length self.old.held + length node.now.list ≤ MOST_HELD }
        ensures lines { self.new ≡ held (filter_map
            (watch_line caller.now asked.op asked.object asked.mask asked.granted (judged node.now))
            (enumerate_from 0 node.now.list)) self.old }
        ensures few { length self.new.held ≤ length self.old.held + length node.now.list }
    {
        for (index, entry) in node.list().as_slice().iter().enumerate() {
            if let Some(line) = watch_line(asked, node, caller, index, entry) {
                self.hold(line);
            }
        }
    }

    /// Writes the line of a refusal. A grant has none.
    pub(crate) fn deny(&mut self, op: u32, decision: Decision, caller: &Caller)
        requires { length self.old.held < MOST_HELD }
        ensures lines { self.new ≡ held (deny_lines caller.now op decision) self.old }
        ensures granted { IsTrue (is_granted decision) → self.new ≡ self.old }
    {
        if let Decision::Refused {
            object,
            mask,
            cause,
        } = decision
        {
            self.hold(Line {
                kind: LineKind::Deny,
                uid: caller.uid(),
                op,
                object,
                mask,
                granted: false,
                cause,
            });
        }
    }
}

/// The line of the ACE at an index of the object's ACL, if it watches a bit that was demanded.
fn watch_line<B: Allocator + Copy>(
    asked: Asked,
    node: &Node<B>,
    caller: &Caller,
    index: usize,
    entry: &Entry,
) -> Option<Line>
    ensures { result ≡ specs.watch_line caller.now asked.op asked.object asked.mask asked.granted (judged node.now)
        (index, entry.now) }
{
    let kind = line_kind(entry.kind)?;
    let mask = watched_bits(
        entry,
        node.owner(),
        node.group(),
        caller,
        asked.granted,
        asked.mask,
    );
    if mask == 0 {
        return None;
    }
    Some(Line {
        kind,
        uid: caller.uid(),
        op: asked.op,
        object: asked.object,
        mask,
        granted: asked.granted,
        cause: Cause::ByEntry(index),
    })
}

fn line_kind(kind: EntryKind) -> Option<LineKind>
    ensures { result ≡ specs.line_kind kind }
{
    match kind {
        EntryKind::Audit => Some(LineKind::Audit),
        EntryKind::Alarm => Some(LineKind::Alarm),
        EntryKind::Allow | EntryKind::Deny => None,
    }
}
