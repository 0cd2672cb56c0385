//! The demands of operations on access control lists (ACLs).
ghost use Rattle.std.specs.Prelude.{◌≡◌, ◌+◌, ◌*◌, ◌<◌, ◌≤◌, [], length, true};
ghost use Rattle.acl_shape.specs.declared.bounds.TheConstants.{MAX_ENTRIES};
ghost use Rattle.node_tree.specs.World.{bytes_of};
ghost use Rattle.access_rows.specs.Rows.{lists_in};
ghost use Rattle.compound_run.specs.Asking.{grants_all, asked, op_number, first_of, opening_of, sized_of, second_of};
ghost use Rattle.compound_run.specs.Asking.{sight_of};
ghost use Rattle.compound_run.specs.Rows as specs;

use crate::realm::Realm;
use crate::step::Step;
use access_guard::{Demand, MOST_HELD};
use access_rows::{Clock, First, Object, Second, first_demands, second_demands};
use nfs_ops::Op;
use rpc_record::Caller;
use std::alloc::Allocator;

impl<A: Allocator + Copy> Realm<A> {
    /// The object of a number, if it exists.
    fn object(&self, number: Option<u64>) -> Option<Object>
        ensures { result ≡ specs.object_of (sight_of self.now) number }
    {
        let number = number?;
        let node = self.tree.object(number)?;
        Some(Object {
            number,
            kind: node.kind(),
        })
    }

    /// The byte count of a file, or of the text of a symbolic link; 0 if it doesn't exist.
    pub fn size(&self, number: u64) -> u64
        ensures { result ≡ length (bytes_of self.now.tree.world number) }
    {
        match self.tree.object(number) {
            Some(node) => node.size(),
            None => 0,
        }
    }

    /// Whether the ACLs grant the first demands of an operation, before it looks up a name. Its lines are held.
    pub fn grants_first(&mut self, step: Step<'_>, op: &Op<'_>) -> bool
        requires { self.old.tree.log.held ≡ [] }
        ensures answer { result ≡ grants_all self.old step.entry.context.caller.now
            (first_of self.old op.now step.entry.handles) }
        ensures state { self.new ≡ asked self.old step.entry.context.caller.now (op_number op.now)
            (first_of self.old op.now step.entry.handles) }
        ensures few { result ≡ true → length self.new.tree.log.held ≤ specs.MAX_FIRST_LINES }
    {
        let handles = step.handles;
        let facts = First::of(self.object(handles.current), self.object(handles.saved));
        self.grants(&first_demands(op, &facts), step.context.caller, op.number())
    }

    /// Whether the ACLs grant an operation's first demands by the size of the current object, the new size
    /// and whose time is set. Its lines are held.
    pub fn grants_sized(
        &mut self,
        step: Step<'_>,
        op: &Op<'_>,
        new_size: Option<u64>,
        clock: Option<Clock>,
    ) -> bool
        requires { self.old.tree.log.held ≡ [] }
        ensures answer { result ≡ grants_all self.old step.entry.context.caller.now
            (sized_of self.old op.now step.entry.handles new_size clock) }
        ensures state { self.new ≡ asked self.old step.entry.context.caller.now (op_number op.now)
            (sized_of self.old op.now step.entry.handles new_size clock) }
        ensures few { result ≡ true → length self.new.tree.log.held ≤ specs.MAX_FIRST_LINES }
    {
        let handles = step.handles;
        let size = match handles.current {
            Some(number) => Some(self.size(number)),
            None => None,
        };
        let facts = First {
            current: self.object(handles.current),
            saved: self.object(handles.saved),
            size,
            new_size,
            clock,
        };
        self.grants(&first_demands(op, &facts), step.context.caller, op.number())
    }

    /// Whether the ACLs grant the demands of an operation after it has looked up its names. These are the child of the
    /// name, and the target of the new name of a RENAME. Its lines are held.
    pub fn grants_second(
        &mut self,
        step: Step<'_>,
        op: &Op<'_>,
        child: Option<u64>,
        replaced: Option<u64>,
    ) -> bool
        requires { length self.old.tree.log.held ≤ specs.MAX_FIRST_LINES }
        ensures answer { result ≡ grants_all self.old step.entry.context.caller.now
            (second_of self.old op.now step.entry.handles child replaced) }
        ensures state { self.new ≡ asked self.old step.entry.context.caller.now (op_number op.now)
            (second_of self.old op.now step.entry.handles child replaced) }
    {
        let handles = step.handles;
        let facts = Second {
            current: self.object(handles.current),
            saved: self.object(handles.saved),
            child: self.object(child),
            replaced: self.object(replaced),
            new_size: None,
        };
        self.grants(
            &second_demands(op, &facts),
            step.context.caller,
            op.number(),
        )
    }

    /// Whether the ACLs grant the demands of OPEN on the existing file, if any, and by the new size. Its lines are
    /// held.
    pub fn grants_opening(
        &mut self,
        step: Step<'_>,
        op: &Op<'_>,
        file: Option<u64>,
        new_size: Option<u64>,
    ) -> bool
        requires { length self.old.tree.log.held ≤ specs.MAX_FIRST_LINES }
        ensures answer { result ≡ grants_all self.old step.entry.context.caller.now
            (opening_of self.old op.now step.entry.handles file new_size) }
        ensures state { self.new ≡ asked self.old step.entry.context.caller.now (op_number op.now)
            (opening_of self.old op.now step.entry.handles file new_size) }
    {
        let handles = step.handles;
        let facts = Second {
            current: self.object(handles.current),
            saved: self.object(handles.saved),
            child: self.object(file),
            replaced: None,
            new_size,
        };
        self.grants(
            &second_demands(op, &facts),
            step.context.caller,
            op.number(),
        )
    }

    /// Whether the ACLs grant each demand that is present. None is decided after a refused one. Their lines are held.
    pub fn grants(&mut self, demands: &[Option<Demand>], caller: &Caller, op: u32) -> bool
        requires { length self.old.tree.log.held + MAX_ENTRIES * lists_in demands.now < MOST_HELD }
        ensures answer { result ≡ grants_all self.old caller.now demands.now }
        ensures state { self.new ≡ asked self.old caller.now op demands.now }
        ensures few { result ≡ true → length self.new.tree.log.held ≤
            length self.old.tree.log.held + MAX_ENTRIES * lists_in demands.now }
    {
        for demand in demands {
            let Some(demand) = *demand else {
                continue;
            };
            if !self.tree.decide(demand, caller, op).is_granted() {
                return false;
            }
        }
        true
    }
}
