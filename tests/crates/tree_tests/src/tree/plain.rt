//! A tree of a plain program: lists that are searched, and the bytes of a file in one row.

use crate::tree::acting::Outcome;
use crate::tree::acting::Outcome::{Done, Made, Refused};
use node_tree::TreeFault::{Exist, Inval, MLink, NoEnt, NotEmpty};
use std::alloc::{AllocError, Global};

/// A tick above those of all tests.
const LATEST: u64 = 1 << 32;

/// A name of two bytes.
pub type Label = [u8; 2];

/// An object. Its times are in seconds.
#[derive(Debug, Drop)]
pub struct Thing {
    pub number: u64,
    pub is_directory: bool,
    pub bytes: Vec<u8>,
    pub change: u64,
    pub modify: i64,
    pub metadata: i64,
    pub stamp: u64,
}

/// A child under a name in a directory.
#[derive(Clone, Copy, Debug, PartialEq, Eq)]
pub struct Named {
    pub cookie: u64,
    pub directory: u64,
    pub label: Label,
    pub child: u64,
}

/// Objects by rising number, and names by rising cookie.
#[derive(Debug, Drop)]
pub struct Plain {
    alloc: Global,
    pub things: Vec<Thing>,
    pub names: Vec<Named>,
    pub number: u64,
    pub tick: u64,
    pub stamp: u64,
    cookie: u64,
}

fn made(alloc: Global, number: u64, is_directory: bool, stamp: u64, tick: u64) -> Thing {
    Thing {
        number,
        is_directory,
        bytes: Vec::new(alloc),
        change: tick,
        modify: (tick % LATEST) as i64,
        metadata: (tick % LATEST) as i64,
        stamp,
    }
}

// Look-ups.
impl Plain {
    /// A root alone.
    pub fn new(alloc: Global) -> Result<Self, AllocError> {
        let mut things = Vec::new(alloc);
        let mut root = made(alloc, 1, true, 1, 1);
        root.modify = 0;
        root.metadata = 0;
        things.push(root)?;
        Ok(Plain {
            alloc,
            things,
            names: Vec::new(alloc),
            number: 2,
            tick: 2,
            stamp: 2,
            cookie: 3,
        })
    }

    fn place(&self, number: u64) -> Option<usize> {
        self.things.iter().position(|thing| thing.number == number)
    }

    pub fn thing(&self, number: u64) -> Option<&Thing> {
        self.things.get(self.place(number)?)
    }

    pub fn is_directory(&self, number: u64) -> bool {
        match self.thing(number) {
            Some(thing) => thing.is_directory,
            None => false,
        }
    }

    pub fn child(&self, directory: u64, label: Label) -> Option<u64> {
        for name in self.names.iter() {
            if name.directory == directory && name.label == label {
                return Some(name.child);
            }
        }
        None
    }

    pub fn links(&self, number: u64) -> usize {
        let mut count = 0usize;
        for name in self.names.iter() {
            if name.child == number {
                count = count.saturating_add(1);
            }
        }
        count
    }

    pub fn has_entries(&self, directory: u64) -> bool {
        self.names.iter().any(|name| name.directory == directory)
    }

    /// The parent of a directory.
    pub fn parent(&self, number: u64) -> Option<u64> {
        if !self.is_directory(number) {
            return None;
        }
        for name in self.names.iter() {
            if name.child == number {
                return Some(name.directory);
            }
        }
        None
    }

    /// Whether a directory is another one, or is below it.
    fn is_within(&self, directory: u64, number: u64) -> bool {
        let mut here = number;
        for _ in 0..self.number {
            if here == directory {
                return true;
            }
            let Some(parent) = self.parent(here) else {
                return false;
            };
            here = parent;
        }
        true
    }
}

// Changes.
impl Plain {
    fn now(&self) -> i64 {
        (self.tick % LATEST) as i64
    }

    fn touch(&mut self, number: u64) {
        let (tick, now) = (self.tick, self.now());
        let Some(place) = self.place(number) else {
            return;
        };
        if let Some(thing) = self.things.get_mut(place) {
            thing.change = tick;
            thing.modify = now;
            thing.metadata = now;
        }
    }

    fn retell(&mut self, number: u64) {
        let (tick, now) = (self.tick, self.now());
        let Some(place) = self.place(number) else {
            return;
        };
        if let Some(thing) = self.things.get_mut(place) {
            thing.change = tick;
            thing.metadata = now;
        }
    }

    fn put(&mut self, directory: u64, label: Label, child: u64) -> Result<(), AllocError> {
        self.names.push(Named {
            cookie: self.cookie,
            directory,
            label,
            child,
        })?;
        self.cookie = self.cookie.saturating_add(1);
        Ok(())
    }

    fn take(&mut self, directory: u64, label: Label) {
        for place in 0..self.names.len() {
            let Some(name) = self.names.get(place) else {
                return;
            };
            if name.directory == directory && name.label == label {
                self.names.remove(place);
                return;
            }
        }
    }

    /// An object has lost a name.
    fn release(&mut self, number: u64) {
        if self.links(number) > 0 {
            self.retell(number);
            return;
        }
        if let Some(place) = self.place(number) {
            if place < self.things.len() {
                self.things.remove(place);
            }
        }
    }

    fn end(&mut self) -> Outcome {
        self.tick = self.tick.saturating_add(1);
        Done
    }

    pub fn add(
        &mut self,
        directory: u64,
        label: Label,
        is_directory: bool,
    ) -> Result<Outcome, AllocError> {
        if self.child(directory, label).is_some() {
            return Ok(Refused(Exist));
        }
        let number = self.number;
        self.things.push(made(self.alloc, number, is_directory, self.stamp, self.tick))?;
        self.put(directory, label, number)?;
        self.touch(directory);
        self.number = number.saturating_add(1);
        self.stamp = self.stamp.saturating_add(1);
        self.end();
        Ok(Made(number))
    }

    pub fn link(
        &mut self,
        directory: u64,
        label: Label,
        number: u64,
    ) -> Result<Outcome, AllocError> {
        if self.child(directory, label).is_some() {
            return Ok(Refused(Exist));
        }
        if self.links(number) >= 1000 {
            return Ok(Refused(MLink));
        }
        self.put(directory, label, number)?;
        self.retell(number);
        self.touch(directory);
        Ok(self.end())
    }

    pub fn unlink(&mut self, directory: u64, label: Label) -> Outcome {
        let Some(child) = self.child(directory, label) else {
            return Refused(NoEnt);
        };
        if self.has_entries(child) {
            return Refused(NotEmpty);
        }
        self.take(directory, label);
        self.release(child);
        self.touch(directory);
        self.end()
    }

    /// Whether a child may take the name of a target.
    fn may_replace(&self, child: u64, target: u64) -> bool {
        if self.is_directory(child) {
            return self.is_directory(target) && !self.has_entries(target);
        }
        !self.is_directory(target)
    }

    pub fn rename(
        &mut self,
        from: u64,
        old: Label,
        to: u64,
        new: Label,
    ) -> Result<Outcome, AllocError> {
        let Some(child) = self.child(from, old) else {
            return Ok(Refused(NoEnt));
        };
        let target = self.child(to, new);
        if target == Some(child) {
            return Ok(Done);
        }
        if self.is_directory(child) && self.is_within(child, to) {
            return Ok(Refused(Inval));
        }
        if let Some(target) = target {
            if !self.may_replace(child, target) {
                return Ok(Refused(Exist));
            }
        }
        self.take(from, old);
        self.take(to, new);
        self.put(to, new, child)?;
        if let Some(target) = target {
            self.release(target);
        }
        self.retell(child);
        self.touch(from);
        self.touch(to);
        Ok(self.end())
    }

    /// Sets the size of a file, with zeros at its end if it grows.
    fn reach(&mut self, file: u64, size: usize) -> Result<(), AllocError> {
        let Some(place) = self.place(file) else {
            return Ok(());
        };
        if let Some(thing) = self.things.get_mut(place) {
            thing.bytes.resize(size, 0)?;
        }
        Ok(())
    }

    fn size(&self, file: u64) -> usize {
        match self.thing(file) {
            Some(thing) => thing.bytes.len(),
            None => 0,
        }
    }

    fn overwrite(&mut self, file: u64, offset: usize, more: &[u8]) {
        let Some(place) = self.place(file) else {
            return;
        };
        let Some(thing) = self.things.get_mut(place) else {
            return;
        };
        for (index, byte) in more.iter().enumerate() {
            if let Some(old) = thing.bytes.get_mut(offset.saturating_add(index)) {
                *old = *byte;
            }
        }
    }

    pub fn write(&mut self, file: u64, offset: usize, more: &[u8]) -> Result<Outcome, AllocError> {
        if more.is_empty() {
            return Ok(Done);
        }
        let end = offset.saturating_add(more.len());
        self.reach(file, self.size(file).max(end))?;
        self.overwrite(file, offset, more);
        self.touch(file);
        Ok(self.end())
    }

    pub fn resize(&mut self, file: u64, size: usize) -> Result<Outcome, AllocError> {
        self.reach(file, size)?;
        self.touch(file);
        Ok(self.end())
    }

    pub fn set_owner(&mut self, number: u64) -> Outcome {
        let stamp = self.stamp;
        let Some(place) = self.place(number) else {
            return Done;
        };
        if let Some(thing) = self.things.get_mut(place) {
            thing.stamp = stamp;
        }
        self.retell(number);
        self.stamp = stamp.saturating_add(1);
        self.end()
    }
}
