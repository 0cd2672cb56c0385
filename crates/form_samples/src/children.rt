//! Names in a slice: the directory of the tests of READDIR.
use nfs_ops::{Bytes, Entries, GivenEntry, Next, write_entry};
use nfs_types::{Bitmap, GivenAttributes, ObjectFacts};
use std::alloc::Allocator;
use who_book::Book;
use xdr_wire::Writer;

/// A name as it is judged.
#[derive(Clone, Copy)]
pub struct Child {
    pub cookie: u64,
    pub name: Bytes<'static>,
    /// The attributes that are returned for its object, or the fault that refuses it.
    pub judged: Result<Bitmap, u32>,
}

/// Names by rising cookie, whose objects have the same facts.
#[derive(Clone, Copy)]
pub struct Children<'a> {
    pub book: &'a Book,
    pub facts: &'a ObjectFacts<'a>,
    pub left: &'a [Child],
}

impl<'a> Entries for Children<'a> {
    ghost use Rattle.who_book.specs.Content.{Content};
    ghost use Rattle.std.specs.Prelude.{map};
    ghost use Rattle.nfs_types.specs.FactsView.{facts_value};
    ghost use Rattle.form_samples.specs.internal.Children.{judged_as};
    ghost use Rattle.form_samples.specs.declared.children.Child.{Child};

    type Refusal = u32;

    ghost left = { λ c.
        map (λ (k : Child). judged_as c.book.now (facts_value c.facts.now) k.cookie k.name.bytes.now k.judged)
        c.left.now };

    ghost Kept = { Content };

    ghost kept = { λ c. c.book.now };

    fn write_next<A: Allocator>(&mut self, writer: &mut Writer<A>) -> Next<u32> {
        let Children { book, facts, left } = *self;
        let Some((child, rest)) = left.split_first() else {
            return Next::End;
        };
        let asked = match child.judged {
            Ok(asked) => asked,
            Err(refusal) => return Next::Refused(refusal),
        };
        let attributes = GivenAttributes { book, facts, asked };
        let given = GivenEntry {
            cookie: child.cookie,
            name: child.name,
            attributes,
        };
        match write_entry(given, writer) {
            Ok(()) => {
                *self = Children {
                    book,
                    facts,
                    left: rest,
                };
                Next::Written
            }
            Err(_) => Next::Full,
        }
    }
}
