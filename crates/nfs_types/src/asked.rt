//! The access control entries (ACEs) of an access control list (ACL), or of a part of one, as they are sent.
ghost use Rattle.std.specs.Prelude.{◌≡◌, ◌<◌, ◌≤◌, length, map, take, None, IfSome};
ghost use Rattle.xdr_wire.specs.Wire.{array_values};
ghost use Rattle.nfs_types.specs.AceView.{ace_value};
ghost use Rattle.nfs_types.specs.Attributes.{ace};
ghost use Rattle.nfs_types.specs.Sent as specs;

use crate::ace::Ace;
use acl_shape::{MAX_KEPT, Raw};
use who_book::Book;
use xdr_wire::Array;

/// ACEs with their principals looked up, at most as many as may be set.
#[derive(Clone, Copy)]
pub(crate) struct Asked {
    raws: [Raw; MAX_KEPT],
    count: usize,
    ghost whole: { length raws ≡ 59 },
    ghost few: { count ≤ 59 },
}

/// An ACE that was sent, with its principal looked up.
fn raw_of(book: &Book, ace: &Ace<'_>) -> Raw
    ensures { result ≡ specs.raw_of book.now (ace_value ace.now) }
{
    Raw {
        kind: ace.kind,
        flags: ace.flags,
        mask: ace.mask,
        who: book.who(ace.flags, ace.who.bytes),
    }
}

/// Puts the ACEs into `raws`, which has enough places, and returns their number.
fn fill<'a>(book: &Book, entries: Array<'a, Ace<'a>, 0xffff_ffff>, raws: &mut [Raw]) -> usize
    requires { length (array_values ace None entries.count entries.bytes.now) ≤ length raws.old }
    ensures count { result ≤ length raws.new }
    ensures raws { take result raws.new ≡ map (specs.raw_of book.now)
        (array_values ace None entries.entry.count entries.entry.bytes.now) }
{
    let mut left = entries;
    let mut count = 0;
    while let Some(entry) = left.next() {
        raws[count] = raw_of(book, &entry);
        count += 1;
    }
    count
}

impl Asked {
    /// The ACEs that were sent, with their principals looked up. `None`: they are more than may be set, and none is
    /// examined.
    pub fn of<'a>(book: &Book, entries: Array<'a, Ace<'a>, 0xffff_ffff>) -> Option<Self>
        ensures some { IfSome result (λ asked. take asked.count asked.raws ≡
            map (specs.raw_of book.now) (array_values ace None entries.entry.count entries.entry.bytes.now)) }
        ensures none { result ≡ None → 59 <
            length (map (specs.raw_of book.now) (array_values ace None entries.entry.count entries.entry.bytes.now)) }
    {
        if entries.len() > MAX_KEPT {
            return None;
        }
        let mut raws = [Raw {
            kind: 0,
            flags: 0,
            mask: 0,
            who: None,
        }; MAX_KEPT];
        let count = fill(book, entries, &mut raws);
        Some(Asked { raws, count })
    }

    /// The ACEs.
    pub fn as_slice(&self) -> &[Raw]
        ensures { result.now ≡ take self.now.count self.now.raws }
    {
        &self.raws[..self.count]
    }
}
