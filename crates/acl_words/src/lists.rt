//! An access control list (ACL) as text: one text for each access control entry (ACE).
ghost use Rattle.std.specs.Prelude.{◌≡◌, map, Ok, MatchResult};
ghost use Rattle.acl_words.specs.Lists.{IsFault, list_in};

use crate::entries::read_entry;
use crate::field::Field;
use acl_list::{AclList, Kind};
use std::alloc::{AllocError, Allocator};
use thiserror::Error;
use who_book::Book;

/// Why an ACL can't be read.
#[derive(Clone, Copy, Debug, PartialEq, Eq, Error)]
pub enum AclFault {
    /// The first ACE that can't be read: its index from 0, and its first field that can't be read.
    #[error("entry {index}: {}", field.help())]
    Entry {
        /// The index of the ACE.
        index: usize,
        /// The field.
        field: Field,
    },
    /// The allocation of the ACL fails.
    #[error("memory")]
    Memory,
}

impl From<AllocError> for AclFault {
    ghost use Rattle.std.specs.Prelude.{◌≡◌};
    ghost use Rattle.acl_words.specs.declared.lists.AclFault.TheVariants.{Memory};

    ghost from_gives = { λ _ fault. fault ≡ Memory };

    fn from(_: AllocError) -> AclFault {
        AclFault::Memory
    }
}

/// Reads an ACL for an object of this type. Each text is one ACE, as [`read_entry`] reads it.
#[tactic(auto, using(crate::proofs::Listing::prefix_more))]
pub fn read_acl<A: Allocator>(
    alloc: A,
    book: &Book,
    object: Kind,
    texts: &[&[u8]],
) -> Result<AclList<A>, AclFault>
    ensures { MatchResult result
        (λ list. list_in object book.now (map (λ text. text.now) texts.now) ≡ Ok list)
        (IsFault (list_in object book.now (map (λ text. text.now) texts.now))) }
{
    let mut list = AclList::new(alloc);
    for (index, text) in texts.iter().enumerate() {
        match read_entry(book, object, text) {
            Ok(entry) => list.push(entry)?,
            Err(field) => return Err(AclFault::Entry { index, field }),
        }
    }
    Ok(list)
}
