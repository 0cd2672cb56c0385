//! The caller that a decision is for.
ghost use Rattle.std.specs.Prelude.{◌≡◌};
ghost use Rattle.access_guard.specs.Asker.{asker, member_of};

use acl_list::Caller;
use std::marker::Model;
use who_book::Book;

/// A caller under the book of an epoch. The caller by the book is looked up only when it is needed, and only once:
/// remembered summaries are found without it.
#[derive(Drop)]
pub(crate) struct Asker<'b> {
    book: &'b Book,
    epoch: u64,
    sent: &'b Caller,
    /// The caller by the book, once looked up.
    answer: Option<Caller>,
}

impl<'b> Model for Asker<'b> {
    ghost use Rattle.std.specs.Prelude.{◌≡◌, IfSome};
    ghost use Rattle.who_book.specs.Members.{member};
    ghost use Rattle.access_guard.specs.Asker.{Asker, asker};

    ghost Value = { Asker };

    ghost view = { λ a. asker a.book.now a.epoch a.sent.now };

    ghost invariant = { λ a. IfSome a.answer (λ caller. caller ≡ member a.book.now a.sent.now) };
}

impl<'b> Asker<'b> {
    /// The caller isn't looked up in the book yet.
    pub(crate) fn new(book: &'b Book, epoch: u64, sent: &'b Caller) -> Self
        ensures { result ≡ asker book.now epoch sent.now }
    {
        Asker {
            book,
            epoch,
            sent,
            answer: None,
        }
    }

    /// The epoch of the book.
    pub(crate) fn epoch(&self) -> u64
        ensures { result ≡ self.now.epoch }
    {
        self.epoch
    }

    /// The caller as sent.
    pub(crate) fn sent(&self) -> Caller
        ensures { result ≡ self.now.sent }
    {
        *self.sent
    }

    /// The caller by the book.
    pub(crate) fn member(&mut self) -> Caller
        ensures member { result ≡ member_of self.old }
        ensures same { self.new ≡ self.old }
    {
        if let Some(member) = self.answer {
            return member;
        }
        let member = self.book.member(self.sent);
        self.answer = Some(member);
        member
    }
}
