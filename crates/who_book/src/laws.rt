//! Laws that follow from the definitions alone.
ghost use Rattle.std.specs.Prelude.{◌≡◌, ◌↔◌, ℕ, List, Some};
ghost use Rattle.acl_list.specs.declared.entry.Who.{Who};
ghost use Rattle.who_book.specs.Content.{Content, IsBook, table_of};
ghost use Rattle.who_book.specs.Names.{name_at, number_at};
ghost use Rattle.who_book.specs.Spelling.{principal_in, principal_text, ace_principal_in, ace_principal_text, Spells};
ghost use Rattle.who_book.specs.Spelling.{SpellsPrincipal, IsUnder};
ghost use Rattle.who_book.specs.declared.kind.NameKind.{NameKind};

/// In each book a name has a number if and only if the number has that name.
#[tactic(auto, using(crate::proofs::Agreeing::agree))]
pub fn names_and_numbers_agree()
    ensures { (book : Content) (kind : NameKind) (name : List ℕ) (number : ℕ) → IsBook book →
        (number_at name (table_of kind book) ≡ Some number) ↔ (name_at number (table_of kind book) ≡ Some name) }
{}

/// A text is read as a number if and only if it is its decimal digits, or its full name if it has a name.
pub fn texts_are_spellings()
    ensures { (kind : NameKind) (book : Content) (text : List ℕ) (number : ℕ) → IsBook book →
        (principal_in kind book text ≡ Some number) ↔ Spells kind book text number }
{}

/// The text that is written for a principal is read as that principal.
#[tactic(auto, using(crate::proofs::Spelled::principal_read_back))]
pub fn written_is_read()
    ensures { (flags : ℕ) (book : Content) (who : Who) → IsBook book → IsUnder flags who →
        ace_principal_in flags book (ace_principal_text book who) ≡ Some who }
{}

/// Under the flags of an access control entry (ACE), exactly these texts are read as a principal: its special
/// identifier, or the spellings of its user or group.
pub fn principal_texts_are_spellings()
    ensures { (flags : ℕ) (book : Content) (text : List ℕ) (who : Who) → IsBook book →
        (ace_principal_in flags book text ≡ Some who) ↔ SpellsPrincipal flags book text who }
{}
