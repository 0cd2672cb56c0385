//! Laws of entries: each is the contract of a function with an empty body.
ghost use Rattle.std.specs.Prelude.{◌≡◌, ◌≢◌, ◌∷◌, ◌++◌, [], ℕ, List, Some, None};
ghost use Rattle.std.specs.List.{flat_map, AllByRecursion};
ghost use Rattle.std.specs.Option.{option_map};
ghost use Rattle.xdr_wire.specs.Xdr.{AreBytes};
ghost use Rattle.log_entries.specs.Entries.{Entry, IsEntry, entry_bytes, entry_at, entries_in};

/// An entry that was written is read again, whatever bytes follow.
pub fn what_is_written_is_read()
    ensures { (e : Entry) (rest : List ℕ) → IsEntry e → entry_at (entry_bytes e ++ rest) ≡ Some (e, rest) }
{}

/// Entries that were written one after the other are read as these, in their order, and as no others.
pub fn all_that_is_written_is_read()
    ensures { (es : List Entry) → AllByRecursion IsEntry es → entries_in (flat_map entry_bytes es) ≡ Some es }
{}

/// An entry has one encoding among lists of bytes, the written one. An entry that was read can be written.
pub fn an_entry_has_one_spelling()
    ensures bytes { (e : Entry) (bytes rest : List ℕ) → AreBytes bytes → entry_at bytes ≡ Some (e, rest) →
        bytes ≡ entry_bytes e ++ rest }
    ensures fits { (e : Entry) (bytes rest : List ℕ) → AreBytes bytes → entry_at bytes ≡ Some (e, rest) → IsEntry e }
{}

/// The entries of a record have one encoding: its bytes are the written ones. The entries can be written.
pub fn a_record_has_one_spelling()
    ensures bytes { (es : List Entry) (bytes : List ℕ) → AreBytes bytes → entries_in bytes ≡ Some es →
        bytes ≡ flat_map entry_bytes es }
    ensures fits { (es : List Entry) (bytes : List ℕ) → AreBytes bytes → entries_in bytes ≡ Some es →
        AllByRecursion IsEntry es }
{}

/// All entries of a record are read by taking one after the other, from its start.
pub fn entries_are_read_in_turn()
    ensures end { entries_in [] ≡ Some [] }
    ensures more { (e : Entry) (bytes rest : List ℕ) → entry_at bytes ≡ Some (e, rest) →
        entries_in bytes ≡ option_map (λ es. e ∷ es) (entries_in rest) }
    ensures refused { (bytes : List ℕ) → bytes ≢ [] → entry_at bytes ≡ None → entries_in bytes ≡ None }
{}
