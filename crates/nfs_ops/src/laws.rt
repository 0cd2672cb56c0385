//! Laws of the forms: each is the contract of a function with an empty body.
ghost use Rattle.std.specs.Prelude.{◌≡◌, ◌≤◌, ◌↔◌, ◌++◌, ℕ, List, length, Ok, true};
ghost use Rattle.nfs_ops.specs.Items.{IsAtStart, ItemHasSpelling, ItemIsNormal, item_spelling};
ghost use Rattle.nfs_ops.specs.Results.{Outcome, outcome_item};
ghost use Rattle.nfs_ops.specs.Sizes.{most, carries_bytes, is_change, is_refusal, change_size, setattr_refused_size};
ghost use Rattle.nfs_ops.specs.ResultReading.{result_at};
ghost use Rattle.nfs_ops.specs.Readable.{IsResult};
ghost use Rattle.nfs_ops.specs.Operations.{Operation, op_item, is_built, next_at};
ghost use Rattle.nfs_ops.specs.Listing.{Judged, IsListing, listing};

/// An operation is read if and only if the bytes begin with an encoding of it, whatever follows.
pub fn reading_is_spelling()
    ensures { (o : Operation) (bytes rest : List ℕ) → is_built o ≡ true →
        (next_at bytes ≡ (o, rest)) ↔ IsAtStart (op_item o) bytes rest }
{}

/// An operation that is written is read back, whatever follows.
pub fn what_is_written_is_read()
    ensures { (o : Operation) (rest : List ℕ) → is_built o ≡ true → ItemHasSpelling (op_item o) →
        ItemIsNormal (op_item o) → next_at (item_spelling (op_item o) ++ rest) ≡ (o, rest) }
{}

/// Reading an operation doesn't depend on the bytes after it.
pub fn reading_looks_no_further()
    ensures { (o : Operation) (prefix rest other : List ℕ) → is_built o ≡ true → next_at (prefix ++ rest) ≡ (o, rest) →
        next_at (prefix ++ other) ≡ (o, other) }
{}

/// A result that the bytes begin with is read, whatever follows.
pub fn a_result_at_the_start_is_read()
    ensures { (o : Outcome) (bytes rest : List ℕ) → IsResult o → IsAtStart (outcome_item o) bytes rest →
        result_at bytes ≡ Ok (o, rest) }
{}

/// A result that is read has the number of a status, and the bytes begin with it.
pub fn a_result_that_is_read_is_at_the_start()
    ensures { (o : Outcome) (bytes rest : List ℕ) → result_at bytes ≡ Ok (o, rest) → IsResult o ×
        IsAtStart (outcome_item o) bytes rest }
{}

/// Reading a result doesn't depend on the bytes after it.
pub fn reading_a_result_looks_no_further()
    ensures { (o : Outcome) (prefix rest other : List ℕ) → result_at (prefix ++ rest) ≡ Ok (o, rest) →
        result_at (prefix ++ other) ≡ Ok (o, other) }
{}

/// A result that is written is read back, whatever follows.
pub fn a_written_result_is_read()
    ensures { (o : Outcome) (rest : List ℕ) → IsResult o → ItemHasSpelling (outcome_item o) →
        ItemIsNormal (outcome_item o) → result_at (item_spelling (outcome_item o) ++ rest) ≡ Ok (o, rest) }
{}

/// A result that is written has at most as many bytes as `most` gives it. That number is a constant beside its form, or
/// a function of the bytes that it carries.
pub fn results_are_bounded()
    ensures { (o : Outcome) → ItemHasSpelling (outcome_item o) → length (item_spelling (outcome_item o)) ≤ most o }
{}

/// For a GETATTR, READ, READDIR or READLINK that is OK, that number is exact.
pub fn sizes_of_carried_bytes_are_exact()
    ensures { (o : Outcome) → carries_bytes o ≡ true → length (item_spelling (outcome_item o)) ≡ most o }
{}

/// The result of an operation that can change the tree, and is OK, has at most 256 bytes.
pub fn changes_are_short()
    ensures { (o : Outcome) → is_change o ≡ true → most o ≤ change_size }
{}

/// A refusal has at most 12 bytes: its number, its status, and for SETATTR the count of a bitmap without words.
pub fn refusals_are_short()
    ensures { (o : Outcome) → is_refusal o ≡ true → most o ≤ setattr_refused_size }
{}

/// READDIR returns the longest prefix of the entries that fits, unless a judged entry is refused, or nothing fits.
pub fn a_listing_is_the_longest<R>()
    ensures { (limit : ℕ) (all : List (Judged R)) → IsListing limit all (listing limit all) }
{}
