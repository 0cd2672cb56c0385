//! Laws of encodings: each is the contract of a function with an empty body.
ghost use Rattle.std.specs.Prelude.{◌≡◌, ◌++◌, ◌↔◌, ℕ, List, Ok, IsErr};
ghost use Rattle.xdr_wire.specs.Xdr.{Xdr, AreBytes, Value, HasSpelling, Spells, Begins, spelling};
ghost use Rattle.xdr_wire.specs.Reading.{read_at};

/// Reading returns a value if and only if the bytes begin with an encoding of it.
pub fn reading_is_spelling()
    ensures { (t : Xdr) (v : Value t) (bytes rest : List ℕ) → (read_at t bytes ≡ Ok (v, rest)) ↔ Begins t v bytes rest }
{}

/// Reading returns a fault if and only if no prefix of the bytes encodes a value.
pub fn fault_is_no_spelling()
    ensures { (t : Xdr) (bytes : List ℕ) →
        (IsErr (read_at t bytes)) ↔ ((v : Value t) (rest : List ℕ) → ¬ Begins t v bytes rest) }
{}

/// The bytes that are written encode the value.
pub fn writing_is_spelling()
    ensures { (t : Xdr) (v : Value t) → HasSpelling t v → Spells t v (spelling t v) }
{}

/// No encoding is a proper prefix of another, not even of another value's: if the same bytes begin with two, they are
/// equal.
pub fn one_spelling_at_a_prefix()
    ensures { (t : Xdr) (v w : Value t) (a b x y : List ℕ) → Spells t v a → Spells t w b → a ++ x ≡ b ++ y → (v ≡ w) ×
        (a ≡ b) }
{}

/// Among lists of bytes a value has one encoding, the one that is written.
pub fn a_value_has_one_spelling()
    ensures { (t : Xdr) (v : Value t) (bytes : List ℕ) → AreBytes bytes → Spells t v bytes → bytes ≡ spelling t v }
{}

/// The bytes that are written are read back as the value, whatever bytes follow.
pub fn what_is_written_is_read()
    ensures { (t : Xdr) (v : Value t) (rest : List ℕ) → HasSpelling t v →
        read_at t (spelling t v ++ rest) ≡ Ok (v, rest) }
{}
