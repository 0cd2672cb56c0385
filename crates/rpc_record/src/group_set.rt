//! A set of groups of bounded size.
ghost use Rattle.std.specs.Prelude.{◌≡◌, ◌+◌, ◌-◌, ◌≤◌, ◌<◌, ◌==◌, [], length, take, drop, insert, nat_eq};
ghost use Rattle.std.specs.List.Sorted.{IsStrictlyIncreasing};
ghost use Rattle.std.specs.Cmp.{partial_equiv_from_equiv};
ghost use Rattle.std.specs.Cmp.Lexicographic.{pointwise, nat_list_eq_equiv};
ghost use Rattle.std.specs.Cmp.Rules.{hashing};
ghost use Rattle.std.specs.Hash as fed;
ghost use Rattle.std.proofs.Common.{rules};
ghost use Rattle.rpc_record.specs.Identity.{has_group, with_group};

use std::fmt;
use std::hash::{Hash, Hasher};
use std::marker::Model;

/// The largest number of groups in a set, which is that of a caller. A credential has a gid and up to 16 further groups
/// (RFC 5531, appendix A).
pub const MOST_GROUPS: usize = 17;

/// A set of at most 17 groups. It allocates nothing. Two sets are equal if they have the same groups, in whatever order
/// these were inserted.
#[derive(Clone, Copy)]
pub struct GroupSet {
    // the groups by rising number, and zeros after them
    places: [u32; MOST_GROUPS],
    len: usize,
}

impl Model for GroupSet {
    ghost use Rattle.std.specs.Prelude.{◌≡◌, ℕ, ◌-◌, ◌≤◌, ◌++◌, List, length, take, drop, replicate};
    ghost use Rattle.std.specs.List.Sorted.{IsStrictlyIncreasing};
    ghost use Rattle.std.proofs.Common.{arith, length-take-le, take-append-drop, sym, ap, ◌∙◌};

    ghost Value = { List ℕ };

    ghost view = { λ r. take r.len r.places };

    ghost invariant = { λ r. record {
      few : r.len ≤ 17;
      whole : length r.places ≡ 17;
      zeros : drop r.len r.places ≡ replicate (17 - r.len) 0;
      rising : IsStrictlyIncreasing (take r.len r.places);
    } };

    ghost inverse = { λ groups. record { places = groups ++ replicate (17 - length groups) 0; len = length groups } };

    ghost inverse_ok = { λ r h i. let held = length-take-le r.len r.places (omega (arith, h.few, h.whole)) in record {
      places =
          (ap (λ (n : ℕ). take r.len r.places ++ replicate (17 - n) 0) held
          ∙ ap (λ (zeros : List ℕ). take r.len r.places ++ zeros) (sym h.zeros)
          ∙ take-append-drop r.len r.places) i;
      len = held i;
    } };
}

/// Puts a value after the first `len` places, and moves it to its place among them.
fn insert_at(places: &mut [u32; MOST_GROUPS], len: usize, at: usize, value: u32)
    requires among { at ≤ len }
    requires room { len < MOST_GROUPS }
    ensures held { take (len + 1) places.new ≡ insert (take len places.old) at value }
    ensures rest_kept { drop (len + 1) places.new ≡ drop (len + 1) places.old }
{
    places[len] = value;
    places[at..len + 1].rotate_right(1);
}

impl GroupSet {
    /// The set without groups.
    pub fn new() -> Self
        ensures { result ≡ [] }
    {
        GroupSet {
            places: [0; MOST_GROUPS],
            len: 0,
        }
    }

    /// The groups, each once, by rising number.
    pub fn as_slice(&self) -> &[u32]
        ensures groups { result.now ≡ self.now }
        ensures rising { IsStrictlyIncreasing self.now }
        ensures few { length self.now ≤ MOST_GROUPS }
    {
        &self.places[..self.len]
    }

    /// The number of groups, at most 17.
    pub fn len(&self) -> usize
        ensures len { result ≡ length self.now }
        ensures few { result ≤ MOST_GROUPS }
    {
        self.as_slice().len()
    }

    /// Whether the set is empty.
    pub fn is_empty(&self) -> bool
        ensures { result ≡ (length self.now == 0) }
    {
        self.as_slice().is_empty()
    }

    /// Whether the group is in the set.
    pub fn contains(&self, group: u32) -> bool
        ensures { result ≡ has_group self.now group }
    {
        self.as_slice().contains(&group)
    }

    /// Inserts a group at its place, unless the set has it. The set must have fewer than 17 groups.
    pub fn insert(&mut self, group: u32)
        requires { length self.old < MOST_GROUPS }
        ensures { self.new ≡ with_group group self.old }
    {
        if let Err(at) = self.as_slice().binary_search(&group) {
            insert_at(&mut self.places, self.len, at, group);
            self.len += 1;
        }
    }
}

impl PartialEq for GroupSet {
    ghost eq = { pointwise nat_eq };

    ghost laws = { partial_equiv_from_equiv nat_list_eq_equiv };

    fn eq(&self, other: &Self) -> bool {
        self.as_slice() == other.as_slice()
    }
}

impl Eq for GroupSet {
    ghost laws = { nat_list_eq_equiv };
}

impl Hash for GroupSet {
    ghost hash_input = { fed.slice fed.u32 };

    ghost respects_eq = { Prim.search (hashing, rules) };

    fn hash<H: Hasher>(&self, state: &mut H) {
        self.as_slice().hash(state);
    }
}

impl fmt::Debug for GroupSet {
    fn fmt<W: fmt::Write>(&self, f: &mut fmt::Formatter<W>) -> fmt::Result {
        f.debug_set().entries(self.as_slice()).finish()
    }
}
