//! The cookies of names, by directory and name.
ghost use Rattle.std.specs.Prelude.{◌≡◌, ℕ, List, Option, OnOk, OnErr, IfOk, if◌then◌else◌, ◌==◌, ◌&&◌, nat_eq, not};
ghost use Rattle.std.specs.Prelude.{None, Some, ◌<◌, length};
ghost use Rattle.std.specs.Cmp.Lexicographic.{pointwise};
ghost use Rattle.node_tree.specs.Indexes.{cookie_of, cookie_at, AreNamed};

use std::alloc::{AllocError, Allocator, Global};
use std::collections::BTreeMap;

/// The cookie of a name in a directory.
pub fn find<A: Allocator>(
    index: &BTreeMap<u64, BTreeMap<Vec<u8, A>, u64, A>, A>,
    directory: u64,
    name: &[u8],
) -> Option<u64>
    ensures { result ≡ cookie_at index.now directory name.now }
{
    index.get(&directory)?.get(name).copied()
}

#[tactic(auto, using(crate::proofs::Filled::some_put))]
fn put_name<A: Allocator + Copy>(
    names: &mut BTreeMap<Vec<u8, A>, u64, A>,
    name: Vec<u8, A>,
    cookie: u64,
) -> Result<Option<u64>, AllocError>
    ensures was { IfOk result (λ was. was ≡ cookie_of names.old name.items) }
    ensures ok { OnOk result ((t : List ℕ) →
        cookie_of names.new t ≡ (if pointwise nat_eq t name.items then Some cookie else cookie_of names.old t)) }
    ensures some { OnOk result (0 < length names.new.entries) }
    ensures err { OnErr result (names.new.entries ≡ names.old.entries) }
{
    Ok(names.insert(name, cookie)?)
}

fn take_name<A: Allocator>(names: &mut BTreeMap<Vec<u8, A>, u64, A>, name: &[u8]) -> Option<u64>
    ensures was { result ≡ cookie_of names.old name.now }
    ensures taken { (t : List ℕ) → cookie_of names.new t ≡
        (if pointwise nat_eq t name.now then None else cookie_of names.old t) }
{
    names.remove(name)
}

/// Gives a name of a directory a cookie, and returns its old cookie. `Err`: an allocation fails, and nothing has
/// changed.
pub fn put<A: Allocator + Copy>(
    index: &mut BTreeMap<u64, BTreeMap<Vec<u8, A>, u64, A>, A>,
    alloc: A,
    directory: u64,
    name: Vec<u8, A>,
    cookie: u64,
) -> Result<Option<u64>, AllocError>
    ensures was { IfOk result (λ was. was ≡ cookie_at index.old directory name.items) }
    ensures ok { OnOk result ((d : ℕ) (t : List ℕ) →
        cookie_at index.new d t ≡ (if (d == directory) && pointwise nat_eq t name.items then Some cookie
        else cookie_at index.old d t)) }
    ensures err { OnErr result ((d : ℕ) (t : List ℕ) → cookie_at index.new d t ≡ cookie_at index.old d t) }
    ensures named { AreNamed index.old → AreNamed index.new }
{
    if let Some(names) = index.get_mut(&directory) {
        return put_name(names, name, cookie);
    }
    let mut names = BTreeMap::new(alloc);
    put_name(&mut names, name, cookie)?;
    index.insert(directory, names)?;
    Ok(None)
}

/// Removes a name of a directory. The map of the directory is removed with its last name. Returns the cookie of the
/// name.
pub fn take<A: Allocator>(
    index: &mut BTreeMap<u64, BTreeMap<Vec<u8, A>, u64, A>, A>,
    directory: u64,
    name: &[u8],
) -> Option<u64>
    ensures was { result ≡ cookie_at index.old directory name.now }
    ensures taken { (d : ℕ) (t : List ℕ) →
        cookie_at index.new d t ≡ (if (d == directory) && pointwise nat_eq t name.now then None
        else cookie_at index.old d t) }
    ensures named { AreNamed index.old → AreNamed index.new }
{
    let Some(names) = index.get_mut(&directory) else {
        return None;
    };
    let cookie = take_name(names, name);
    if names.is_empty() {
        index.remove(&directory);
    }
    cookie
}

/// Removes a name of a directory, unless it is this other name. Returns its cookie.
pub fn take_other<A: Allocator>(
    index: &mut BTreeMap<u64, BTreeMap<Vec<u8, A>, u64, A>, A>,
    from: u64,
    old: &[u8],
    to: u64,
    new: &[u8],
) -> Option<u64>
    ensures was { result ≡ (if (from == to) && pointwise nat_eq old.now new.now then None
        else cookie_at index.old from old.now) }
    ensures taken { (d : ℕ) (t : List ℕ) →
        cookie_at index.new d t ≡ (if ((d == from) && pointwise nat_eq t old.now) &&
        not ((d == to) && pointwise nat_eq t new.now) then None else cookie_at index.old d t) }
    ensures named { AreNamed index.old → AreNamed index.new }
{
    if from == to && old == new {
        return None;
    }
    take(index, from, old)
}
