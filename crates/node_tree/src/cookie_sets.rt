//! Cookies of names, by the number of their directory or of their child.
ghost use Rattle.std.specs.Prelude.{◌≡◌, ℕ, OnOk, OnErr, if◌then◌else◌, ◌==◌, length, find, nat_lt, slice_get};
ghost use Rattle.std.specs.Ordering.{nat_cmp};
ghost use Rattle.std.specs.BTreeMap.{is_at};
ghost use Rattle.std.specs.BTreeSet.{insert_key};
ghost use Rattle.std.specs.Set.{remove_key};
ghost use Rattle.node_tree.specs.Groups.{cookies_at, AreFilled};

use std::alloc::{AllocError, Allocator};
use std::collections::{BTreeMap, BTreeSet};
use std::ops::Bound;

/// The number of cookies of a directory or a child, which is given by its number.
pub fn count<A: Allocator>(groups: &BTreeMap<u64, BTreeSet<u64, A>, A>, number: u64) -> usize
    ensures { result ≡ length (cookies_at groups.now number) }
{
    match groups.get(&number) {
        Some(cookies) => cookies.len(),
        None => 0,
    }
}

/// The least cookie of a directory or a child.
pub fn first<A: Allocator>(groups: &BTreeMap<u64, BTreeSet<u64, A>, A>, number: u64) -> Option<u64>
    ensures { result ≡ slice_get (cookies_at groups.now number) 0 }
{
    least(groups.get(&number)?)
}

fn least<A: Allocator>(cookies: &BTreeSet<u64, A>) -> Option<u64>
    ensures { result ≡ slice_get cookies.now.keys 0 }
{
    cookies.first().copied()
}

/// The least cookie of a directory or a child above another cookie.
pub fn next_after<A: Allocator>(
    groups: &BTreeMap<u64, BTreeSet<u64, A>, A>,
    number: u64,
    cookie: u64,
) -> Option<u64>
    ensures { result ≡ find (nat_lt cookie) (cookies_at groups.now number) }
{
    above(groups.get(&number)?, cookie)
}

fn above<A: Allocator>(cookies: &BTreeSet<u64, A>, cookie: u64) -> Option<u64>
    ensures { result ≡ find (nat_lt cookie) cookies.now.keys }
{
    match cookies
        .range((Bound::Excluded(cookie), Bound::Unbounded))
        .next()
    {
        Some(next) => Some(*next),
        None => None,
    }
}

fn put_cookie<A: Allocator + Copy>(
    cookies: &mut BTreeSet<u64, A>,
    cookie: u64,
) -> Result<(), AllocError>
    ensures ok { OnOk result (cookies.new.keys ≡ insert_key nat_cmp cookies.old.keys cookie) }
    ensures err { OnErr result (cookies.new.keys ≡ cookies.old.keys) }
{
    cookies.insert(cookie)?;
    Ok(())
}

fn take_cookie<A: Allocator>(cookies: &mut BTreeSet<u64, A>, cookie: u64)
    ensures { cookies.new.keys ≡ remove_key (is_at (nat_cmp cookie)) cookies.old.keys }
{
    cookies.remove(&cookie);
}

/// Adds a cookie for a directory or a child. `Err`: an allocation fails, and nothing has changed.
#[tactic(auto, using(crate::proofs::Filled::some_inserted))]
pub fn put<A: Allocator + Copy>(
    groups: &mut BTreeMap<u64, BTreeSet<u64, A>, A>,
    alloc: A,
    number: u64,
    cookie: u64,
) -> Result<(), AllocError>
    ensures ok { OnOk result ((q : ℕ) → cookies_at groups.new q ≡
        (if q == number then insert_key nat_cmp (cookies_at groups.old q) cookie else cookies_at groups.old q)) }
    ensures err { OnErr result ((q : ℕ) → cookies_at groups.new q ≡ cookies_at groups.old q) }
    ensures filled { AreFilled groups.old → AreFilled groups.new }
{
    if let Some(cookies) = groups.get_mut(&number) {
        return put_cookie(cookies, cookie);
    }
    let mut cookies = BTreeSet::new(alloc);
    put_cookie(&mut cookies, cookie)?;
    groups.insert(number, cookies)?;
    Ok(())
}

/// Removes a cookie of a directory or a child. The set is removed with its last cookie.
pub fn take<A: Allocator>(groups: &mut BTreeMap<u64, BTreeSet<u64, A>, A>, number: u64, cookie: u64)
    ensures taken { (q : ℕ) → cookies_at groups.new q ≡
        (if q == number then remove_key (is_at (nat_cmp cookie)) (cookies_at groups.old q)
        else cookies_at groups.old q) }
    ensures filled { AreFilled groups.old → AreFilled groups.new }
{
    let Some(cookies) = groups.get_mut(&number) else {
        return;
    };
    take_cookie(cookies, cookie);
    if cookies.is_empty() {
        groups.remove(&number);
    }
}
