//! Parts of a tree, and the tree that is restored from them.
use acl_list::{AclList, Kind};
use nfs_types::Limits;
use node_tree::{Kept, Moment, NewObject, ROOT, RestoreFault, Restoring, Tree};
use std::alloc::Allocator;

const AT: Moment = Moment {
    seconds: 7,
    nanoseconds: 0,
};

fn report<A: Allocator + Copy>(
    alloc: A,
    restoring: Restoring<A>,
    number: u64,
    kind: Kind,
    stamp: u64,
) -> Result<Restoring<A>, RestoreFault> {
    let new = NewObject {
        kind,
        bytes: Vec::new(alloc),
        owner: 5,
        group: 6,
        list: AclList::new(alloc),
        high: 0,
        time_access: None,
        time_modify: AT,
    };
    let kept = Kept {
        change: 9,
        time_access: None,
        time_modify: AT,
        time_metadata: AT,
        stamp,
    };
    restoring.object(number, new, kept)
}

/// Objects are numbers with types; each has its number as its stamp. Names are cookies, directories and children, and
/// the name is the cookie.
fn restore<A: Allocator + Copy>(
    alloc: A,
    objects: &[(u64, Kind)],
    names: &[(u64, u64, u64)],
) -> Result<Option<Tree<A>>, RestoreFault> {
    let Some(mut restoring) = Restoring::begin(alloc, Limits::standard(), 20, 10, 30, 40) else {
        return Ok(None);
    };
    for (number, kind) in objects {
        restoring = report(alloc, restoring, *number, *kind, *number)?;
    }
    for (cookie, directory, child) in names {
        restoring = restoring.name(*cookie, *directory, &[*cookie as u8], *child)?;
    }
    Ok(restoring.finish())
}

fn outcome<A: Allocator + Copy>(
    alloc: A,
    objects: &[(u64, Kind)],
    names: &[(u64, u64, u64)],
) -> u32 {
    match restore(alloc, objects, names) {
        Ok(Some(_)) => 0,
        Ok(None) => 1,
        Err(RestoreFault::Unsound) => 2,
        Err(RestoreFault::Memory) => 3,
    }
}

const D: Kind = Kind::Directory;

const F: Kind = Kind::File;

#[test]
fn a_tree_whose_parents_have_later_numbers_and_cookies(rt: HostRuntime) {
    let tree = restore(
        rt.alloc(),
        &[(ROOT, D), (4, D), (9, D), (11, F)],
        &[(3, 4, 11), (8, 9, 4), (9, ROOT, 9), (30, ROOT, 11)],
    );
    let Ok(Some(tree)) = tree else {
        panic!(rt; "no tree");
    };
    assert!(rt;
        tree.find(ROOT, &[9]) == Some(9)
            && tree.find(9, &[8]) == Some(4)
            && tree.links(11) == 2
            && tree.parent(4) == Some(9)
    );
    assert!(rt; tree.next_tick() == 10 && tree.next_stamp() == 30);
}

#[test]
fn what_is_no_tree(rt: HostRuntime) {
    let a = rt.alloc();
    // a cycle
    assert!(rt; outcome(a, &[(ROOT, D), (2, D), (3, D)], &[(3, 2, 3), (4, 3, 2)]) == 1);
    // no root, and an object without a name
    assert!(rt; outcome(a, &[(2, D)], &[]) == 1);
    assert!(rt; outcome(a, &[(ROOT, D), (2, F)], &[]) == 1);
    // two names with one cookie, a directory with two names, a name of the root, a name in a file, of no object, a
    // number out of order
    assert!(rt; outcome(a, &[(ROOT, D), (2, F)], &[(3, ROOT, 2), (3, ROOT, 2)]) == 2);
    assert!(rt; outcome(a, &[(ROOT, D), (2, D)], &[(3, ROOT, 2), (4, ROOT, 2)]) == 2);
    assert!(rt; outcome(a, &[(ROOT, D), (2, D)], &[(3, ROOT, 2), (4, 2, ROOT)]) == 2);
    assert!(rt; outcome(a, &[(ROOT, D), (2, F), (3, F)], &[(3, ROOT, 2), (4, 2, 3)]) == 2);
    assert!(rt; outcome(a, &[(ROOT, D)], &[(3, ROOT, 2)]) == 2);
    assert!(rt; outcome(a, &[(ROOT, D), (3, F), (2, F)], &[]) == 2);
    // a number or a cookie that isn't below the counter
    assert!(rt; outcome(a, &[(ROOT, D), (20, F)], &[]) == 2);
    assert!(rt; outcome(a, &[(ROOT, D), (2, F)], &[(40, ROOT, 2)]) == 2);
}
