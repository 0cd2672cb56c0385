//! Verdicts, counted by hand from the text of RFC 8881, section 6.2.1.

use crate::acl::entries::{allow, deny, entry};
use crate::acl::people::{GROUP, OWNER, Person};
use Person::{Alice, AliceInside, Bob, Carol, Dave};
use Verdict::{Denied, Granted, Missing};
use Who::{Everyone, Group, GroupOf, Owner, User};
use acl_list::{AclList, Entry, Verdict, Who, flag, judge, judge_bit_by_bit};
use rpc_record::Caller;
use std::alloc::{AllocError, Global};
use std::process::Abort;

/// An access control list, and its verdict for each caller and mask.
struct Case {
    name: &'static str,
    entries: &'static [Entry],
    asked: &'static [(Person, u32, Verdict)],
}

macro_rules! case {
    ($name:expr, $entries:expr => $asked:expr) => {
        Case {
            name: $name,
            entries: &$entries,
            asked: &$asked,
        }
    };
}

/// The principal of an ACE (access control entry).
static CASES_OF_PRINCIPALS: [Case; 17] = [
    case!(
        "owner, group, everyone",
        [allow!(0, 1, Owner), deny!(0, 3, Group), allow!(0, 3, Everyone)]
            => [
                (AliceInside, 1, Granted), (AliceInside, 3, Denied(1)), (Bob, 1, Denied(1)), (Dave, 3, Granted),
                (Alice, 3, Granted), (Carol, 2, Denied(1)),
            ]
    ),
    case!(
        "no entry",
        []
            => [
                (Dave, 0x22, Missing(0x2)), (Dave, 0, Granted), (Alice, 0xffff_ffff, Missing(1)),
                (Alice, 0x8000_0000, Missing(0x8000_0000)),
            ]
    ),
    case!("nothing asked", [deny!(0, 0xffff_ffff, Everyone)] => [(Dave, 0, Granted), (Alice, 0, Granted)]),
    case!(
        "a denied user, and everyone",
        [deny!(0, 1, User(1001)), allow!(0, 3, Everyone)]
            => [(Alice, 3, Denied(0)), (Alice, 2, Granted), (Bob, 3, Granted)]
    ),
    case!(
        "a denied user, and the group",
        [deny!(0, 1, User(1002)), allow!(0, 1, Group)]
            => [(Bob, 1, Denied(0)), (Carol, 1, Granted), (Dave, 1, Missing(1))]
    ),
    case!("the group, and then a denied user", [allow!(0, 1, Group), deny!(0, 1, User(1002))] => [(Bob, 1, Granted)]),
    case!("another user is denied", [deny!(0, 2, User(1002))] => [(Dave, 3, Missing(1)), (Bob, 3, Denied(0))]),
    case!(
        "the owner",
        [allow!(0, 1, Owner)]
            => [(Alice, 1, Granted), (AliceInside, 1, Granted), (Bob, 1, Missing(1)), (Dave, 1, Missing(1))]
    ),
    case!(
        "the group",
        [allow!(0, 1, Group)]
            => [
                (Bob, 1, Granted), (Carol, 1, Granted), (AliceInside, 1, Granted), (Alice, 1, Missing(1)),
                (Dave, 1, Missing(1)),
            ]
    ),
    case!("everyone", [allow!(0, 1, Everyone)] => [(Alice, 1, Granted), (Bob, 1, Granted), (Dave, 1, Granted)]),
    case!("a user", [allow!(0, 1, User(1002))] => [(Bob, 1, Granted), (Alice, 1, Missing(1)), (Carol, 1, Missing(1))]),
    case!("the owner as a user", [allow!(0, 1, User(1001))] => [(Alice, 1, Granted), (Bob, 1, Missing(1))]),
    case!("a further group", [allow!(0, 1, GroupOf(200))] => [(Carol, 1, Granted), (Bob, 1, Missing(1))]),
    case!(
        "the caller's own group",
        [allow!(0, 1, GroupOf(7))]
            => [(Dave, 1, Granted), (Carol, 1, Granted), (Bob, 1, Missing(1))]
    ),
    case!("a user of the group's number", [allow!(0, 1, User(100))] => [(Bob, 1, Missing(1))]),
    case!("a group of the user's number", [allow!(0, 1, GroupOf(1002))] => [(Bob, 1, Missing(1))]),
    case!(
        "the object's group by its number",
        [deny!(0, 1, GroupOf(100)), allow!(0, 1, Group)]
            => [(Bob, 1, Denied(0)), (Carol, 1, Denied(0)), (Dave, 1, Missing(1))]
    ),
];

fn cases_of_principals() -> &'static [Case] {
    &CASES_OF_PRINCIPALS
}

/// Bits over several ACEs.
static CASES_OF_BITS: [Case; 18] = [
    case!(
        "allowed first",
        [allow!(0, 1, Everyone), deny!(0, 1, Everyone)]
            => [(Dave, 1, Granted), (Alice, 1, Granted)]
    ),
    case!(
        "denied first",
        [deny!(0, 1, Everyone), allow!(0, 1, Everyone)]
            => [(Dave, 1, Denied(0)), (Alice, 1, Denied(0))]
    ),
    case!(
        "one bit allowed, the other denied",
        [allow!(0, 1, Everyone), deny!(0, 3, Everyone)]
            => [(Dave, 3, Denied(1)), (Dave, 1, Granted), (Dave, 2, Denied(1))]
    ),
    case!(
        "two entries together",
        [allow!(0, 2, Everyone), allow!(0, 1, Everyone)]
            => [(Dave, 3, Granted), (Dave, 7, Missing(4))]
    ),
    case!(
        "the owner's bits over two whos",
        [allow!(0, 1, Owner), allow!(0, 2, User(1001)), allow!(0, 4, Everyone)]
            => [(Alice, 7, Granted), (Dave, 7, Missing(1))]
    ),
    case!(
        "both bits denied, the higher first",
        [deny!(0, 2, Everyone), deny!(0, 1, Everyone)]
            => [(Dave, 3, Denied(0)), (Dave, 1, Denied(1))]
    ),
    case!(
        "behind an ALLOW",
        [allow!(0, 4, Everyone), deny!(0, 2, Everyone), deny!(0, 1, Everyone)]
            => [(Dave, 7, Denied(1)), (Dave, 5, Denied(2))]
    ),
    case!(
        "behind two ALLOWs of one bit",
        [allow!(0, 1, Everyone), allow!(0, 1, Everyone), deny!(0, 2, Everyone), deny!(0, 2, Everyone)]
            => [(Dave, 3, Denied(2))]
    ),
    case!(
        "a DENY of a bit that is allowed before",
        [allow!(0, 3, Everyone), deny!(0, 1, Everyone), deny!(0, 4, Everyone)]
            => [(Dave, 7, Denied(2)), (Dave, 3, Granted)]
    ),
    case!("all but one", [allow!(0, 2, Everyone)] => [(Dave, 0x27, Missing(1)), (Dave, 2, Granted)]),
    case!("two are missing", [allow!(0, 1, Everyone)] => [(Dave, 0x25, Missing(4)), (Dave, 0x21, Missing(0x20))]),
    case!(
        "one missing, a later one denied",
        [deny!(0, 0x20, Everyone)]
            => [(Dave, 0x21, Denied(0)), (Dave, 1, Missing(1))]
    ),
    case!(
        "missing, denied and allowed",
        [allow!(0, 0x20, Everyone), deny!(0, 4, Everyone)]
            => [(Dave, 0x27, Denied(1)), (Dave, 0x23, Missing(1)), (Dave, 0x20, Granted)]
    ),
    case!(
        "a bit without a meaning",
        [allow!(0, 0x1f_07ff, Everyone)]
            => [(Dave, 0x801, Missing(0x800)), (Dave, 0x1f_07ff, Granted)]
    ),
    case!(
        "the highest bit is allowed",
        [allow!(0, 0x8000_0000, Everyone)]
            => [(Dave, 0x8000_0000, Granted), (Dave, 0xffff_ffff, Missing(1))]
    ),
    case!(
        "the highest bit is denied",
        [deny!(0, 0x8000_0000, Everyone)]
            => [(Dave, 0xffff_ffff, Denied(0)), (Dave, 0x7fff_ffff, Missing(1))]
    ),
    case!(
        "the highest bit is missing",
        [allow!(0, 0x7fff_ffff, Everyone)]
            => [(Dave, 0xffff_ffff, Missing(0x8000_0000))]
    ),
    case!("all of them", [allow!(0, 0xffff_ffff, Everyone)] => [(Dave, 0xffff_ffff, Granted)]),
];

fn cases_of_bits() -> &'static [Case] {
    &CASES_OF_BITS
}

/// Flags, and ACEs that decide nothing.
static CASES_OF_FLAGS: [Case; 14] = [
    case!(
        "an ALLOW to be inherited only",
        [entry!(Allow, flag::INHERIT_ONLY | flag::FILE_INHERIT, 1, Everyone)]
            => [(Dave, 1, Missing(1))]
    ),
    case!(
        "a DENY to be inherited only",
        [entry!(Deny, 0x0a, 1, Everyone), allow!(0, 1, Everyone)]
            => [(Dave, 1, Granted)]
    ),
    case!("inheritable, and for the object too", [entry!(Allow, 0x03, 1, Everyone)] => [(Dave, 1, Granted)]),
    case!(
        "INHERIT_ONLY alone",
        [entry!(Deny, 0x08, 3, Owner), entry!(Deny, 0x04, 2, Owner), allow!(0, 3, Owner)]
            => [(Alice, 3, Denied(1)), (Alice, 1, Granted)]
    ),
    case!("an AUDIT", [entry!(Audit, 0x30, 1, Everyone)] => [(Dave, 1, Missing(1))]),
    case!(
        "an ALARM before an ALLOW",
        [entry!(Alarm, 0x30, 1, Everyone), allow!(0, 1, Everyone)]
            => [(Dave, 1, Granted)]
    ),
    case!(
        "an AUDIT before a DENY",
        [entry!(Audit, 0x10, 1, Everyone), deny!(0, 1, Everyone)]
            => [(Dave, 1, Denied(1))]
    ),
    case!(
        "an ALARM between",
        [allow!(0, 2, Everyone), entry!(Alarm, 0x20, 1, Everyone), deny!(0, 1, Everyone)]
            => [(Dave, 3, Denied(2))]
    ),
    case!(
        "IDENTIFIER_GROUP on OWNER@",
        [entry!(Allow, flag::IDENTIFIER_GROUP, 1, Owner)]
            => [(Alice, 1, Granted), (Bob, 1, Missing(1))]
    ),
    case!(
        "IDENTIFIER_GROUP on GROUP@",
        [entry!(Allow, 0x40, 1, Group)]
            => [(Carol, 1, Granted), (Alice, 1, Missing(1))]
    ),
    case!(
        "IDENTIFIER_GROUP on EVERYONE@",
        [entry!(Allow, 0x40, 1, Everyone)]
            => [(Dave, 1, Granted), (Alice, 1, Granted)]
    ),
    case!(
        "IDENTIFIER_GROUP on a user",
        [entry!(Allow, 0x40, 1, User(1002))]
            => [(Bob, 1, Granted), (Dave, 1, Missing(1))]
    ),
    case!(
        "a group with the flag",
        [entry!(Deny, 0x40, 1, GroupOf(200)), allow!(0, 1, Everyone)]
            => [(Carol, 1, Denied(0)), (Bob, 1, Granted)]
    ),
    case!("INHERITED and the watching flags", [entry!(Allow, 0xb0, 1, Everyone)] => [(Dave, 1, Granted)]),
];

fn cases_of_flags() -> &'static [Case] {
    &CASES_OF_FLAGS
}

fn judged(list: &AclList, caller: &Caller, mask: u32) -> Verdict {
    judge(list, OWNER, GROUP, caller, mask)
}

fn judged_bit_by_bit(list: &AclList, caller: &Caller, mask: u32) -> Verdict {
    judge_bit_by_bit(list, OWNER, GROUP, caller, mask)
}

/// Runs the judge and the plain program.
fn are_both(list: &AclList, caller: &Caller, mask: u32, want: Verdict) -> bool {
    (judged(list, caller, mask) == want) & (judged_bit_by_bit(list, caller, mask) == want)
}

fn see_asked(rt: &impl Abort, list: &AclList, case: &Case) {
    for (person, mask, want) in case.asked {
        let is_right = are_both(list, &person.caller(), *mask, *want);
        assert!(rt; is_right, "{}: {person:?} asks {mask:x}", case.name);
    }
}

fn see_case(rt: &impl Abort, alloc: Global, case: &Case) -> Result<(), AllocError> {
    let list = AclList::from_slice(alloc, case.entries)?;
    see_asked(rt, &list, case);
    Ok(())
}

fn see_cases(rt: &impl Abort, alloc: Global, cases: &[Case]) {
    for case in cases {
        assert!(rt; see_case(rt, alloc, case).is_ok());
    }
}

#[test]
fn counted_by_hand(rt: HostRuntime) {
    see_cases(&rt, rt.alloc(), cases_of_principals());
    see_cases(&rt, rt.alloc(), cases_of_bits());
    see_cases(&rt, rt.alloc(), cases_of_flags());
}
