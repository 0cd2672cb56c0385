//! The summaries that a server remembers after two equal calls.

use nfs_hub::{ConnId, Hub};
use nfs_types::Moment;
use std::hash::RandomState;
use std::process::Abort;
use std::test::Fail;

/// PUTROOTFH and GETATTR of change (3), by bob, user 1002, as a record in hexadecimal digits. The call examines the
/// root's ACL (access control list) once.
const BOB_LOOKS: &str =
    "8000005c000000010000000000000002000186a3000000040000000100000001000000180000000000000000000003ea\
     00000007000000010000000700000000000000000000000000000001000000020000001800000009000000010000\
     0008";

/// How many pairs a server remembers, and how many ACEs it has examined.
fn seen(hub: &Hub) -> (usize, u64) {
    let guard = hub.server().guard();
    (guard.remembered().count(), guard.examined())
}

fn call(hub: &mut Hub, conn: ConnId, record: &[u8]) -> bool {
    let now = Moment {
        seconds: 1,
        nanoseconds: 0,
    };
    hub.feed(conn, record, now).is_ok()
}

/// The second of two equal calls finds what the first one left, and examines no ACE.
#[test]
fn an_equal_call_looks_at_no_entry(rt: HostRuntime) -> Result<(), Fail> {
    let record = hex::decode(rt.alloc(), BOB_LOOKS)?;
    let mut hub = Hub::bare(rt.alloc(), rt.alloc(), RandomState::new(&rt)?)?;
    let conn = hub.connect()?;
    assert_eq!(rt; seen(&hub), (0, 0));
    assert!(rt; call(&mut hub, conn, &record));
    let (pairs, entries) = seen(&hub);
    assert_eq!(rt; pairs, 1);
    assert!(rt; entries > 0);
    for _again in 0..2 {
        assert!(rt; call(&mut hub, conn, &record));
        assert_eq!(rt; seen(&hub), (pairs, entries));
    }
    Ok(())
}
