//! The numbers of faults, of ends and of epochs.

use nfs_hub::{HubFault, MAX_CONNECTIONS, ServeEnd, next_epoch};
use std::process::Abort;

#[test]
fn faults_and_ends_are_numbered(rt: HostRuntime) {
    assert_eq!(rt; HubFault::TooMany as u8, 1);
    assert_eq!(rt; HubFault::NoSuch as u8, 2);
    assert_eq!(rt; HubFault::Broken as u8, 3);
    assert_eq!(rt; HubFault::Memory as u8, 4);
    assert_eq!(rt; HubFault::Exhausted as u8, 5);
    assert_eq!(rt; ServeEnd::Ended as u8, 1);
    assert_eq!(rt; ServeEnd::Inside as u8, 2);
    assert_eq!(rt; ServeEnd::Broken as u8, 3);
    assert_eq!(rt; ServeEnd::Memory as u8, 4);
    assert_eq!(rt; ServeEnd::TooMany as u8, 5);
    assert_eq!(rt; ServeEnd::Read as u8, 6);
    assert_eq!(rt; ServeEnd::Write as u8, 7);
    assert_eq!(rt; ServeEnd::Turns as u8, 8);
    assert_eq!(rt; MAX_CONNECTIONS, 256);
}

/// No epoch comes after 2^63.
#[test]
fn epochs_end(rt: HostRuntime) {
    assert_eq!(rt; next_epoch(1), Some(2));
    assert_eq!(rt;
        next_epoch(9_223_372_036_854_775_807),
        Some(9_223_372_036_854_775_808)
    );
    assert_eq!(rt; next_epoch(9_223_372_036_854_775_808), None);
    assert_eq!(rt; next_epoch(u64::MAX), None);
}
