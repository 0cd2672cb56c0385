//! Samples of texts.
use crate::expected::TEXT;
use crate::sample::calls;
use server_metrics::{
    Metric, micros_of, number_of, read_call, read_number, read_seconds, value_of,
};
use std::test::Fail;

#[test]
fn numbers_of_metrics_are_read(rt: HostRuntime) {
    for (metric, want) in [
        (Metric::StartTime, 1_795_638_435),
        (Metric::Connections, 3),
        (Metric::ConnectionsLimit, 16),
        (Metric::Clients, 2),
        (Metric::ClientsLimit, 64),
        (Metric::Sessions, 5),
        (Metric::SessionsLimit, 65),
        (Metric::Opens, 10),
        (Metric::OpensLimit, 4096),
        (Metric::Objects, 12_000),
        (Metric::ObjectsLimit, 16_384),
        (Metric::Content, 1_073_741_825),
        (Metric::ContentLimit, 2_147_483_648),
        (Metric::AclRefusals, 7),
        (Metric::ReadBytes, 8_000_000),
        (Metric::WrittenBytes, 9_000_000),
        (Metric::Syncs, 120),
        (Metric::Generation, 13),
        (Metric::LogBytes, 1_400_000),
        (Metric::CheckpointAge, 35),
        (Metric::Full, 1),
        (Metric::BookEpoch, 4),
    ] {
        assert_eq!(rt; number_of(TEXT, metric), Some(want), "{metric:?}");
    }
    assert_eq!(rt; micros_of(TEXT, Metric::SlowestSync), Some(1_000_250));
    assert_eq!(rt; number_of(TEXT, Metric::SlowestSync), None);
    assert_eq!(rt; number_of(TEXT, Metric::Calls), None);
}

#[test]
fn values_of_series_are_read(rt: HostRuntime) {
    let read = "zoclesavory_calls_total{operation=\"READ\",status=\"NFS4_OK\"}";
    assert!(rt; value_of(TEXT, read) == Some(b"41".as_slice()));
    assert!(rt; value_of(TEXT, "zoclesavory_build_info{version=\"0.9\"}") == Some(b"1".as_slice()));
    assert!(rt; value_of(TEXT, "zoclesavory_connection").is_none());
    assert!(rt; value_of(TEXT, "connections").is_none());
    assert!(rt; value_of("", "a").is_none());
    assert!(rt; value_of("a 1\na 2\n", "a") == Some(b"1".as_slice()));
}

#[test]
fn only_plain_numbers_are_read(rt: HostRuntime) {
    assert_eq!(rt; read_number(b"0"), Some(0));
    assert_eq!(rt; read_number(b"18446744073709551615"), Some(u64::MAX));
    for wrong in [
        "",
        "+1",
        "-1",
        "01",
        "1.0",
        "1e3",
        "NaN",
        " 1",
        "1 ",
        "18446744073709551616",
    ] {
        assert_eq!(rt; read_number(wrong.as_bytes()), None, "{wrong}");
    }
    assert_eq!(rt; read_number(b"\xff"), None);
}

#[test]
fn seconds_have_six_decimals(rt: HostRuntime) {
    for (text, want) in [
        ("0.000000", 0),
        ("0.000250", 250),
        ("1.000000", 1_000_000),
        ("59.999999", 59_999_999),
        ("18446744073709.551615", u64::MAX),
    ] {
        assert_eq!(rt; read_seconds(text.as_bytes()), Some(want), "{text}");
    }
    for wrong in [
        "",
        "1",
        "1.",
        ".000001",
        "1.5",
        "1.0000001",
        "1.00000+",
        "01.000000",
        "-1.000000",
        "18446744073709.551616",
    ] {
        assert_eq!(rt; read_seconds(wrong.as_bytes()), None, "{wrong}");
    }
}

#[test]
fn lines_of_calls_are_read(rt: HostRuntime) -> Result<(), Fail> {
    let mut found = Vec::new(rt.alloc());
    for line in TEXT.lines() {
        if let Some(call) = read_call(rt.alloc(), line)? {
            found.push(call)?;
        }
    }
    assert!(rt; found.as_slice() == calls());
    for wrong in [
        "",
        "zoclesavory_calls_total 1",
        "zoclesavory_calls_total{operation=\"READ\"} 1",
        "zoclesavory_calls_total{status=\"NFS4_OK\",operation=\"READ\"} 1",
        "zoclesavory_calls_total{operation=\"READ\",status=\"NFS4_OK\"} 01",
        "zoclesavory_calls_total{operation=\"READ\",status=\"NFS4_OK\"}  1",
        "zoclesavory_calls_total{operation=\"a\\\\b\",status=\"NFS4_OK\"} 1",
        "zoclesavory_calls_total{operation=\"READ\",status=\"NFS4_OK\"} 1 1795638435",
    ] {
        assert!(rt; read_call(rt.alloc(), wrong)?.is_none(), "{wrong}");
    }
    Ok(())
}
