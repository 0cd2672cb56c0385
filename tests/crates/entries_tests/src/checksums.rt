//! The checksum of results, beside that of Python (`hash` of bytes under PYTHONHASHSEED=0, which is SipHash-1-3 from
//! version 3.11 on). The one of no bytes is that of Rust's `DefaultHasher`.
use log_entries::results_checksum;
use std::process::Abort;

#[test]
fn checksums_of_other_programs(rt: HostRuntime) {
    for (bytes, wanted) in [
        (&b""[..], 0xd1fb_a762_150c_532c),
        (&b"a"[..], 0x4074_48d2_b89b_1813),
        (&b"results"[..], 0x5be8_2eb8_d376_fece),
        (&b"eight by"[..], 0xd54c_f3f0_e0ee_2aad),
    ] {
        assert_eq!(rt; results_checksum(bytes), wanted);
    }
}
