//! Networks of texts, and the addresses in them.
use networks::{Network, NetworkError, admits, is_loopback, needs_privileged};
use std::alloc::Global;
use std::net::{IpAddr, SocketAddr};
use std::test::Fail;

/// Texts of networks, as they are printed.
static TEXTS: [(&str, &str); 12] = [
    ("192.0.2.0/24", "192.0.2.0/24"),
    ("192.0.2.7", "192.0.2.7/32"),
    ("0.0.0.0/0", "0.0.0.0/0"),
    ("10.0.0.0/08", "10.0.0.0/8"),
    ("128.0.0.0/1", "128.0.0.0/1"),
    ("192.0.2.254/31", "192.0.2.254/31"),
    ("2001:db8::/32", "2001:db8::/32"),
    ("2001:DB8:0:0::", "2001:db8::/128"),
    ("::/0", "::/0"),
    ("fe80::/10", "fe80::/10"),
    ("::ffff:192.0.2.0/24", "::ffff:192.0.2.0/24"),
    ("::1/128", "::1/128"),
];

fn texts() -> &'static [(&'static str, &'static str)] {
    &TEXTS
}

#[test]
fn networks_are_read(rt: HostRuntime) -> Result<(), Fail> {
    for row in texts() {
        let (text, want) = *row;
        let network: Network = text.parse()?;
        let shown = format!(in rt.alloc(); "{network}")?;
        assert_eq!(rt; shown.as_str(), want);
    }
    Ok(())
}

static FAULTS: [(&str, NetworkError); 20] = [
    ("", NetworkError::NotAnAddress),
    ("/24", NetworkError::NotAnAddress),
    ("office", NetworkError::NotAnAddress),
    ("192.0.2/24", NetworkError::NotAnAddress),
    ("192.0.2.0 /24", NetworkError::NotAnAddress),
    ("fe80::1%eth0", NetworkError::NotAnAddress),
    ("010.0.0.0/8", NetworkError::NotAnAddress),
    ("192.0.2.0/", NetworkError::NotANumber),
    ("192.0.2.0/+24", NetworkError::NotANumber),
    ("192.0.2.0/-1", NetworkError::NotANumber),
    ("192.0.2.0/24/8", NetworkError::NotANumber),
    ("192.0.2.0/255.255.255.0", NetworkError::NotANumber),
    ("192.0.2.0/33", NetworkError::TooLong(32)),
    ("192.0.2.0/18446744073709551640", NetworkError::TooLong(32)),
    ("2001:db8::/129", NetworkError::TooLong(128)),
    ("::ffff:192.0.2.0/120", NetworkError::TooLong(32)),
    ("192.0.2.1/31", NetworkError::BitsAfterPrefix),
    ("192.0.2.0/22", NetworkError::BitsAfterPrefix),
    ("0.0.0.1/0", NetworkError::BitsAfterPrefix),
    ("2001:db8::1/127", NetworkError::BitsAfterPrefix),
];

fn faults() -> &'static [(&'static str, NetworkError)] {
    &FAULTS
}

#[test]
fn faults_are_told(rt: HostRuntime) -> Result<(), Fail> {
    for row in faults() {
        let (text, want) = *row;
        assert!(rt; text.parse::<Network>() == Err(want), "{text}");
    }
    Ok(())
}

/// A network, an address, and whether it is in the network.
static MEMBERS: [(&str, &str, bool); 26] = [
    ("192.0.2.0/24", "192.0.2.0", true),
    ("192.0.2.0/24", "192.0.2.255", true),
    ("192.0.2.0/24", "192.0.3.0", false),
    ("192.0.2.0/24", "192.0.1.255", false),
    ("192.0.2.0/24", "::ffff:192.0.2.9", true),
    ("192.0.2.0/24", "::192.0.2.9", false),
    ("192.0.2.128/25", "192.0.2.128", true),
    ("192.0.2.128/25", "192.0.2.127", false),
    ("192.0.2.7", "192.0.2.7", true),
    ("192.0.2.7", "192.0.2.6", false),
    ("0.0.0.0/0", "203.0.113.9", true),
    ("0.0.0.0/0", "::1", false),
    ("0.0.0.0/0", "2001:db8::1", false),
    ("128.0.0.0/1", "127.255.255.255", false),
    ("128.0.0.0/1", "128.0.0.0", true),
    ("2001:db8::/32", "2001:db8:ffff::1", true),
    ("2001:db8::/32", "2001:db9::1", false),
    ("2001:db8::/33", "2001:db8:8000::", false),
    ("2001:db8::/127", "2001:db8::1", true),
    ("2001:db8::/127", "2001:db8::2", false),
    ("2001:db8::1", "2001:db8::1", true),
    ("::/0", "2001:db8::1", true),
    ("::/0", "192.0.2.1", false),
    ("::/0", "::ffff:192.0.2.1", false),
    ("::ffff:192.0.2.0/24", "192.0.2.9", true),
    ("::/96", "192.0.2.1", false),
];

fn members() -> &'static [(&'static str, &'static str, bool)] {
    &MEMBERS
}

#[test]
fn networks_have_their_addresses(rt: HostRuntime) -> Result<(), Fail> {
    for row in members() {
        let (network, address, want) = *row;
        let network: Network = network.parse()?;
        let address: IpAddr = address.parse()?;
        assert!(rt; network.contains(&address) == want, "{network} {address}");
    }
    Ok(())
}

static OWN: [(&str, bool); 10] = [
    ("127.0.0.1", true),
    ("127.255.255.255", true),
    ("126.255.255.255", false),
    ("128.0.0.0", false),
    ("0.0.0.0", false),
    ("::1", true),
    ("::", false),
    ("::2", false),
    ("::ffff:127.0.0.2", true),
    ("::127.0.0.1", false),
];

fn own() -> &'static [(&'static str, bool)] {
    &OWN
}

#[test]
fn loopback_is_known(rt: HostRuntime) -> Result<(), Fail> {
    for row in own() {
        let (address, want) = *row;
        let address: IpAddr = address.parse()?;
        assert!(rt; is_loopback(&address) == want, "{address}");
    }
    Ok(())
}

/// The source of a connection, and whether it is served over a listener that needs a privileged port, and over another
/// one, if 192.0.2.0/24 and 2001:db8::7 are allowed.
static CALLERS: [(&str, bool, bool); 10] = [
    ("127.0.0.1:1023", true, true),
    ("127.0.0.1:1024", false, true),
    ("[::1]:40000", false, true),
    ("192.0.2.7:0", true, true),
    ("192.0.2.7:1023", true, true),
    ("192.0.2.7:1024", false, true),
    ("[::ffff:192.0.2.7]:7", true, true),
    ("192.0.3.7:7", false, false),
    ("[2001:db8::7]:7", true, true),
    ("[2001:db8::8]:7", false, false),
];

fn callers() -> &'static [(&'static str, bool, bool)] {
    &CALLERS
}

fn allowed(alloc: Global) -> Result<Vec<Network>, Fail> {
    let mut networks = Vec::new(alloc);
    networks.push("192.0.2.0/24".parse::<Network>()?)?;
    networks.push("2001:db8::7".parse::<Network>()?)?;
    Ok(networks)
}

#[test]
fn callers_are_admitted(rt: HostRuntime) -> Result<(), Fail> {
    let networks = allowed(rt.alloc())?;
    for row in callers() {
        let (from, privileged, any) = *row;
        let from: SocketAddr = from.parse()?;
        assert!(rt;
            admits(networks.as_slice(), true, &from) == privileged,
            "{from}"
        );
        assert!(rt; admits(networks.as_slice(), false, &from) == any, "{from}");
    }
    Ok(())
}

/// With no network the machine itself alone is served.
#[test]
fn nobody_else_is_admitted(rt: HostRuntime) -> Result<(), Fail> {
    let own: SocketAddr = "127.0.0.1:40000".parse()?;
    let other: SocketAddr = "192.0.2.7:7".parse()?;
    assert!(rt; admits(&[], false, &own));
    assert!(rt; !admits(&[], false, &other));
    Ok(())
}

/// An address, and whether a listener on it needs a privileged port: without an option, if privileged ports are wanted,
/// and if any port will do.
static LISTENERS: [(&str, bool, bool, bool); 5] = [
    ("127.0.0.1", false, true, false),
    ("::1", false, true, false),
    ("192.0.2.7", true, true, false),
    ("0.0.0.0", true, true, false),
    ("::", true, true, false),
];

fn listeners() -> &'static [(&'static str, bool, bool, bool)] {
    &LISTENERS
}

#[test]
fn listeners_ask_for_privileged_ports(rt: HostRuntime) -> Result<(), Fail> {
    for row in listeners() {
        let (address, unsaid, wanted, any) = *row;
        let address: IpAddr = address.parse()?;
        assert!(rt;
            needs_privileged(&address, false, false) == unsaid,
            "{address}"
        );
        assert!(rt;
            needs_privileged(&address, true, false) == wanted,
            "{address}"
        );
        assert!(rt; needs_privileged(&address, false, true) == any, "{address}");
    }
    Ok(())
}
