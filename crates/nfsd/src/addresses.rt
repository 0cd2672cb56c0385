//! The addresses that the server listens on.
use crate::Fault;
use crate::sockets::Sockets;
use networks::needs_privileged;
use nfsd_options::Options;
use std::fmt::{Display, Formatter};
use std::net::{IpAddr, Ipv4Addr, Net, SocketAddr};
use std::{fmt, io};

/// The address that the server listens on if the options name none.
const OWN: [IpAddr; 1] = [IpAddr::V4(Ipv4Addr::LOCALHOST)];

/// The addresses of the options, at their port.
#[derive(Clone, Copy)]
pub(crate) struct Addresses<'a> {
    pub(crate) all: &'a [IpAddr],
    port: u16,
}

impl<'a> Addresses<'a> {
    /// The addresses that the options name, or 127.0.0.1.
    pub(crate) fn of(options: &'a Options<'_>) -> Self {
        Addresses {
            all: if options.listen.is_empty() {
                &OWN
            } else {
                &options.listen
            },
            port: options.port,
        }
    }
}

/// The addresses with their port, separated by commas.
impl Display for Addresses<'_> {
    fn fmt<W: fmt::Write>(&self, f: &mut Formatter<W>) -> fmt::Result {
        for (index, address) in self.all.iter().enumerate() {
            if index > 0 {
                f.write_str(", ")?;
            }
            write!(f, "{}", SocketAddr::new(*address, self.port))?;
        }
        Ok(())
    }
}

/// Listens on each address of the options. An error names the address.
pub(crate) fn listen_on_all(
    net: &impl Net,
    sockets: &mut Sockets,
    options: &Options<'_>,
) -> Result<(), Fault> {
    for address in Addresses::of(options).all {
        let privileged = needs_privileged(address, options.privileged_ports, options.any_port);
        let address = SocketAddr::new(*address, options.port);
        if let Err(error) = sockets.listen(net, address, privileged) {
            return Err(Fault::Address(address, error));
        }
    }
    Ok(())
}

/// Prints the addresses that the server listens on.
pub(crate) fn announce<R: Print>(rt: &R, options: &Options<'_>) -> io::Result<()> {
    let addresses = Addresses::of(options);
    println!(rt; "listening on {addresses}")
}
