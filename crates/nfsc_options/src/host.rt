//! The address of the server.
ghost use Rattle.std.specs.Prelude.{◌≡◌, IfOk, option_map};
ghost use Rattle.clap.specs.Values.{kind_of};
ghost use Rattle.clap.specs.declared.error.kind.ErrorKind.TheVariants as kind;
ghost use Rattle.nfsc_options.specs.Given.{ReadsHost};

use crate::command::command;
use clap::Error;
use clap::error::ErrorKind;
use std::alloc::{AllocError, Global};
use std::net::{IpAddr, Ipv4Addr};

/// `clap`'s error for a text that isn't an address.
fn no_address(alloc: Global, text: &str) -> Result<Error, AllocError>
    ensures { IfOk result (λ e. kind_of e ≡ kind.ValueValidation) }
{
    let message = format!(in alloc;
        "invalid value '{text}' for '--host <ADDRESS>': it is no IPv4 or IPv6 address"
    )?;
    command(alloc)?.error(ErrorKind::ValueValidation, message.as_str())
}

/// The address that a text writes, or 127.0.0.1 without a text.
pub(crate) fn host_of(alloc: Global, given: Option<&str>) -> Result<IpAddr, Error>
    ensures { ReadsHost (option_map (λ t. t.now) given.entry) result }
{
    let Some(text) = given else {
        return Ok(IpAddr::V4(Ipv4Addr::new(127, 0, 0, 1)));
    };
    match text.parse::<IpAddr>() {
        Ok(address) => Ok(address),
        Err(_) => Err(no_address(alloc, text)?),
    }
}
