//! Reading networks from text.
ghost use Rattle.std.specs.Prelude.{◌≡◌, ◌<◌, ◌≤◌, ◌↔◌, IfSome, IsNone, IsTrue, MatchResult, length, min, option_map};
ghost use Rattle.std.specs.List.{list_all};
ghost use Rattle.std.specs.Char.{is_ascii_digit};
ghost use Rattle.std.specs.Str.Parse.{IsNumeral, digits_value};
ghost use Rattle.networks.specs.Address.{width_of};
ghost use Rattle.networks.specs.Text.{Reads, ReadsLength, address_part, prefix_part};

use crate::address::Bits;
use crate::network::Network;
use std::net::IpAddr;
use std::str::FromStr;
use thiserror::Error;

/// Why a text isn't a network. Its `Display` is a sentence about the text.
#[derive(Clone, Copy, Debug, PartialEq, Eq, Error)]
pub enum NetworkError {
    /// The text before the slash, or the whole text if it has no slash, isn't an address.
    #[error("it is no IPv4 or IPv6 address")]
    NotAnAddress,
    /// The text after the slash isn't a number in decimal digits.
    #[error("the length of its prefix is no number")]
    NotANumber,
    /// The prefix is longer than the address, which has this number of bits.
    #[error("its prefix is longer than the {0} bits of its address")]
    TooLong(u8),
    /// Bits after the prefix are set.
    #[error("its address has bits after its prefix")]
    BitsAfterPrefix,
}

/// The address of a text, and the length of its prefix if it has a slash.
fn parts(text: &str) -> (&str, Option<&str>)
    ensures address { result.0.now ≡ address_part text.now }
    ensures prefix { option_map (λ t. t.now) result.1 ≡ prefix_part text.now }
{
    match text.split_once('/') {
        Some((address, prefix)) => (address, Some(prefix)),
        None => (text, None),
    }
}

/// Whether all bytes of a text are decimal digits.
fn are_digits(text: &str) -> bool
    ensures { result ≡ list_all is_ascii_digit text.now }
{
    text.as_bytes().iter().all(|byte| byte.is_ascii_digit())
}

/// Whether a text is one or more decimal digits.
fn is_numeral(text: &str) -> bool
    ensures { IsTrue result ↔ IsNumeral 10 text.now }
{
    !text.is_empty() && are_digits(text)
}

/// The number of decimal digits, or the largest `u32` if that is less.
fn number(digits: &str) -> u32
    requires { IsNumeral 10 digits.now }
    ensures { result ≡ min (digits_value 10 digits.now) 4294967295 }
{
    digits.parse::<u32>().unwrap_or(u32::MAX)
}

/// The length of the prefix of an address of this width, from the written length, if any.
fn prefix_length(written: Option<&str>, width: u8) -> Result<u8, NetworkError>
    ensures { ReadsLength (option_map (λ t. t.now) written.entry) width result }
{
    let Some(digits) = written else {
        return Ok(width);
    };
    if !is_numeral(digits) {
        return Err(NetworkError::NotANumber);
    }
    let length = number(digits);
    if length > u32::from(width) {
        return Err(NetworkError::TooLong(width));
    }
    Ok(length as u8)
}

impl FromStr for Network {
    type Err = NetworkError;

    ghost from_str_gives = { Reads };

    fn from_str(text: &str) -> Result<Network, NetworkError> {
        let (address, written) = parts(text);
        let Ok(address) = address.parse::<IpAddr>() else {
            return Err(NetworkError::NotAnAddress);
        };
        let bits = Bits::of(&address);
        match prefix_length(written, bits.width) {
            Ok(prefix) => {
                if bits.after(prefix) == 0 {
                    Ok(Network { address, prefix })
                } else {
                    Err(NetworkError::BitsAfterPrefix)
                }
            }
            Err(fault) => Err(fault),
        }
    }
}
