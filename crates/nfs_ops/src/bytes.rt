//! Opaque data of any length (RFC 4506, section 4.10).
use xdr_wire::Opaque;

/// Opaque data or a string that only the record bounds (`opaque<>` and `string<>` in RFC 5662). It is a name, the text
/// of a link, or the bytes of a file.
pub type Bytes<'a> = Opaque<'a, 0xffff_ffff>;
