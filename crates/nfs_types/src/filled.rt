//! Bytes that are all the same.
ghost use Rattle.std.specs.Prelude.{◌≡◌, ◌==◌};
ghost use Rattle.std.specs.List.{list_all};

/// Whether each of the bytes equals this one.
pub(crate) fn is_filled(bytes: &[u8], byte: u8) -> bool
    ensures { result ≡ list_all (λ b. b == byte) bytes.now }
{
    bytes.iter().all(|b| *b == byte)
}
