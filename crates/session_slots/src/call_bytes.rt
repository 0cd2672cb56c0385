//! The bytes that a retry of a call has to repeat (RFC 8881, section 2.10.6.1.3).
ghost use Rattle.std.specs.Prelude.{◌≡◌, nat_eq};
ghost use Rattle.std.specs.Cmp.Lexicographic.{pointwise};
ghost use Rattle.session_slots.specs.Views.{bytes_of};

/// The bytes that a retry of a call has to repeat, in two parts.
#[derive(Clone, Copy)]
pub struct CallBytes<'a> {
    /// The first part.
    pub prefix: &'a [u8],
    /// The bytes after it.
    pub back: &'a [u8],
}

impl CallBytes<'_> {
    /// Whether `bytes` are these bytes.
    pub(crate) fn are(self, bytes: &[u8]) -> bool
        ensures { result ≡ pointwise nat_eq (bytes_of self.entry) bytes.now }
    {
        match bytes.strip_prefix(self.prefix) {
            Some(back) => back == self.back,
            None => false,
        }
    }
}
