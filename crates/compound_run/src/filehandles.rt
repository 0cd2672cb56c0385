//! The filehandles of a COMPOUND.
ghost use Rattle.std.specs.Prelude.{◌≡◌};
ghost use Rattle.compound_run.specs.Context.{no_handles};

/// The current and the saved filehandle (RFC 8881, section 16.2.3.1). Each is an object number, if it is set.
#[derive(Clone, Copy, PartialEq, Eq)]
pub(crate) struct FileHandles {
    pub current: Option<u64>,
    pub saved: Option<u64>,
}

impl FileHandles {
    /// A COMPOUND begins without filehandles.
    pub fn none() -> Self
        ensures { result ≡ no_handles }
    {
        FileHandles {
            current: None,
            saved: None,
        }
    }
}
