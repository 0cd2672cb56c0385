//! Which lines match the options.
ghost use Rattle.std.specs.Prelude.{◌≡◌};
ghost use Rattle.nfstrail.specs.Choosing as specs;

use crate::notice::{Notice, Stamped};
use access_guard::Line;
use std::collections::BTreeSet;

/// The lines that match. `None`: any value matches.
#[derive(Drop)]
pub(crate) struct Choice {
    /// The user of a line.
    pub(crate) user: Option<u32>,
    /// Its operation.
    pub(crate) op: Option<u32>,
    /// The first second since 1970.
    pub(crate) since: Option<u64>,
    /// Its object is one of these.
    pub(crate) objects: Option<BTreeSet<u64>>,
}

/// Whether a number matches.
fn fits(asked: Option<u32>, number: u32) -> bool
    ensures { result ≡ specs.fits asked number }
{
    match asked {
        Some(asked) => asked == number,
        None => true,
    }
}

/// Whether an object matches.
fn is_among(objects: &Option<BTreeSet<u64>>, object: u64) -> bool
    ensures { result ≡ specs.is_among objects.now object }
{
    match objects {
        Some(objects) => objects.contains(&object),
        None => true,
    }
}

/// Whether a moment isn't before the first second. An unknown one may be after it.
fn is_since(first: Option<u64>, second: Option<u64>) -> bool
    ensures { result ≡ specs.is_since first second }
{
    match (first, second) {
        (Some(first), Some(second)) => first <= second,
        _ => true,
    }
}

impl Choice {
    /// Whether all lines match, whatever user, operation and object they have.
    fn takes_all(&self) -> bool
        ensures { result ≡ specs.takes_all self.now }
    {
        self.user.is_none() && self.op.is_none() && self.objects.is_none()
    }

    fn takes_line(&self, line: &Line) -> bool
        ensures { result ≡ specs.takes_line self.now line.now }
    {
        fits(self.user, line.uid) && fits(self.op, line.op) && is_among(&self.objects, line.object)
    }

    /// Whether a line of the file matches. Missing lines may belong to any user, so they always match by user. A
    /// start belongs to no user.
    pub(crate) fn takes(&self, stamped: &Stamped) -> bool
        ensures { result ≡ specs.takes self.now stamped.now }
    {
        let is_asked = match &stamped.notice {
            Notice::Start => self.takes_all(),
            Notice::Lost(_) => true,
            Notice::Kept(line) => self.takes_line(line),
        };
        is_asked && is_since(self.since, stamped.second)
    }
}
