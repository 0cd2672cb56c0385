//! The results of operations that a command takes.
ghost use Rattle.std.specs.Prelude.{◌≡◌, option_map};
ghost use Rattle.nfs_ops.specs.ResultViews.{read_view};
ghost use Rattle.nfs_client.specs.CompoundViews.{outcomes};
ghost use Rattle.nfs_client.specs.Taking.{last_of, last_two, before_last};

use nfs_ops::OpResult;
use std::alloc::Allocator;

/// The last of the results.
pub(crate) fn last<'a, A: Allocator>(results: Vec<OpResult<'a>, A>) -> Option<OpResult<'a>>
    ensures { option_map read_view result ≡ last_of (outcomes results.entry.items) }
{
    let mut results = results;
    results.pop()
}

/// The last two of the results, in order.
pub(crate) fn last_two<'a, A: Allocator>(
    results: Vec<OpResult<'a>, A>,
) -> Option<(OpResult<'a>, OpResult<'a>)>
    ensures { option_map (λ p. (read_view p.0, read_view p.1)) result ≡ last_two (outcomes results.entry.items) }
{
    let mut results = results;
    let last = results.pop()?;
    let before = results.pop()?;
    Some((before, last))
}

/// The result before the last one.
pub(crate) fn before_last<'a, A: Allocator>(results: Vec<OpResult<'a>, A>) -> Option<OpResult<'a>>
    ensures { option_map read_view result ≡ before_last (outcomes results.entry.items) }
{
    let (before, _) = last_two(results)?;
    Some(before)
}
