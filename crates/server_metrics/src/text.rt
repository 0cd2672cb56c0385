//! The text of metrics.
ghost use Rattle.std.specs.Prelude.{◌≡◌, ◌++◌, IfOk, OnOk};
ghost use Rattle.server_metrics.specs.Text as specs;

use crate::metric::Metric;
use crate::metrics::{CallCount, Metrics};
use crate::piece::{push_count, push_head, push_label, push_number, push_seconds, push_text};
use std::alloc::{AllocError, Allocator};

/// Appends which server it is.
#[tactic(auto, unfolding(crate::specs::Text::server_text))]
fn push_server<A: Allocator>(out: &mut Vec<u8, A>, metrics: &Metrics<'_>) -> Result<(), AllocError>
    ensures { OnOk result (out.new.items ≡ out.old.items ++ specs.server_text metrics.now) }
{
    push_head(out, Metric::BuildInfo)?;
    push_text(out, Metric::BuildInfo.name())?;
    push_label(out, "{version=\"", metrics.version)?;
    push_text(out, "\"} 1\n")?;
    push_count(out, Metric::StartTime, metrics.start_time)
}

/// Appends what clients use.
#[tactic(auto, unfolding(crate::specs::Text::clients_text))]
fn push_clients<A: Allocator>(out: &mut Vec<u8, A>, metrics: &Metrics<'_>) -> Result<(), AllocError>
    ensures { OnOk result (out.new.items ≡ out.old.items ++ specs.clients_text metrics.now) }
{
    push_count(out, Metric::Connections, metrics.connections.used)?;
    push_count(out, Metric::ConnectionsLimit, metrics.connections.limit)?;
    push_count(out, Metric::Clients, metrics.clients.used)?;
    push_count(out, Metric::ClientsLimit, metrics.clients.limit)?;
    push_count(out, Metric::Sessions, metrics.sessions.used)?;
    push_count(out, Metric::SessionsLimit, metrics.sessions.limit)?;
    push_count(out, Metric::Opens, metrics.opens.used)?;
    push_count(out, Metric::OpensLimit, metrics.opens.limit)
}

/// Appends the most bytes of all files, if there is a limit.
#[tactic(auto, unfolding(crate::specs::Text::capacity_text))]
fn push_capacity<A: Allocator>(
    out: &mut Vec<u8, A>,
    capacity: Option<u64>,
) -> Result<(), AllocError>
    ensures { OnOk result (out.new.items ≡ out.old.items ++ specs.capacity_text capacity) }
{
    match capacity {
        Some(most) => push_count(out, Metric::ContentLimit, most),
        None => Ok(()),
    }
}

/// Appends what the store holds.
#[tactic(auto, unfolding(crate::specs::Text::contents_text))]
fn push_contents<A: Allocator>(
    out: &mut Vec<u8, A>,
    metrics: &Metrics<'_>,
) -> Result<(), AllocError>
    ensures { OnOk result (out.new.items ≡ out.old.items ++ specs.contents_text metrics.now) }
{
    push_count(out, Metric::Objects, metrics.objects.used)?;
    push_count(out, Metric::ObjectsLimit, metrics.objects.limit)?;
    push_count(out, Metric::Content, metrics.content)?;
    push_capacity(out, metrics.capacity)
}

/// Appends the labels of the calls of an operation with a status.
#[tactic(auto, unfolding(crate::specs::Text::labels))]
fn push_labels<A: Allocator>(out: &mut Vec<u8, A>, call: &CallCount<'_>) -> Result<(), AllocError>
    ensures { OnOk result (out.new.items ≡ out.old.items ++ specs.labels call.now) }
{
    push_label(out, "{operation=\"", call.operation)?;
    push_label(out, "\",status=\"", call.status)?;
    push_text(out, "\"} ")
}

/// Appends the calls of an operation with a status, without a newline.
#[tactic(auto, unfolding(crate::specs::Text::call_sample))]
pub(crate) fn push_sample<A: Allocator>(
    out: &mut Vec<u8, A>,
    call: &CallCount<'_>,
) -> Result<(), AllocError>
    ensures { OnOk result (out.new.items ≡ out.old.items ++ specs.call_sample call.now) }
{
    push_text(out, Metric::Calls.name())?;
    push_labels(out, call)?;
    push_number(out, call.count)
}

/// Appends the line of the calls of an operation with a status.
fn push_call<A: Allocator>(out: &mut Vec<u8, A>, call: &CallCount<'_>) -> Result<(), AllocError>
    ensures { OnOk result (out.new.items ≡ out.old.items ++ specs.call_line call.now) }
{
    push_sample(out, call)?;
    push_text(out, "\n")
}

/// Appends the calls, a line for each operation and status.
#[tactic(auto, unfolding(crate::specs::Text::calls_text))]
fn push_calls<A: Allocator>(out: &mut Vec<u8, A>, calls: &[CallCount<'_>]) -> Result<(), AllocError>
    ensures { OnOk result (out.new.items ≡ out.old.items ++ specs.calls_text calls.now) }
{
    push_head(out, Metric::Calls)?;
    for call in calls {
        push_call(out, call)?;
    }
    Ok(())
}

/// Appends what was refused, read, written and synced.
#[tactic(auto, unfolding(crate::specs::Text::work_text))]
fn push_work<A: Allocator>(out: &mut Vec<u8, A>, metrics: &Metrics<'_>) -> Result<(), AllocError>
    ensures { OnOk result (out.new.items ≡ out.old.items ++ specs.work_text metrics.now) }
{
    push_count(out, Metric::AclRefusals, metrics.acl_refusals)?;
    push_count(out, Metric::ReadBytes, metrics.read_bytes)?;
    push_count(out, Metric::WrittenBytes, metrics.written_bytes)?;
    push_count(out, Metric::Syncs, metrics.syncs)?;
    push_seconds(out, Metric::SlowestSync, metrics.slowest_sync)
}

/// Appends the log, the checkpoint and the book.
#[tactic(auto, unfolding(crate::specs::Text::store_text))]
fn push_store<A: Allocator>(out: &mut Vec<u8, A>, metrics: &Metrics<'_>) -> Result<(), AllocError>
    ensures { OnOk result (out.new.items ≡ out.old.items ++ specs.store_text metrics.now) }
{
    push_count(out, Metric::Generation, metrics.generation)?;
    push_count(out, Metric::LogBytes, metrics.log_bytes)?;
    push_count(out, Metric::CheckpointAge, metrics.checkpoint_age)?;
    push_count(out, Metric::Full, u64::from(metrics.is_full))?;
    push_count(out, Metric::BookEpoch, metrics.book_epoch)
}

/// Appends the whole text.
fn push_metrics<A: Allocator>(out: &mut Vec<u8, A>, metrics: &Metrics<'_>) -> Result<(), AllocError>
    ensures { OnOk result (out.new.items ≡ out.old.items ++ specs.metrics_text metrics.now) }
{
    push_server(out, metrics)?;
    push_clients(out, metrics)?;
    push_contents(out, metrics)?;
    push_calls(out, metrics.calls)?;
    push_work(out, metrics)?;
    push_store(out, metrics)
}

/// The text of metrics, in Prometheus' text exposition format, version 0.0.4. Each metric has its help, its type and
/// its samples. The text is UTF-8 and ends with a newline.
///
/// The error is that an allocation failed. Nothing of the text is returned then.
pub fn metrics_text<A: Allocator>(alloc: A, metrics: &Metrics<'_>) -> Result<Vec<u8, A>, AllocError>
    ensures { IfOk result (λ text. text.items ≡ specs.metrics_text metrics.now) }
{
    let mut text = Vec::new(alloc);
    push_metrics(&mut text, metrics)?;
    Ok(text)
}
