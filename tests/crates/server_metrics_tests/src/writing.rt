//! The text of a server.
use crate::expected::TEXT;
use crate::exposition::is_exposition;
use crate::sample::{calls, server};
use linked_list_allocator::LocalHeap;
use server_metrics::{CallCount, Metrics, metrics_text};
use std::alloc::{AllocError, Global};
use std::str;
use std::test::Fail;

/// The text of a server.
fn text_of(alloc: Global, metrics: &Metrics<'_>) -> Result<String, Fail> {
    let bytes = metrics_text(alloc, metrics)?;
    Ok(String::from_str(alloc, str::from_utf8(bytes.as_slice())?)?)
}

#[test]
fn a_text_is_as_it_is_written_down(rt: HostRuntime) -> Result<(), Fail> {
    let text = text_of(rt.alloc(), &server(calls(), Some(2_147_483_648)))?;
    assert_eq!(rt; text.as_str(), TEXT);
    Ok(())
}

#[test]
fn a_text_is_in_the_format(rt: HostRuntime) -> Result<(), Fail> {
    let alloc = rt.alloc();
    assert!(rt; is_exposition(alloc, TEXT)?);
    let plain = text_of(alloc, &server(&[], None))?;
    assert!(rt; is_exposition(alloc, plain.as_str())?);
    assert!(rt; !plain.as_str().contains("zoclesavory_content_limit_bytes"));
    Ok(())
}

#[test]
fn the_format_is_read_strictly(rt: HostRuntime) -> Result<(), Fail> {
    for wrong in [
        "# HELP a A.\n# TYPE a gauge\na 1",
        "# TYPE a gauge\na 1\n",
        "# HELP a A.\na 1\n",
        "# HELP a A.\n# TYPE b gauge\nb 1\n",
        "# HELP a A.\n# TYPE a gauge\nb 1\n",
        "# HELP a A.\n# TYPE a counter\na 1\n",
        "# HELP a A.\n# TYPE a gauge\na one\n",
        "# HELP 1a A.\n# TYPE 1a gauge\n1a 1\n",
        "# HELP a A.\n# TYPE a gauge\na{b=\"c\\d\"} 1\n",
        "# HELP a A.\n# TYPE a gauge\na{b=\"c} 1\n",
        "# HELP a A.\n# TYPE a gauge\na 1\n# HELP a A.\n# TYPE a gauge\na 1\n",
    ] {
        assert!(rt; !is_exposition(rt.alloc(), wrong)?, "{wrong}");
    }
    Ok(())
}

#[test]
fn labels_are_escaped(rt: HostRuntime) -> Result<(), Fail> {
    let odd = [CallCount {
        operation: "a\"b\\c\nd",
        status: "\u{e9}",
        count: 1,
    }];
    let text = text_of(rt.alloc(), &server(&odd, None))?;
    let line = "zoclesavory_calls_total{operation=\"a\\\"b\\\\c\\nd\",status=\"\u{e9}\"} 1\n";
    assert!(rt; text.as_str().contains(line));
    assert!(rt; is_exposition(rt.alloc(), text.as_str())?);
    Ok(())
}

/// The length of the text over a heap of this size, and how many bytes stay allocated.
fn written_at(alloc: Global, size: usize) -> Result<(Option<usize>, usize), AllocError> {
    let heap = LocalHeap::new(alloc, size)?;
    let written = match metrics_text(&heap, &server(calls(), Some(2_147_483_648))) {
        Ok(text) => Some(text.len()),
        Err(_) => None,
    };
    Ok((written, heap.used()))
}

#[test]
fn small_heaps_give_the_whole_text_or_none(rt: HostRuntime) -> Result<(), Fail> {
    let (mut whole, mut none) = (0u32, 0u32);
    for step in 0..256usize {
        let (written, left) = written_at(rt.alloc(), step * 64)?;
        assert_eq!(rt; left, 0);
        match written {
            Some(len) => {
                assert_eq!(rt; len, TEXT.len());
                whole = whole.saturating_add(1);
            }
            None => none = none.saturating_add(1),
        }
    }
    assert!(rt; whole > 10 && none > 10, "{whole} and {none}");
    Ok(())
}
