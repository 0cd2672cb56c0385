//! Tests of writers whose allocation fails.
use linked_list_allocator::LocalHeap;
use std::alloc::Global;
use xdr_wire::Writer;

/// Whether there is a writer over the heap, and whether it takes an item and counts it then.
fn made(heap: &LocalHeap) -> (bool, bool) {
    match Writer::new(heap, 64) {
        Ok(mut writer) => {
            let is_put = writer.put_opaque(b"sillyprog").is_ok();
            (true, is_put & (writer.len() == 16) & (writer.room() == 48))
        }
        Err(_) => (false, true),
    }
}

/// Whether there is a writer over a heap of this size, and whether it is complete and no byte of the heap stays
/// allocated.
fn made_at(alloc: Global, size: usize) -> (bool, bool) {
    match LocalHeap::new(alloc, size) {
        Ok(heap) => {
            let (is_made, is_whole) = made(&heap);
            (is_made, is_whole & (heap.used() == 0))
        }
        Err(_) => (false, false),
    }
}

/// A writer over every size of heap: the buffer is reserved completely or its allocation fails, and no byte stays
/// allocated.
#[test]
fn runs_out_of_memory(rt: HostRuntime) {
    let mut count = 0u32;
    for size in 0..256usize {
        let (is_made, is_whole) = made_at(rt.alloc(), size);
        assert!(rt; is_whole, "at {size}");
        if is_made {
            count = count.saturating_add(1);
        }
    }
    assert!(rt; count > 10 && count < 246, "made {count}");
}
