//! The headers of replies.

use crate::records::rooms::{Header, put_reply, see_words};
use linked_list_allocator::LocalHeap;
use rpc_record::{AuthStat, REPLY_HEADER_LIMIT, Reply, record_mark};
use std::alloc::Global;
use xdr_wire::Writer;

static REPLIES: [(Reply, &[u32]); 8] = [
    (Reply::Success, &[9, 1, 0, 0, 0, 0]),
    (Reply::ProgUnavail, &[9, 1, 0, 0, 0, 1]),
    (Reply::ProgMismatch, &[9, 1, 0, 0, 0, 2, 4, 4]),
    (Reply::ProcUnavail, &[9, 1, 0, 0, 0, 3]),
    (Reply::GarbageArgs, &[9, 1, 0, 0, 0, 4]),
    (Reply::RpcMismatch, &[9, 1, 1, 0, 2, 2]),
    (Reply::AuthError(AuthStat::BadCred), &[9, 1, 1, 1, 1]),
    (Reply::AuthError(AuthStat::TooWeak), &[9, 1, 1, 1, 5]),
];

fn replies() -> &'static [(Reply, &'static [u32])] {
    &REPLIES
}

fn length_of(reply: Reply) -> usize {
    reply.header_len()
}

/// In each room a reply is written completely, or not at all.
#[test]
fn replies_in_each_room(rt: HostRuntime) {
    for (reply, words) in replies() {
        let length = words.len().saturating_mul(4);
        assert!(rt; length_of(*reply) == length, "{words:?}");
        let header = Header::Reply(*reply);
        assert!(rt; see_words(&rt, rt.alloc(), header, words, REPLY_HEADER_LIMIT).is_ok());
    }
    assert!(rt; REPLY_HEADER_LIMIT == 32);
}

/// Whether a writer takes a reply of its room and no other after it.
fn is_filled(writer: &mut Writer<&LocalHeap>) -> bool {
    let is_first = put_reply(writer, 9, Reply::ProgMismatch);
    let is_second = put_reply(writer, 9, Reply::Success);
    is_first & !is_second & (writer.len() == 32)
}

/// Whether there is a writer over the heap, and whether it is filled without a further allocation.
fn filled(heap: &LocalHeap) -> (bool, bool) {
    match Writer::new(heap, REPLY_HEADER_LIMIT) {
        Ok(mut writer) => {
            let used = heap.used();
            let is_filled = is_filled(&mut writer);
            (true, is_filled & (heap.used() == used))
        }
        Err(_) => (false, true),
    }
}

/// Whether there is a writer over a heap of this size, and whether it is right and no byte of the heap stays allocated.
fn filled_at(alloc: Global, size: usize) -> (bool, bool) {
    match LocalHeap::new(alloc, size) {
        Ok(heap) => {
            let (is_made, is_right) = filled(&heap);
            (is_made, is_right & (heap.used() == 0))
        }
        Err(_) => (false, false),
    }
}

/// Over each size of a heap there is a writer with its room, in which the reply is written without a further
/// allocation. Or there is none, and no byte stays allocated.
#[test]
fn replies_over_a_small_heap(rt: HostRuntime) {
    let mut made = 0u32;
    for size in 0..256usize {
        let (is_made, is_right) = filled_at(rt.alloc(), size);
        assert!(rt; is_right, "at {size}");
        if is_made {
            made = made.saturating_add(1);
        }
    }
    assert!(rt; made > 16 && made < 240, "made {made}");
}

static MARKS: [(usize, [u8; 4]); 4] = [
    (0, [0x80, 0, 0, 0]),
    (24, [0x80, 0, 0, 0x18]),
    (65_536, [0x80, 1, 0, 0]),
    (131_072, [0x80, 2, 0, 0]),
];

fn lengths_and_marks() -> &'static [(usize, [u8; 4])] {
    &MARKS
}

fn is_mark(len: usize, mark: [u8; 4]) -> bool {
    len <= 131_072 && record_mark(len) == mark
}

#[test]
fn marks(rt: HostRuntime) {
    for (len, mark) in lengths_and_marks() {
        assert!(rt; is_mark(*len, *mark), "{len}");
    }
}
