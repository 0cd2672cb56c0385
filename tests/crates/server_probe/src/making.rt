//! Servers and hubs that lines name, with ample memory or over heaps of a size.

use crate::calls::Site;
use crate::connections::Hall;
use crate::courses::{answer_lines, skip_lines};
use crate::houses::{House, Kind, book_in, results_writer};
use crate::objects::{one_file, root_of};
use crate::refusing::Refusing;
use crate::servers::{sample_server, server_of};
use crate::split_word;
use crate::trees::grow;
use acl_list::{Entry, EntryKind, Who};
use compound_run::Server;
use linked_list_allocator::LocalHeap;
use nfs_hub::Hub;
use std::alloc::{Allocator, Global};
use std::hash::RandomState;
use std::test::Fail;
use who_book::Book;
use xdr_wire::Writer;

/// A server of a root with this ACL (access control list), and the objects and names that the lines add.
fn server_over(
    alloc: Global,
    hasher: RandomState,
    list: &str,
    lines: &str,
) -> Result<Server, Fail> {
    let mut tree = root_of(alloc, list)?;
    grow(alloc, &mut tree, lines)?;
    Ok(server_of(alloc, Book::default(alloc), tree, hasher)?)
}

/// A hub of a root alone, with sessions, by this book.
fn hub_by(alloc: Global, hasher: RandomState, digits: &str) -> Result<Hub, Fail> {
    let book = book_in(alloc, digits)?;
    Ok(Hub::new(alloc, book, hasher)?)
}

/// Prints a text, and answers lines over a borrowed server.
fn over_site<R: Print, A: Allocator + Copy>(
    rt: &R,
    alloc: Global,
    memory: A,
    site: &mut Site<A>,
    head: &str,
    lines: &str,
) -> Result<(), Fail> {
    let mut withheld = Vec::new(alloc);
    let mut house = House {
        kind: Kind::Server(site),
        memory,
        withheld: &mut withheld,
    };
    answer_lines(rt, alloc, &mut house, head, lines)
}

/// Prints a text, and answers lines over a borrowed hub.
fn over_hall<R: Print, A: Allocator + Copy>(
    rt: &R,
    alloc: Global,
    memory: A,
    hall: &mut Hall<A>,
    head: &str,
    lines: &str,
) -> Result<(), Fail> {
    let mut withheld = Vec::new(alloc);
    let mut house = House {
        kind: Kind::Hub(hall),
        memory,
        withheld: &mut withheld,
    };
    answer_lines(rt, alloc, &mut house, head, lines)
}

/// Prints a text, and answers lines over a hub.
fn over_hub<R: Print, A: Allocator + Copy>(
    rt: &R,
    alloc: Global,
    memory: A,
    hub: Hub<A>,
    head: &str,
    lines: &str,
) -> Result<(), Fail> {
    let mut hall = Hall::new(alloc, hub);
    over_hall(rt, alloc, memory, &mut hall, head, lines)
}

/// Answers lines over a server.
fn over_server<R: Print>(
    rt: &R,
    alloc: Global,
    server: Server,
    out: Writer,
    lines: &str,
) -> Result<(), Fail> {
    let mut site = Site { server, out };
    over_site(rt, alloc, alloc, &mut site, "", lines)
}

fn answer_over_sample<R: Print>(
    rt: &R,
    alloc: Global,
    hasher: RandomState,
    lines: &str,
) -> Result<(), Fail> {
    let out = results_writer(alloc)?;
    over_server(rt, alloc, sample_server(alloc, hasher)?, out, lines)
}

fn answer_over_root<R: Print>(
    rt: &R,
    alloc: Global,
    hasher: RandomState,
    list: &str,
    lines: &str,
) -> Result<(), Fail> {
    let out = results_writer(alloc)?;
    over_server(
        rt,
        alloc,
        server_over(alloc, hasher, list, lines)?,
        out,
        lines,
    )
}

/// Answers lines over the house that the first line of a block names, with ample memory.
fn answer_over<R: Print>(
    rt: &R,
    alloc: Global,
    hasher: RandomState,
    what: &str,
    lines: &str,
) -> Result<(), Fail> {
    let (word, rest) = split_word(what);
    match word {
        "sample" => answer_over_sample(rt, alloc, hasher, lines),
        "root" => answer_over_root(rt, alloc, hasher, rest, lines),
        "hub" => over_hub(
            rt,
            alloc,
            alloc,
            Hub::bare(alloc, alloc, hasher)?,
            "",
            lines,
        ),
        "book" => over_hub(rt, alloc, alloc, hub_by(alloc, hasher, rest)?, "", lines),
        _ => Err(Fail::new("no server and no hub")),
    }
}

fn entry(kind: EntryKind, flags: u32, mask: u32) -> Entry {
    Entry {
        kind,
        flags,
        mask,
        who: Who::Everyone,
    }
}

/// A server of a root and a file `f` whose changes and reads are audited. The room for its results is allocated first.
/// `None`: an allocation failed.
fn one_file_in<A: Allocator + Copy>(
    alloc: Global,
    memory: A,
    hasher: RandomState,
) -> Option<Site<A>> {
    let list = [
        entry(EntryKind::Audit, 0x30, 0x47),
        entry(EntryKind::Allow, 0, 0x1f_07ff),
    ];
    let out = results_writer(memory).ok()?;
    let tree = one_file(memory, &list).ok()?;
    let server = server_of(memory, Book::default(alloc), tree, hasher).ok()?;
    Some(Site { server, out })
}

/// Answers lines over a hub in a heap, if its allocation succeeded.
fn answer_over_hub_in<R: Print, A: Allocator + Copy>(
    rt: &R,
    alloc: Global,
    memory: A,
    hub: Option<Hub<A>>,
    lines: &str,
) -> Result<(), Fail> {
    match hub {
        Some(hub) => over_hub(rt, alloc, memory, hub, "made\n", lines),
        None => skip_lines(rt, lines),
    }
}

/// Answers lines over a server in a heap, if its allocation succeeded.
fn answer_over_site_in<R: Print, A: Allocator + Copy>(
    rt: &R,
    alloc: Global,
    memory: A,
    site: Option<Site<A>>,
    lines: &str,
) -> Result<(), Fail> {
    match site {
        Some(mut site) => over_site(rt, alloc, memory, &mut site, "made\n", lines),
        None => skip_lines(rt, lines),
    }
}

/// Answers whether a heap has memory for a hub of the sample tree without sessions, for one of a root alone with
/// sessions, or for a server. Then it answers the lines over it.
fn answer_over_heap<R: Print>(
    rt: &R,
    alloc: Global,
    heap: &LocalHeap,
    hasher: RandomState,
    word: &str,
    lines: &str,
) -> Result<(), Fail> {
    match word {
        "hub" => { answer_over_hub_in(rt, alloc, heap, Hub::bare(heap, alloc, hasher).ok(), lines) }
        "book" => {
            let hub = Hub::new(heap, Book::default(alloc), hasher).ok();
            answer_over_hub_in(rt, alloc, heap, hub, lines)
        }
        _ => answer_over_site_in(rt, alloc, heap, one_file_in(alloc, heap, hasher), lines),
    }
}

/// Answers lines over a house in a heap of a size, and then how many bytes of the heap are in use after the house is
/// dropped.
fn answer_in_heap<R: Print>(
    rt: &R,
    alloc: Global,
    size: usize,
    hasher: RandomState,
    word: &str,
    lines: &str,
) -> Result<(), Fail> {
    let heap = LocalHeap::new(alloc, size)?;
    answer_over_heap(rt, alloc, &heap, hasher, word, lines)?;
    println!(rt; "{}", heap.used())?;
    Ok(())
}

/// Sizes of heaps: the first, the step to the next, and their number.
#[derive(Clone, Copy)]
struct Sizes {
    first: usize,
    step: usize,
    count: usize,
}

/// `WHAT FIRST STEP COUNT`.
fn sizes_in(words: &str) -> Option<(&str, Sizes)> {
    let (word, rest) = split_word(words);
    let (first, rest) = split_word(rest);
    let (step, count) = split_word(rest);
    let sizes = Sizes {
        first: first.parse().ok()?,
        step: step.parse().ok()?,
        count: count.parse().ok()?,
    };
    Some((word, sizes))
}

/// Answers lines over a house in a heap of each size in turn.
fn answer_in_heaps<R: Print>(
    rt: &R,
    alloc: Global,
    hasher: RandomState,
    words: &str,
    lines: &str,
) -> Result<(), Fail> {
    let Some((word, sizes)) = sizes_in(words) else {
        return Err(Fail::new("which heaps?"));
    };
    for index in 0..sizes.count {
        let size = sizes.first.saturating_add(index.saturating_mul(sizes.step));
        answer_in_heap(rt, alloc, size, hasher, word, lines)?;
    }
    Ok(())
}

/// Answers lines over a hub of a root alone, by a book, in memory in which the growth of a number fails. Growths are
/// counted once the hub exists. Then it answers whether there was such a growth, and how many bytes are in use after
/// the hub is dropped.
fn answer_refused<R: Print>(
    rt: &R,
    alloc: Global,
    hasher: RandomState,
    number: u64,
    digits: &str,
    lines: &str,
) -> Result<(), Fail> {
    let memory = Refusing::new(alloc);
    let hub = Hub::new(&memory, book_in(alloc, digits)?, hasher)?;
    memory.refuse(number);
    over_hub(rt, alloc, &memory, hub, "made\n", lines)?;
    let word = if memory.has_refused() { "yes" } else { "no" };
    println!(rt; "{word} {}", memory.used())?;
    Ok(())
}

/// `refused FIRST COUNT BOOK`: answers lines over such a hub for each of COUNT numbers.
fn answer_each_refused<R: Print>(
    rt: &R,
    alloc: Global,
    hasher: RandomState,
    words: &str,
    lines: &str,
) -> Result<(), Fail> {
    let (first, rest) = split_word(words);
    let (count, digits) = split_word(rest);
    let (first, count): (u64, u64) = (first.parse()?, count.parse()?);
    for index in 0..count {
        let number = first.saturating_add(index);
        answer_refused(rt, alloc, hasher, number, digits, lines)?;
    }
    Ok(())
}

/// Makes the house that the first line of a block names, and answers the lines after it.
pub fn answer_block<R: Print>(
    rt: &R,
    alloc: Global,
    hasher: RandomState,
    block: &str,
) -> Result<(), Fail> {
    let (what, lines) = block.split_once('\n').unwrap_or((block, ""));
    if let Some(words) = what.strip_prefix("heaps ") {
        return answer_in_heaps(rt, alloc, hasher, words, lines);
    }
    if let Some(words) = what.strip_prefix("refused ") {
        return answer_each_refused(rt, alloc, hasher, words, lines);
    }
    answer_over(rt, alloc, hasher, what, lines)
}
