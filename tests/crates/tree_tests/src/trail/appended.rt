//! The bytes that are appended.
use crate::trail::guards::refusing;
use access_guard::Guard;
use std::alloc::Global;
use std::hash::RandomState;
use std::process::Abort;
use std::test::Fail;
use trail_keeper::append_new;

/// Appends the lines after the first `seen`, and returns the total.
fn append(guard: &Guard, seen: u64, file: &mut Vec<u8>) -> Option<u64> {
    append_new(guard, seen, file).ok()
}

/// The returned total, and whether the bytes that are appended for the lines after the first `seen` are these.
fn appended(alloc: Global, guard: &Guard, seen: u64, want: &[u8]) -> (Option<u64>, bool) {
    let mut file = Vec::new(alloc);
    let total = append(guard, seen, &mut file);
    (total, file.as_slice() == want)
}

/// How many lines were seen of three, and the bytes that are appended then.
static OF_THREE: [(u64, &[u8]); 3] = [
    (
        0,
        b"DENY uid=1 op=READ obj=1 mask=00000001 missing=00000001\nDENY uid=2 op=READ obj=1 mask=00000001 missing=00000001\nDENY uid=3 op=READ obj=1 mask=00000001 missing=00000001\n",
    ),
    (
        2,
        b"DENY uid=3 op=READ obj=1 mask=00000001 missing=00000001\n",
    ),
    (3, b""),
];

fn of_three() -> &'static [(u64, &'static [u8])] {
    &OF_THREE
}

fn see_three(rt: &impl Abort, alloc: Global, guard: &Guard) {
    for (seen, want) in of_three() {
        let found = appended(alloc, guard, *seen, *want);
        assert!(rt; found == (Some(3), true), "{seen}");
    }
}

#[test]
fn new_lines_are_appended(rt: HostRuntime) -> Result<(), Fail> {
    let guard = refusing(rt.alloc(), RandomState::new(&rt)?, 3)?;
    see_three(&rt, rt.alloc(), &guard);
    Ok(())
}

fn line_after() -> &'static [u8] {
    b"before\nDENY uid=1 op=READ obj=1 mask=00000001 missing=00000001\n"
}

/// The returned total if the writer has a line, and whether the new line comes after it.
fn appended_after(alloc: Global, guard: &Guard) -> (Option<u64>, bool) {
    let mut file = Vec::new(alloc);
    let is_begun = file.extend_from_slice(b"before\n").is_ok();
    let total = append(guard, 0, &mut file);
    (total, is_begun & (file.as_slice() == line_after()))
}

fn see_after(rt: &impl Abort, alloc: Global, guard: &Guard) {
    assert!(rt; appended_after(alloc, guard) == (Some(1), true));
}

/// The bytes are appended after those of the writer.
#[test]
fn a_writer_keeps_what_it_holds(rt: HostRuntime) -> Result<(), Fail> {
    let guard = refusing(rt.alloc(), RandomState::new(&rt)?, 1)?;
    see_after(&rt, rt.alloc(), &guard);
    Ok(())
}

/// How many lines a text has.
fn lines_in(text: &[u8]) -> usize {
    text.iter().filter(|byte| **byte == b'\n').count()
}

fn last_line() -> &'static [u8] {
    b"DENY uid=4100 op=READ obj=1 mask=00000001 missing=00000001\n"
}

/// Whether a text has this prefix and the last line, and how many lines it has.
fn shape_of(text: &[u8], prefix: &[u8]) -> (bool, usize) {
    let has_ends = text.starts_with(prefix) & text.ends_with(last_line());
    (has_ends, lines_in(text))
}

/// The returned total, and the shape of the appended text.
fn shape_after(
    alloc: Global,
    guard: &Guard,
    seen: u64,
    prefix: &[u8],
) -> (Option<u64>, (bool, usize)) {
    let mut file = Vec::new(alloc);
    let total = append(guard, seen, &mut file);
    (total, shape_of(file.as_slice(), prefix))
}

/// How many lines were seen of 4,100, the prefix of the appended text, and its number of lines.
static OF_MANY: [(u64, &[u8], usize); 4] = [
    (0, b"LOST lines=4\nDENY uid=5 op=", 4097),
    (1, b"LOST lines=3\nDENY uid=5 op=", 4097),
    (4, b"DENY uid=5 op=", 4096),
    (5, b"DENY uid=6 op=", 4095),
];

fn of_many() -> &'static [(u64, &'static [u8], usize)] {
    &OF_MANY
}

fn see_many(rt: &impl Abort, alloc: Global, guard: &Guard) {
    for (seen, prefix, count) in of_many() {
        let found = shape_after(alloc, guard, *seen, *prefix);
        assert!(rt; found == (Some(4100), (true, *count)), "{seen}");
    }
}

/// Of 4,100 lines the trail keeps 4,096. After the first line 3 are missing.
#[test]
fn missing_lines_are_reported(rt: HostRuntime) -> Result<(), Fail> {
    let guard = refusing(rt.alloc(), RandomState::new(&rt)?, 4100)?;
    see_many(&rt, rt.alloc(), &guard);
    Ok(())
}
