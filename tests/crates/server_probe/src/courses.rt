//! The course of a house's lines: each is answered, or skipped.

use crate::houses::{House, ask};
use crate::split_word;
use crate::trees::grows;
use std::alloc::{Allocator, Global};
use std::test::Fail;

/// The last answer, and whether the next lines are skipped.
#[derive(Drop)]
struct Course {
    last: String,
    skips: bool,
}

/// Whether a line is `go ANSWER`, `stop ANSWER` or `on`.
fn steers(line: &str) -> bool {
    matches!(split_word(line).0, "go" | "stop" | "on")
}

/// `go ANSWER`: the lines up to the next `on` are skipped unless the last answer was ANSWER. `stop ANSWER`: they are
/// skipped if it was.
fn steer(course: &mut Course, line: &str) {
    let (word, answer) = split_word(line);
    let is_last = course.last.as_str() == answer;
    course.skips = match word {
        "go" => course.skips || !is_last,
        "stop" => course.skips || is_last,
        _ => false,
    };
}

/// The answer to a line, or `-` if it is skipped.
fn answer<A: Allocator + Copy>(
    alloc: Global,
    house: &mut House<'_, A>,
    skips: bool,
    line: &str,
) -> Result<String, Fail> {
    if skips {
        return Ok(String::from_str(alloc, "-")?);
    }
    ask(alloc, house, line)
}

fn step<R: Print, A: Allocator + Copy>(
    rt: &R,
    alloc: Global,
    house: &mut House<'_, A>,
    course: &mut Course,
    line: &str,
) -> Result<(), Fail> {
    if grows(line) {
        return Ok(());
    }
    if steers(line) {
        steer(course, line);
        return Ok(());
    }
    course.last = answer(alloc, house, course.skips, line)?;
    rt.write_all(course.last.as_bytes())?;
    rt.write_all(b"\n")?;
    Ok(())
}

/// Prints a text, and answers lines over a house.
pub fn answer_lines<R: Print, A: Allocator + Copy>(
    rt: &R,
    alloc: Global,
    house: &mut House<'_, A>,
    head: &str,
    lines: &str,
) -> Result<(), Fail> {
    print!(rt; "{head}")?;
    let mut course = Course {
        last: String::new(alloc),
        skips: false,
    };
    for line in lines.lines() {
        step(rt, alloc, house, &mut course, line)?;
    }
    Ok(())
}

/// Answers `none`, and each line with `-`: no house exists.
pub fn skip_lines<R: Print>(rt: &R, lines: &str) -> Result<(), Fail> {
    println!(rt; "none")?;
    for line in lines.lines() {
        if !grows(line) && !steers(line) {
            println!(rt; "-")?;
        }
    }
    Ok(())
}
