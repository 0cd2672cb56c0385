//! `folder_probe`: opens real folders of stores, and answers lines of standard input about them. `README.md` has the
//! lines.
#![tactic(auto)]

mod desk;
mod words;

use crate::desk::Desk;
use std::io::{BufRead, BufReader};
use std::test::Fail;

fn main(rt: HostRuntime) -> Result<(), Fail> {
    let alloc = rt.alloc();
    let mut desk = Desk::new(&rt);
    for line in BufReader::new(alloc, rt.reader())?.lines(alloc) {
        let printed = desk.printed(line?.as_str())?;
        println!(&rt; "{printed}")?;
    }
    Ok(())
}
