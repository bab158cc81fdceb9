//! Worked rows: runs of the program with the texts that they must give.
//!
//! Standard input holds one row a line, a JSON object:
//!
//! ```text
//! {"name":"the sum of two tenths","words":["value","[\"+\",0.1,0.1]"],"out":"0.2\n","err":"","status":0}
//! ```
//!
//! | Member | What it is |
//! |---|---|
//! | `name` | a text, which is printed |
//! | `words` | the words after the program's name: an array of contents |
//! | `files` | an object of contents by file name; a name that it lacks cannot be read |
//! | `out`, `err` | the contents that standard output and standard error must hold |
//! | `status` | the exit status, a number |
//! | `images` | `"fixed"`, where the test of images cannot change; left out, it is an empty set of images |
//! | `fails` | calls that fail: `{"files":[CALL,..],"out":[[CALL,BYTES],..],"err":[[CALL,BYTES],..]}` |
//!
//! A CALL is a number counted from 0, and BYTES says how many bytes a failing write still takes. `files` and
//! `fails` may be left out, and so may each member of `fails`. A content is a piece or an array of pieces,
//! which are joined; a piece is a text, `{"hex":"1a29"}`, or `{"times":COUNT,"of":PIECE}`, where that PIECE
//! is one of the first two.
//!
//! Each row is run by `run_style` over files and sinks in memory. `ok NAME` is printed for it, or
//! `FAILED NAME` and what differs; the exit status is 0 where no row failed. A line that is no row ends the
//! run with an error.
#![tactic(auto)]

mod content;
mod members;
mod row;
mod run;

use crate::row::read_row;
use crate::run::difference;
use anyhow::{Context, Result, ensure};
use std::io::{BufRead, BufReader};

fn main(rt: HostRuntime) -> Result<()> {
    let alloc = rt.alloc();
    let mut failed = 0u64;
    let mut number = 0u64;
    for line in BufReader::new(alloc, rt.reader())?.lines(alloc) {
        number = number.saturating_add(1);
        let line = line?;
        let mut row = read_row(alloc, line.as_str()).context(format_args!("line {number}"))?;
        match difference(alloc, &mut row)? {
            None => println!(rt; "ok {}", row.name)?,
            Some(text) => {
                failed = failed.saturating_add(1);
                println!(rt; "FAILED {}: {text}", row.name)?;
            }
        }
    }
    ensure!(failed == 0, "{failed} rows failed");
    Ok(())
}
