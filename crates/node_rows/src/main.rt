//! Expressions, each evaluated by its tree, by nodes of its own, by those of a pool and by nodes without the tests that
//! always succeed.
//!
//! Standard input holds one expression a line, as JSON. For each `ok NODES` is printed, where NODES says how many
//! nodes it has, or `FAILED EXPRESSION` where these give two answers under some want; the exit status is 0 where none
//! failed. NODES is also the most by which a ledger rises when the expression is evaluated once, as contracts say. A
//! line that is no expression ends the run with an error.
#![tactic(auto)]

mod answers;

use crate::answers::agreed_nodes;
use anyhow::{Result, ensure};
use std::io::{BufRead, BufReader};

fn main(rt: HostRuntime) -> Result<()> {
    let alloc = rt.alloc();
    let mut failed = 0u64;
    for line in BufReader::new(alloc, rt.reader())?.lines(alloc) {
        let line = line?;
        match agreed_nodes(alloc, line.as_str())? {
            Some(nodes) => println!(rt; "ok {nodes}")?,
            None => {
                failed = failed.saturating_add(1);
                println!(rt; "FAILED {line}")?;
            }
        }
    }
    ensure!(failed == 0, "{failed} expressions failed");
    Ok(())
}
