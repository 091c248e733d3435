//! A query as a person reads it: its records as a tree in words, or the refusal.

#![tactic(auto)]

mod tree;
mod words;

use crate::tree::Tree;
use cells::Cell;
use query::check;
use std::io::Read;
use tariffs::reader_columns;

/// A query over tariffs in table 0 and two numbers in table 1.
fn explain(rt: &HostRuntime, query: &[u8]) -> anyhow::Result<()> {
    let mut memory = [Cell::ZERO; 32];
    let book = reader_columns().open(&mut memory);
    match check(query, &book) {
        Ok(plan) => {
            let tree = Tree {
                rt,
                query,
                plan: &plan,
            };
            tree.show()
        }
        Err(refusal) => {
            println!(rt; "{refusal}")?;
            Ok(())
        }
    }
}

/// Reads one byte more than a query may have, so that a longer one is refused.
fn run(rt: &HostRuntime) -> anyhow::Result<()> {
    let mut query = Vec::new(rt.alloc());
    rt.stdin().take(1025).read_to_end(&mut query)?;
    explain(rt, query.as_slice())
}

fn main(rt: HostRuntime) -> anyhow::Result<()> {
    run(&rt)
}
