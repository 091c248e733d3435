//! Answers one query about the three tariffs for broker 7. It reads the query from standard input, and writes the
//! reply, or the record of the refusal, to standard output.

#![tactic(auto)]

use cells::Cell;
use lookup::ask;
use reply::refusal_record;
use std::io::{self, Read, Write};
use tariffs::{filters, three_tariffs, written};
use view::Masked;

/// The query on standard input, or one byte more than a query may have: then it is refused, and no more is read.
fn query(rt: &HostRuntime) -> io::Result<Vec<u8>> {
    let mut bytes = Vec::new(rt.alloc());
    rt.stdin().take(1025).read_to_end(&mut bytes)?;
    Ok(bytes)
}

fn run(rt: &HostRuntime) -> io::Result<()> {
    let query = query(rt)?;
    let mut memory = [Cell::ZERO; 96];
    let book = three_tariffs(&mut memory);
    let filters = filters();
    let mut work = [Masked::ZERO; 1920];
    let mut reply = [0; 4096];
    let mut out = io::writer(rt);
    match ask(&book, &filters, 7, query.as_slice(), &mut work, &mut reply) {
        Ok(size) => out.write_all(written(&reply, size)),
        Err(refusal) => out.write_all(&refusal_record(refusal)),
    }
}

fn main(rt: HostRuntime) -> io::Result<()> {
    run(&rt)
}
