//! Carries out a journal: reads call after call from standard input, and writes what each came to before it reads the
//! next. With the argument `time` it prints how long each ask takes instead.

#![tactic(auto)]

mod call;
mod clock;
mod desk;
mod input;
mod kind;
mod outcome;
mod session;
mod spelled;
mod steps;

use crate::outcome::Mode;
use std::env;

fn main(rt: HostRuntime) -> anyhow::Result<()> {
    let time = env::args(&rt)?
        .nth(1)
        .is_some_and(|argument| argument.as_str() == "time");
    let mode = if time { Mode::Times } else { Mode::Outcomes };
    session::journal(&rt, mode)
}
