//! A book at work and what brokers see of it, then queries over three tariffs, and what is certain and what is
//! possible of their answers.

#![tactic(auto)]

mod answers;
mod bad;
mod keeping;
mod read;
mod replies;
mod show;
mod views;

fn run(rt: &HostRuntime) -> anyhow::Result<()> {
    keeping::tariffs(rt)?;
    answers::tariffs(rt)
}

fn main(rt: HostRuntime) -> anyhow::Result<()> {
    run(&rt)
}
