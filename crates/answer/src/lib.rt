//! Answering a query over a view: low and high evaluation in a lent workspace, and the reply.

#![tactic(auto)]

mod bound;
mod memo;
mod output;
mod refusal;
mod respond;
mod row;
mod task;

pub use respond::answer;
