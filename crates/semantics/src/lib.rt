//! The small closed types that the code and the definitions in `specs/` share.

#![tactic(auto)]

mod kind;
mod mark;
mod operator;
mod refusal;
mod rule;

pub use kind::{Column, Kind};
pub use mark::Mark;
pub use operator::{Operator, UnknownOperator};
pub use refusal::Refusal;
pub use rule::{Consent, Rule, Sign, Test};
