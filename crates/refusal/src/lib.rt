#![tactic(auto)]

mod refusal;

pub use refusal::{Cause, Errand, Failure, Fault, Refusal, Tells};
