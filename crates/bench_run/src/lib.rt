// The calls of sheets, performed one by one on a bus, on a port or on a bench.
#![tactic(auto)]

mod answer;
mod kinds;

pub use answer::{Answer, CallOn, Outcome, perform_all};
