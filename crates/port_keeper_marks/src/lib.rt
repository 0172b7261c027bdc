// What a keeper owes to the port below it, and the runs in which that is sent.
#![tactic(auto)]

mod marks;
mod runs;

pub use marks::{Marks, REGISTERS};
pub use runs::{Run, Runs};
