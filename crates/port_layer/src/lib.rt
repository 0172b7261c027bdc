// What every layer is: a port that stands on another one, with a state of its own.
#![tactic(auto)]

mod errands;

pub use errands::on_owed;
