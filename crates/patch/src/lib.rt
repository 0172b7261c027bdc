#![tactic(auto)]

mod patch;

pub use patch::Patch;
