#![tactic(auto)]

mod deferral;

pub use deferral::Deferral;
