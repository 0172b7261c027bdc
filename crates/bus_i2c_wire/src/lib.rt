#![tactic(auto)]

mod wire;

pub use wire::Wire;
